// The bytes of messages of a session.
ghost use Rattle.std.specs.Prelude.{◌∷◌, [], IfOk, OnOk, IsOkUnless};
ghost use Rattle.wire_form.specs.Session as part;
ghost use Rattle.wire_form.specs.Sent as page;
ghost use Rattle.wire_form.specs.Message.{Hello, Opening, Ask, Page, Gone, Spells, VERSION, root, IsRoot};
ghost use Rattle.wire_form.specs.Writing.{Appends};

use crate::append::{Append, append_items};
use crate::encoding::write_context;
use crate::page_writing::write_page;
use crate::prefix::write_prefix;
use crate::sent_page::SentPage;
use crate::session::Session;
use causal_context::Context;
use dots::Refusal;
use hash_path::Prefix;
use std::alloc::Allocator;

pub(crate) fn write_hello<A: Allocator + Copy>(
    alloc: A,
    session: Session,
    context: &Context<A>,
) -> Result<Vec<u8, A>, Refusal>
    ensures ok { IfOk result (λ bytes. Spells bytes.items (Hello session context.now)) }
    ensures err { IsOkUnless result Refusal.OutOfMemory }
{
    let mut out = begun(alloc, 3, session)?;
    write_context(&mut out, context)?;
    Ok(out)
}

pub(crate) fn write_opening<A: Allocator + Copy>(
    alloc: A,
    session: Session,
    context: &Context<A>,
    digest: &Option<[u8; 32]>,
) -> Result<Vec<u8, A>, Refusal>
    ensures ok { IfOk result (λ bytes. Spells bytes.items (Opening session context.now digest.now)) }
    ensures err { IsOkUnless result Refusal.OutOfMemory }
{
    let mut out = begun(alloc, 4, session)?;
    write_context(&mut out, context)?;
    write_root(&mut out, digest)?;
    Ok(out)
}

pub(crate) fn write_ask<A: Allocator + Copy>(
    alloc: A,
    session: Session,
    prefix: Prefix,
) -> Result<Vec<u8, A>, Refusal>
    ensures ok { IfOk result (λ bytes. Spells bytes.items (Ask session prefix)) }
    ensures err { IsOkUnless result Refusal.OutOfMemory }
{
    let mut out = begun(alloc, 5, session)?;
    write_prefix(&mut out, prefix)?;
    Ok(out)
}

pub(crate) fn write_page_message<A: Allocator + Copy>(
    alloc: A,
    session: Session,
    sent: &SentPage<A>,
) -> Result<Vec<u8, A>, Refusal>
    ensures ok { IfOk result (λ bytes. Spells bytes.items (Page session sent.now)) }
    ensures err { IsOkUnless result Refusal.OutOfMemory }
{
    let mut out = begun(alloc, 6, session)?;
    write_sent(&mut out, sent)?;
    Ok(out)
}

pub(crate) fn write_gone<A: Allocator + Copy>(
    alloc: A,
    session: Session,
) -> Result<Vec<u8, A>, Refusal>
    ensures ok { IfOk result (λ bytes. Spells bytes.items (Gone session)) }
    ensures err { IsOkUnless result Refusal.OutOfMemory }
{
    begun(alloc, 7, session)
}

// The version, the kind and the session, with which a message of a session begins.
fn begun<A: Allocator + Copy>(alloc: A, kind: u8, session: Session) -> Result<Vec<u8, A>, Refusal>
    ensures ok { IfOk result (λ out. Appends part.session part.IsSession (VERSION ∷ kind ∷ []) out.items session) }
    ensures err { IsOkUnless result Refusal.OutOfMemory }
{
    let mut out = Vec::from_slice(alloc, &[3, kind])?;
    write_session(&mut out, session)?;
    Ok(out)
}

fn write_session<A: Allocator + Copy>(out: &mut Vec<u8, A>, session: Session) -> Result<(), Refusal>
    ensures ok { OnOk result (Appends part.session part.IsSession out.old.items out.new.items session) }
    ensures err { IsOkUnless result Refusal.OutOfMemory }
{
    session.asker().append_to(out)?;
    session.answerer().append_to(out)?;
    session.number().append_to(out)
}

fn write_root<A: Allocator + Copy>(
    out: &mut Vec<u8, A>,
    digest: &Option<[u8; 32]>,
) -> Result<(), Refusal>
    ensures ok { OnOk result (Appends root IsRoot out.old.items out.new.items digest.now) }
    ensures err { IsOkUnless result Refusal.OutOfMemory }
{
    match digest {
        None => {
            out.push(0)?;
            Ok(())
        }
        Some(digest) => {
            out.push(1)?;
            digest.append_to(out)
        }
    }
}

fn write_sent<A: Allocator + Copy>(out: &mut Vec<u8, A>, sent: &SentPage<A>) -> Result<(), Refusal>
    ensures ok { OnOk result (Appends page.sent page.IsSent out.old.items out.new.items sent.now) }
    ensures err { IsOkUnless result Refusal.OutOfMemory }
{
    write_prefix(out, sent.prefix())?;
    append_items(out, sent.values())?;
    write_page(out, sent.page())
}
