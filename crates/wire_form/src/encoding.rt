ghost use Rattle.std.specs.Prelude.{◌≡◌, true, false, IfOk, OnOk, IsOkUnless};
ghost use Rattle.std.specs.List.{flat_map, AllByRecursion};
ghost use Rattle.wire_form.specs.Spelling.{pair, IsPair};
ghost use Rattle.wire_form.specs.Parts as part;
ghost use Rattle.wire_form.specs.Store as form;
ghost use Rattle.wire_form.specs.Message.{Delta, message_of, Spells};
ghost use Rattle.wire_form.specs.Writing.{Appends};

use crate::append::{Append, append_items};
use crate::message::Message;
use crate::plain::{is_plain_store, values_alone};
use crate::session_writing::{
    write_ask, write_gone, write_hello, write_opening, write_page_message,
};
use causal_context::Context;
use causal_join::{Fields, OrMap, OrMapStore};
use dots::{Key, Refusal};
use std::alloc::Allocator;

// Room for the bytes of most deltas of one write, so that they are not moved as they grow.
const DELTA_ROOM: usize = 128;

/// The bytes of the message: the one spelling that it has. Takes time and memory in their number.
/// Its only refusal is OutOfMemory.
pub fn encode<A: Allocator + Copy>(alloc: A, message: &Message<A>) -> Result<Vec<u8, A>, Refusal>
    ensures ok { IfOk result (λ bytes. Spells bytes.items (message_of message.now)) }
    ensures err { IsOkUnless result Refusal.OutOfMemory }
{
    match message {
        Message::Delta(delta) => encode_delta(alloc, delta),
        Message::Hello(session, context) => write_hello(alloc, *session, context),
        Message::Opening(session, context, root) => write_opening(alloc, *session, context, root),
        Message::Ask(session, prefix) => write_ask(alloc, *session, *prefix),
        Message::Page(session, sent) => write_page_message(alloc, *session, sent),
        Message::Gone(session) => write_gone(alloc, *session),
    }
}

/// The bytes of the message of this delta, as `encode` gives them. Takes time and memory in their number.
/// Its only refusal is OutOfMemory.
pub fn encode_delta<A: Allocator + Copy>(alloc: A, delta: &OrMap<A>) -> Result<Vec<u8, A>, Refusal>
    ensures ok { IfOk result (λ bytes. Spells bytes.items (Delta delta.now)) }
    ensures err { IsOkUnless result Refusal.OutOfMemory }
{
    let store = delta.store();
    let plain = is_plain_store(store);
    let version = if plain { 1 } else { 3 };
    let mut out = Vec::with_capacity(alloc, DELTA_ROOM)?;
    out.extend_from_slice(&[version, 1])?;
    write_context(&mut out, delta.context())?;
    write_store(&mut out, plain, store)?;
    Ok(out)
}

pub(crate) fn write_context<A: Allocator + Copy>(
    out: &mut Vec<u8, A>,
    context: &Context<A>,
) -> Result<(), Refusal>
    ensures ok { OnOk result (Appends part.context part.IsContext out.old.items out.new.items context.now) }
    ensures err { IsOkUnless result Refusal.OutOfMemory }
{
    append_items(out, context.vector())?;
    append_items(out, context.cloud())
}

// The store in the form that it is told to have.
fn write_store<A: Allocator + Copy>(
    out: &mut Vec<u8, A>,
    plain: bool,
    store: &OrMapStore<A>,
) -> Result<(), Refusal>
    requires { form.is_plain_form store.now ≡ plain }
    ensures ok { OnOk result (Appends (form.store plain) form.IsStore out.old.items out.new.items store.now) }
    ensures err { IsOkUnless result Refusal.OutOfMemory }
{
    if plain {
        write_plain_store(out, store)
    } else {
        write_full_store(out, store)
    }
}

fn write_plain_store<A: Allocator + Copy>(
    out: &mut Vec<u8, A>,
    store: &OrMapStore<A>,
) -> Result<(), Refusal>
    requires { form.is_plain_form store.now ≡ true }
    ensures ok { OnOk result (Appends (form.store true) form.IsStore out.old.items out.new.items store.now) }
    ensures err { IsOkUnless result Refusal.OutOfMemory }
{
    let entries = store.entries();
    (entries.len() as u64).append_to(out)?;
    write_plain_entries(out, entries)
}

// Each key with the values of its empty field, which is there alone.
fn write_plain_entries<A: Allocator + Copy>(
    out: &mut Vec<u8, A>,
    entries: &[(Key<A>, Fields<A>)],
) -> Result<(), Refusal>
    requires { form.is_plain_form entries.now ≡ true }
    ensures ok { OnOk result (Appends (flat_map (pair part.text form.sole)) (AllByRecursion (IsPair part.IsText form.AreSole)) out.old.items out.new.items entries.now) }
    ensures err { IsOkUnless result Refusal.OutOfMemory }
{
    for (key, fields) in entries {
        key.append_to(out)?;
        write_alone(out, fields)?;
    }
    Ok(())
}

// The values of the empty field, which is there alone.
fn write_alone<A: Allocator + Copy>(out: &mut Vec<u8, A>, fields: &Fields<A>) -> Result<(), Refusal>
    requires { form.is_sole fields.now ≡ true }
    ensures ok { OnOk result (Appends form.sole form.AreSole out.old.items out.new.items fields.now) }
    ensures err { IsOkUnless result Refusal.OutOfMemory }
{
    match values_alone(fields) {
        Some(values) => values.append_to(out),
        None => Ok(()),
    }
}

fn write_full_store<A: Allocator + Copy>(
    out: &mut Vec<u8, A>,
    store: &OrMapStore<A>,
) -> Result<(), Refusal>
    ensures ok { OnOk result (Appends (form.store false) form.IsStore out.old.items out.new.items store.now) }
    ensures err { IsOkUnless result Refusal.OutOfMemory }
{
    append_items(out, store.entries())
}
