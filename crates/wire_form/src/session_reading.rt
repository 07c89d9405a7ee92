// Messages of a session, from all the bytes behind the version and the kind: the session, and what the kind says behind it.
ghost use Rattle.std.specs.Prelude.{◌∷◌};
ghost use Rattle.wire_form.specs.Spelling.{IsWhole};
ghost use Rattle.wire_form.specs.Parts.{context, IsContext};
ghost use Rattle.wire_form.specs.Message.{message_of, Spells, VERSION, HELLO, OPENING, ASK, PAGE, GONE, root, IsRoot, opening, IsOpening, empty_spelling, IsNothing};
ghost use Rattle.wire_form.specs.Reading.{ReadsAll};

use crate::context::read_context;
use crate::digest::read_whole_digest;
use crate::message::Message;
use crate::prefix::read_whole_prefix;
use crate::sent_reading::read_sent;
use crate::session::read_session;
use causal_context::Context;
use dots::Refusal;
use std::alloc::Allocator;

pub(crate) fn read_hello<A: Allocator + Copy>(alloc: A, bytes: &[u8]) -> Result<Message<A>, Refusal>
    ensures { ReadsAll message_of (Spells (VERSION ∷ HELLO ∷ bytes.now)) result }
{
    match read_session(alloc, bytes) {
        Ok(front) => Ok(Message::Hello(front.0, read_known(alloc, front.1)?)),
        Err(refusal) => Err(refusal),
    }
}

pub(crate) fn read_opening<A: Allocator + Copy>(
    alloc: A,
    bytes: &[u8],
) -> Result<Message<A>, Refusal>
    ensures { ReadsAll message_of (Spells (VERSION ∷ OPENING ∷ bytes.now)) result }
{
    match read_session(alloc, bytes) {
        Ok(front) => {
            let shown = read_shown(alloc, front.1)?;
            Ok(Message::Opening(front.0, shown.0, shown.1))
        }
        Err(refusal) => Err(refusal),
    }
}

pub(crate) fn read_ask<A: Allocator + Copy>(alloc: A, bytes: &[u8]) -> Result<Message<A>, Refusal>
    ensures { ReadsAll message_of (Spells (VERSION ∷ ASK ∷ bytes.now)) result }
{
    match read_session(alloc, bytes) {
        Ok(front) => Ok(Message::Ask(front.0, read_whole_prefix(front.1)?)),
        Err(refusal) => Err(refusal),
    }
}

pub(crate) fn read_page_message<A: Allocator + Copy>(
    alloc: A,
    bytes: &[u8],
) -> Result<Message<A>, Refusal>
    ensures { ReadsAll message_of (Spells (VERSION ∷ PAGE ∷ bytes.now)) result }
{
    match read_session(alloc, bytes) {
        Ok(front) => Ok(Message::Page(front.0, read_sent(alloc, front.1)?)),
        Err(refusal) => Err(refusal),
    }
}

pub(crate) fn read_gone<A: Allocator + Copy>(alloc: A, bytes: &[u8]) -> Result<Message<A>, Refusal>
    ensures { ReadsAll message_of (Spells (VERSION ∷ GONE ∷ bytes.now)) result }
{
    match read_session(alloc, bytes) {
        Ok(front) => {
            read_nothing(front.1)?;
            Ok(Message::Gone(front.0))
        }
        Err(refusal) => Err(refusal),
    }
}

// The context that all the bytes spell.
fn read_known<A: Allocator + Copy>(alloc: A, bytes: &[u8]) -> Result<Context<A>, Refusal>
    ensures { ReadsAll (λ context. context) (IsWhole context IsContext bytes.now) result }
{
    let (context, rest) = read_context(alloc, bytes)?;
    if !rest.is_empty() {
        drop(context);
        return Err(Refusal::NotAMessage);
    }
    Ok(context)
}

// The context and the root digest, if there is one, that all the bytes spell.
fn read_shown<A: Allocator + Copy>(
    alloc: A,
    bytes: &[u8],
) -> Result<(Context<A>, Option<[u8; 32]>), Refusal>
    ensures { ReadsAll (λ shown. shown) (IsWhole opening IsOpening bytes.now) result }
{
    let (context, rest) = read_context(alloc, bytes)?;
    match read_root(rest) {
        Ok(root) => Ok((context, root)),
        Err(refusal) => {
            drop(context);
            Err(refusal)
        }
    }
}

fn read_root(bytes: &[u8]) -> Result<Option<[u8; 32]>, Refusal>
    ensures { ReadsAll (λ r. r) (IsWhole root IsRoot bytes.now) result }
{
    match bytes {
        [0] => Ok(None),
        [1, digest @ ..] => Ok(Some(read_whole_digest(digest)?)),
        _ => Err(Refusal::NotAMessage),
    }
}

// No bytes at all.
fn read_nothing(bytes: &[u8]) -> Result<(), Refusal>
    ensures { ReadsAll (λ u. u) (IsWhole empty_spelling IsNothing bytes.now) result }
{
    if !bytes.is_empty() {
        return Err(Refusal::NotAMessage);
    }
    Ok(())
}
