ghost use Rattle.std.specs.Prelude.{◌≡◌, ◌⊎◌, ◌∷◌, IfOk, IfErr, IsErrOf, MatchResult};
ghost use Rattle.wire_form.specs.Message.{MessageValue, message_of, Spells, SpellsNone, SpellsBody, VERSION};
ghost use Rattle.wire_form.specs.Reading.{ReadsAll};

use crate::context::read_context;
use crate::message::Message;
use crate::session_reading::{read_ask, read_gone, read_hello, read_opening, read_page_message};
use crate::store::read_store;
use causal_join::{Causal, OrMap};
use dots::Refusal;
use std::alloc::Allocator;

/// The message that the bytes spell. NotAMessage only where they spell none, else OutOfMemory or the message; bytes that spell none
/// are refused with OutOfMemory where that comes before their fault is found.
///
/// Takes time in the bytes, times a logarithm, and memory in the bytes, whatever they are: each count is compared with the bytes
/// that are left before anything grows.
pub fn decode<A: Allocator + Copy>(alloc: A, bytes: &[u8]) -> Result<Message<A>, Refusal>
    // What is decoded is what the bytes spell.
    ensures ok { IfOk result (λ message. Spells bytes.now (message_of message)) }
    // What the bytes spell is decoded, want of memory aside, and nothing else is.
    ensures only { (message : MessageValue) → Spells bytes.now message
        → MatchResult result (λ decoded. message_of decoded ≡ message) (λ refusal. refusal ≡ Refusal.OutOfMemory) }
    ensures not_a_message { IsErrOf result Refusal.NotAMessage → SpellsNone bytes.now }
    ensures err { IfErr result (λ refusal. (refusal ≡ Refusal.NotAMessage) ⊎ (refusal ≡ Refusal.OutOfMemory)) }
{
    read_message(alloc, bytes)
}

// The message that all the bytes spell.
fn read_message<A: Allocator + Copy>(alloc: A, bytes: &[u8]) -> Result<Message<A>, Refusal>
    ensures { ReadsAll message_of (Spells bytes.now) result }
{
    match bytes {
        [1, 1, body @ ..] => Ok(Message::Delta(read_delta(alloc, true, body)?)),
        [3, kind, body @ ..] => read_kind(alloc, *kind, body),
        _ => Err(Refusal::NotAMessage),
    }
}

// The message of this kind, in the version of the format, whose body is all the bytes.
fn read_kind<A: Allocator + Copy>(alloc: A, kind: u8, bytes: &[u8]) -> Result<Message<A>, Refusal>
    ensures { ReadsAll message_of (Spells (VERSION ∷ kind ∷ bytes.now)) result }
{
    match kind {
        1 => Ok(Message::Delta(read_delta(alloc, false, bytes)?)),
        3 => read_hello(alloc, bytes),
        4 => read_opening(alloc, bytes),
        5 => read_ask(alloc, bytes),
        6 => read_page_message(alloc, bytes),
        7 => read_gone(alloc, bytes),
        _ => Err(Refusal::NotAMessage),
    }
}

// The delta whose body is all the bytes, and whose store is plain or not.
fn read_delta<A: Allocator + Copy>(alloc: A, plain: bool, bytes: &[u8]) -> Result<OrMap<A>, Refusal>
    ensures { ReadsAll (λ delta. delta) (SpellsBody plain bytes.now) result }
{
    let (context, rest) = read_context(alloc, bytes)?;
    let (store, rest) = match read_store(alloc, plain, rest) {
        Ok(front) => front,
        Err(refusal) => {
            drop(context);
            return Err(refusal);
        }
    };
    if !rest.is_empty() {
        drop(store);
        drop(context);
        return Err(Refusal::NotAMessage);
    }
    Causal::from_parts(store, context).ok_or(Refusal::NotAMessage)
}
