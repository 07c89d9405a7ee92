// What bytes say was saved.
ghost use Rattle.std.specs.Prelude.{◌≡◌, ◌⊎◌, ◌∷◌, IfOk, IfErr, IsErrOf, MatchResult};
ghost use Rattle.wire_form.specs.Message.{SpellsDelta};
ghost use Rattle.wire_form.specs.Reading.{ReadsAll};
ghost use Rattle.saved_form.specs.Saved.{SavedValue, saved_value, SpellsSaved, SpellsNothingSaved};

use crate::parts::{name_at, number_at, sized_at};
use crate::saved::Saved;
use causal_join::OrMap;
use dots::Refusal;
use std::alloc::Allocator;
use wire_form::{Message, decode};

/// What the bytes say was saved, of which they are the one spelling. NotAMessage just where they are no such spelling: cut, longer or changed
/// bytes, and messages; else OutOfMemory.
///
/// Takes time in the bytes, times a logarithm, and memory in the bytes, whatever they are.
pub fn decode_saved<A: Allocator + Copy>(alloc: A, bytes: &[u8]) -> Result<Saved<A>, Refusal>
    // What is decoded is what the bytes spell.
    ensures ok { IfOk result (λ saved. SpellsSaved bytes.now (saved_value saved)) }
    // What the bytes spell is decoded, want of memory aside, and nothing else is.
    ensures only { (value : SavedValue) → SpellsSaved bytes.now value
        → MatchResult result (λ saved. saved_value saved ≡ value) (λ refusal. refusal ≡ Refusal.OutOfMemory) }
    ensures not_a_message { IsErrOf result Refusal.NotAMessage → SpellsNothingSaved bytes.now }
    ensures err { IfErr result (λ refusal. (refusal ≡ Refusal.NotAMessage) ⊎ (refusal ≡ Refusal.OutOfMemory)) }
{
    read_whole(alloc, bytes)
}

// What all the bytes say was saved.
fn read_whole<A: Allocator + Copy>(alloc: A, bytes: &[u8]) -> Result<Saved<A>, Refusal>
    ensures { ReadsAll saved_value (SpellsSaved bytes.now) result }
{
    match bytes {
        [3, 2, body @ ..] => read_body(alloc, body),
        _ => Err(Refusal::NotAMessage),
    }
}

// What all the bytes behind the version and the kind say was saved.
fn read_body<A: Allocator + Copy>(alloc: A, bytes: &[u8]) -> Result<Saved<A>, Refusal>
    ensures { ReadsAll saved_value (SpellsSaved (3 ∷ 2 ∷ bytes.now)) result }
{
    let (name, rest) = match name_at(bytes) {
        Ok(front) => front,
        Err(refusal) => return Err(refusal),
    };
    let (opened, rest) = match number_at(rest) {
        Ok(front) => front,
        Err(refusal) => return Err(refusal),
    };
    let (live, group) = match sized_at(rest) {
        Ok(front) => front,
        Err(refusal) => return Err(refusal),
    };
    let live = read_delta(alloc, live)?;
    match read_delta(alloc, group) {
        Ok(group) => Ok(Saved {
            name,
            opened,
            live,
            group,
        }),
        Err(refusal) => {
            drop(live);
            Err(refusal)
        }
    }
}

// The delta that all the bytes spell.
fn read_delta<A: Allocator + Copy>(alloc: A, bytes: &[u8]) -> Result<OrMap<A>, Refusal>
    ensures { ReadsAll (λ delta. delta) (SpellsDelta bytes.now) result }
{
    match decode(alloc, bytes)? {
        Message::Delta(delta) => Ok(delta),
        other => {
            drop(other);
            Err(Refusal::NotAMessage)
        }
    }
}
