// What a replica sends in parts, where a message may be so long at most.
ghost use Rattle.std.specs.Prelude.{◌≡◌, ◌⊎◌, ◌≤◌, ◌<◌, ℕ, length, take, IfOk, IfSome, IfNone, OnErr, IsOkUnless};
ghost use Rattle.delta_ops.specs.Group.{group_state};
ghost use Rattle.replica_model.specs.Step.{KnowsNone};
ghost use Rattle.replica_core.specs.Carrying.{letter_of, letter_or_none};
ghost use Rattle.replica_core.specs.Cutting.{IsFront, IsMost, IsWithin, SendsMost, SendsOldest};
ghost use Rattle.replica_core.specs.Meaning.{meaning};
ghost use Rattle.replica_core.specs.Stepping.{Stays};

use crate::letter::Letter;
use crate::replica::Replica;
use delta_ops::Outgoing;
use dots::Refusal;
use hash_path::PathHash;
use std::alloc::Allocator;
use wire_form::Message;

impl<H: PathHash, A: Allocator + Copy> Replica<H, A> {
    /// The delta of what it made first since the last flush, as a letter to everyone of at most so many bytes, or None where it made nothing. What
    /// does not fit waits for the next call or flush, whole writes at a time: a delta of one write that is longer by itself goes out alone.
    ///
    /// It tries the oldest write, then twice as many, and so on, as long as they fit: so a letter may have room for as many writes again, and twice as
    /// many as it sends do not fit. Writes that were joined into one, as many that are never flushed are and those of before a restart, stay together.
    ///
    /// Its only refusal is OutOfMemory; a refused call changes nothing. Takes what flushes of four times as many writes take, and time in the number
    /// of all that wait.
    pub fn flush_at_most(&mut self, most: u64) -> Result<Option<Letter<A>>, Refusal>
        ensures ok { IfOk result (λ sent. SendsOldest self.old self.new (letter_or_none sent)) }
        ensures some { IfOk result (λ sent. IfSome sent (λ letter. IsWithin self.old self.new most letter.bytes.items)) }
        ensures most { IfOk result (λ sent. IfSome sent (λ _. SendsMost self.old self.new most)) }
        ensures none { IfOk result (λ sent. IfNone sent (KnowsNone (meaning self.old).group × Stays self.old self.new)) }
        ensures refused { IsOkUnless result Refusal.OutOfMemory }
        ensures unchanged { OnErr result (Stays self.old self.new) }
    {
        let Some(first) = self.group.first_known() else {
            return Ok(None);
        };
        let (letter, number) = longest(self.alloc, &self.group, first, most)?;
        self.group.cut(number);
        Ok(Some(letter))
    }
}

// The letter of the oldest deltas that fit: of this number of them, of twice as many, and so on. And how many it is of.
fn longest<A: Allocator + Copy>(
    alloc: A,
    group: &Outgoing<A>,
    first: usize,
    most: u64,
) -> Result<(Letter<A>, usize), Refusal>
    requires some { 0 < first }
    requires there { first ≤ length group.now }
    ensures ok { IfOk result (λ found. IsFront group.now found.1 (letter_of found.0)) }
    ensures within { IfOk result (λ found. (length found.0.bytes.items ≤ most) ⊎ (found.1 ≡ first)) }
    ensures behind { IfOk result (λ found. (first ≤ found.1) × (found.1 ≤ length group.now)) }
    ensures most { IfOk result (λ found. IsMost group.now found.1 most) }
    ensures refused { IsOkUnless result Refusal.OutOfMemory }
{
    let mut number = first;
    let mut letter = front_letter(alloc, group, number)?;
    while number < group.len() {
        let more = number.saturating_mul(2).min(group.len());
        let longer = match front_letter(alloc, group, more) {
            Ok(longer) => longer,
            Err(refusal) => {
                drop(letter);
                return Err(refusal);
            }
        };
        if longer.bytes.len() as u64 > most {
            drop(longer);
            return Ok((letter, number));
        }
        drop(letter);
        letter = longer;
        number = more;
    }
    Ok((letter, number))
}

// The letter of so many of the oldest deltas, as one.
fn front_letter<A: Allocator + Copy>(
    alloc: A,
    group: &Outgoing<A>,
    number: usize,
) -> Result<Letter<A>, Refusal>
    ensures ok { IfOk result (λ letter. IsFront group.now number (letter_of letter)) }
    ensures refused { IsOkUnless result Refusal.OutOfMemory }
{
    let front = Message::Delta(group.front(alloc, number)?);
    let letter = Letter::of(alloc, &front);
    drop(front);
    letter
}
