ghost use Rattle.std.specs.Prelude.{map, IfOk, IsOkUnless};
ghost use Rattle.wire_form.specs.Message.{Delta, message_of};
ghost use Rattle.replica_core.specs.Carrying.{AreLetters, IsLetter, letter_of, letters_of};

use causal_join::OrMap;
use dots::{Name, Refusal};
use std::alloc::{Allocator, Global};
use wire_form::{Message, encode, encode_delta};

/// A message as bytes, with the replica that it is for.
#[derive(Drop)]
pub struct Letter<A: Allocator + Copy = Global> {
    /// The replica that it is for, or None where it is for everyone.
    pub to: Option<Name>,
    /// What `take_bytes` of that replica takes in.
    pub bytes: Vec<u8, A>,
}

impl<A: Allocator + Copy> Letter<A> {
    /// The letter of a message: its bytes, for whom it is for.
    ///
    /// Its only refusal is OutOfMemory. Takes time and memory in the bytes.
    pub fn of(alloc: A, message: &Message<A>) -> Result<Letter<A>, Refusal>
        ensures ok { IfOk result (λ letter. IsLetter (letter_of letter) (message_of message.now)) }
        ensures refused { IsOkUnless result Refusal.OutOfMemory }
    {
        let bytes = encode(alloc, message)?;
        Ok(Letter {
            to: message.addressee(),
            bytes,
        })
    }

    /// The letter of a delta to everyone: of its message, which need not be made for this.
    ///
    /// Its only refusal is OutOfMemory. Takes time and memory in the bytes.
    pub fn of_delta(alloc: A, delta: &OrMap<A>) -> Result<Letter<A>, Refusal>
        ensures ok { IfOk result (λ letter. IsLetter (letter_of letter) (Delta delta.now)) }
        ensures refused { IsOkUnless result Refusal.OutOfMemory }
    {
        let bytes = encode_delta(alloc, delta)?;
        Ok(Letter { to: None, bytes })
    }

    /// The letter of each message, in their order, as `of` gives it.
    pub fn of_all(alloc: A, messages: &[Message<A>]) -> Result<Vec<Letter<A>, A>, Refusal>
        ensures ok { IfOk result (λ spelled. AreLetters (letters_of spelled.items) (map message_of messages.now)) }
        ensures refused { IsOkUnless result Refusal.OutOfMemory }
    {
        let mut spelled = Vec::with_capacity(alloc, messages.len())?;
        for message in messages {
            let letter = Letter::of(alloc, message)?;
            spelled.push(letter)?;
        }
        Ok(spelled)
    }
}
