ghost use Rattle.std.specs.Prelude.{◌≡◌, ◌+◌, ◌-◌, ◌<◌, ◌^◌, [], length, map, nat_lt, if◌then◌else◌, None, IfOk, IsOkUnless};
ghost use Rattle.std.specs.List.{slice_get};
ghost use Rattle.std.specs.Option.{option_copied};
ghost use Rattle.wire_form.specs.Message.{message_of};
ghost use Rattle.replica_model.specs.Mail.{mail_of};
ghost use Rattle.replica_model.specs.Spelled.{AreSpelled};
ghost use Rattle.replica_world.specs.Spelled.{bytes_of};

use dots::Refusal;
use std::alloc::{Allocator, Global};
use std::marker::Model;
use sync_protocol::Outbox;
use wire_form::{Message, encode};

// The messages of a world, as bytes, from message 1 on.
#[derive(Drop)]
pub(crate) struct Posted<A: Allocator + Copy = Global> {
    messages: Vec<Vec<u8, A>, A>,
}

impl<A: Allocator + Copy> Model for Posted<A> {
    ghost use Rattle.std.specs.Prelude.{ℕ, List};
    ghost use Rattle.replica_world.specs.Spelled.{bytes_of};

    ghost Value = { List (List ℕ) };

    ghost view = { λ p. bytes_of p.messages.items };
}

impl<A: Allocator + Copy> Outbox<A> for Posted<A> {
    ghost use Rattle.replica_world.specs.Spelled.{Gains};

    ghost gains = { Gains };

    fn post(&mut self, alloc: A, message: &Message<A>) -> Result<(), Refusal> {
        let bytes = encode(alloc, message)?;
        self.messages.push(bytes)?;
        Ok(())
    }

    fn post_all(&mut self, alloc: A, messages: &[Message<A>]) -> Result<(), Refusal> {
        let mut spelled = encode_all(alloc, messages)?;
        self.messages.append(&mut spelled)?;
        Ok(())
    }
}

impl<A: Allocator + Copy> Posted<A> {
    // No message.
    pub fn new(alloc: A) -> Posted<A>
        ensures { result ≡ [] }
    {
        Posted {
            messages: Vec::new(alloc),
        }
    }

    // How many there are, which is less than memory has bytes.
    pub fn len(&self) -> u64
        ensures count { result ≡ length self.now }
        ensures few { result + 1 < 2 ^ 64 }
    {
        self.messages.len() as u64
    }

    // The message of this number, from 1.
    pub fn get(&self, number: u64) -> Option<&[u8]>
        ensures { option_copied result ≡ (if nat_lt 0 number then slice_get self.now (number - 1) else None) }
    {
        let bytes = self.messages.get(number.checked_sub(1)? as usize)?;
        Some(bytes.as_slice())
    }
}

// The bytes of these messages.
fn encode_all<A: Allocator + Copy>(
    alloc: A,
    messages: &[Message<A>],
) -> Result<Vec<Vec<u8, A>, A>, Refusal>
    ensures ok { IfOk result (λ spelled. AreSpelled (bytes_of spelled.items) (map mail_of (map message_of messages.now))) }
    ensures refused { IsOkUnless result Refusal.OutOfMemory }
{
    let mut spelled = Vec::with_capacity(alloc, messages.len())?;
    for message in messages {
        let bytes = encode(alloc, message)?;
        spelled.push(bytes)?;
    }
    Ok(spelled)
}
