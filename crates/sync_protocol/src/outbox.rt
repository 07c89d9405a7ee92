ghost use Rattle.std.specs.Prelude.{◌≡◌, List, [], ◌∷◌, map, OnOk, OnErr, IsOkUnless};
ghost use Rattle.wire_form.specs.Message.{MessageValue, message_of};

use dots::Refusal;
use std::alloc::Allocator;
use wire_form::Message;

/// Where a replica posts the messages that a call of it sends, before the call changes anything: where they are refused, so is the call,
/// and it changed nothing. So whoever keeps messages in a form of its own, as bytes or in a queue, never loses one that was made.
pub trait Outbox<A: Allocator + Copy> {
    // The second outbox is the first with these messages posted.
    ghost gains: { Self → Self → List MessageValue → Type 0 };

    /// Posts this message. Its only refusal is OutOfMemory, and a refused call changes nothing.
    fn post(&mut self, alloc: A, message: &Message<A>) -> Result<(), Refusal>
        ensures ok { OnOk result (gains self.old self.new (message_of message.now ∷ [])) }
        ensures refused { IsOkUnless result Refusal.OutOfMemory }
        ensures unchanged { OnErr result (self.new ≡ self.old) };

    /// Posts these messages, in their order: all of them or none. Its only refusal is OutOfMemory, and a refused call changes nothing.
    fn post_all(&mut self, alloc: A, messages: &[Message<A>]) -> Result<(), Refusal>
        ensures ok { OnOk result (gains self.old self.new (map message_of messages.now)) }
        ensures refused { IsOkUnless result Refusal.OutOfMemory }
        ensures unchanged { OnErr result (self.new ≡ self.old) };
}
