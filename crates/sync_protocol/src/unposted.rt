ghost use Rattle.std.specs.Prelude.{⊤, IsOk};

use crate::outbox::Outbox;
use dots::Refusal;
use std::alloc::Allocator;
use wire_form::Message;

/// The outbox of who takes the messages as they are answered: it keeps none, and refuses none.
#[derive(Clone, Copy, Debug, Default)]
pub struct Unposted;

impl<A: Allocator + Copy> Outbox<A> for Unposted {
    ghost gains = { λ _ _ _. ⊤ };

    fn post(&mut self, _alloc: A, _message: &Message<A>) -> Result<(), Refusal>
        ensures { IsOk result }
    {
        Ok(())
    }

    fn post_all(&mut self, _alloc: A, _messages: &[Message<A>]) -> Result<(), Refusal>
        ensures { IsOk result }
    {
        Ok(())
    }
}
