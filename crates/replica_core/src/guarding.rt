// Whether the replica's name was used without its memory.
ghost use Rattle.std.specs.Prelude.{◌≡◌, ◌↔◌, false, IsTrue};
ghost use Rattle.causal_context.specs.Context.{has};
ghost use Rattle.replica_model.specs.Mail.{mail_of};
ghost use Rattle.wire_form.specs.Message.{message_of};
ghost use Rattle.replica_core.specs.Meaning.{meaning};
ghost use Rattle.replica_core.specs.Guarding.{HasLost, LacksOf};

use crate::replica::Replica;
use causal_context::Context;
use dots::{Dot, Name};
use hash_path::PathHash;
use std::alloc::Allocator;
use wire_form::Message;

impl<H: PathHash, A: Allocator + Copy> Replica<H, A> {
    /// Whether the message knows a write of this replica's name that the replica does not know: then the name is used by two, or was used before
    /// and its memory is lost, and the message is to be given back untouched. An ask, a page and a gone tell nothing of it.
    ///
    /// `deliver` takes such a message all the same, as a forged one is one by which a replica learns what it never wrote. Takes time in the dots
    /// that stand apart in the message's context, each times a look-up in the own one, and no memory.
    pub fn has_lost(&self, message: &Message<A>) -> bool
        ensures { IsTrue result ↔ HasLost (meaning self.now) (mail_of (message_of message.now)) }
    {
        match message {
            Message::Delta(delta) => lacks_of(self.context(), delta.context(), self.name),
            Message::Hello(_, seen) => lacks_of(self.context(), seen, self.name),
            Message::Opening(_, context, _) => lacks_of(self.context(), context, self.name),
            Message::Ask(..) | Message::Page(..) | Message::Gone(..) => false,
        }
    }
}

// Whether the other context has a dot of this name that the own one does not have.
fn lacks_of<A: Allocator + Copy>(own: &Context<A>, other: &Context<A>, name: Name) -> bool
    ensures { IsTrue result ↔ LacksOf (has own.now) (has other.now) name }
{
    // proof: the clause `canonical` of `cloud`.
    let _ = own.cloud();
    if own.entry(name) < other.entry(name) {
        return true;
    }
    for dot in other.cloud() {
        if is_lacking(own, name, *dot) {
            return true;
        }
    }
    false
}

// Whether the dot is of this name, and not in the context.
fn is_lacking<A: Allocator + Copy>(own: &Context<A>, name: Name, dot: Dot) -> bool
    ensures { IsTrue result ↔ ((dot.name ≡ name) × (has own.now dot ≡ false)) }
{
    dot.name() == name && !own.contains(dot)
}
