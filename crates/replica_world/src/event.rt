ghost use Rattle.std.specs.Prelude.{◌≡◌};

use dots::Name;
use replica_core::Call;
use std::alloc::{Allocator, Global};

/// What happens in a world.
#[derive(Drop)]
pub enum Event<A: Allocator + Copy = Global> {
    /// A new replica of this name.
    Node(Name),
    /// A call of the replica of this name.
    Call(Name, Call<A>),
    /// The message of this number delivered to the replica of this name. It may be delivered again, to it and to others, or never.
    Deliver(u64, Name),
    /// The replica of this name saved, and back from that: its synchronisations and the snapshots that it keeps are gone.
    Restart(Name),
}

impl<A: Allocator + Copy> Event<A> {
    ghost use Rattle.replica_model.specs.Laws.{replica_of};
    ghost use Rattle.replica_world.specs.Happening.{event_value};

    // The replica that it is of.
    pub(crate) fn name(&self) -> Name
        ensures { result ≡ replica_of (event_value self.now) }
    {
        match self {
            Event::Node(name) | Event::Call(name, _) => *name,
            Event::Deliver(_, name) | Event::Restart(name) => *name,
        }
    }
}
