use crate::named::Naming;
use crate::node::{Client, Lock};
use shared_object::Gate;
use std::sync::Wait;

/// What clients of a node do, each in a thread of its own.
// It is a trait and no closure, as no bound can name the type of a client.
pub trait Work {
    ghost use Rattle.std.specs.Prelude.{ℕ};
    ghost use Rattle.std.specs.declared.alloc.Global.{Global};
    ghost use Rattle.node_threads.specs.declared.node_event.NodeEvent.{NodeEvent};
    ghost use Rattle.shared_object.specs.History.{Seat};

    // The client of this number did its part, from the first to the second.
    ghost does: { Self → ℕ → Seat (NodeEvent Global) → Seat (NodeEvent Global) → Type 0 };

    /// Does the part of the client of this number, from 0 on.
    fn work<K: Naming, G: Gate + Drop, W: Wait + Drop>(
        &self,
        number: usize,
        client: &mut Client<K, Lock<K, G, W>>,
    )
        ensures { does self.now number client.old client.new };
}
