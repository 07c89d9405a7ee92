use crate::node_event::NodeEvent;
use delta_ops::LiveStore;
use hash_path::Fnv1a;
use prefix_digest::ShaSummary;
use replica_core::Replica;
use root_cell::Brand;
use shared_object::Object;
use std::alloc::{Allocator, Global};
use std::marker;
use std::marker::PhantomData;

/// What a node publishes: the store of what its replica holds.
pub type Root<A = Global> = LiveStore<ShaSummary, Fnv1a, A>;

/// Names a node: its cell's book, and the replica that it begins with. The caller picks it, once the book of its cell is opened, and it is a
/// parameter of all that belongs to the node: so a receipt of one node is not learnt at another.
pub trait Naming {
    ghost use Rattle.logbook.specs.Pages.{Book};
    ghost use Rattle.replica_model.specs.Replica.{Replica};

    // The book of the node's events.
    ghost book: { Book };

    // The replica that it begins with.
    ghost first: { Replica };
}

/// What a call passes that picks the two itself.
impl Naming for marker::Brand {
    ghost use Rattle.replica_model.specs.Replica.{fresh};

    ghost book = { record { number = 0; log_name = 0; cells_name = 0 } };

    ghost first = { fresh 1 };
}

/// The Brand of the cell of a node.
pub struct Named<K, A = Global> {
    of: PhantomData<(K, A)>,
}

impl<K: Naming, A: Allocator + Copy> Brand<Root<A>, NodeEvent<A>> for Named<K, A> {
    ghost use Rattle.node_threads.specs.History.{StandsFor};

    ghost book = { K.book };

    ghost stands = { λ root history. StandsFor K.first root history };
}

impl<K: Naming, A: Allocator + Copy> Object for Named<K, A> {
    ghost use Rattle.replica_core.specs.Meaning.{meaning};
    ghost use Rattle.node_threads.specs.History.{IsAfter};

    type State = Replica<Fnv1a, A>;

    type Root = Root<A>;

    type Event = NodeEvent<A>;

    ghost after = { λ replica history. IsAfter K.first history (meaning replica) };
}
