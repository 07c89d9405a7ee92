// The names of a node's parts, which are those of a shared object.
use crate::named::{Named, Root};
use crate::node_event::NodeEvent;
use root_cell::Note;
use shared_object::{Owner, Shared};
use std::alloc::Global;

/// A node: it hands out its clients, and takes the replica out from among them in the end.
pub type Node<K, S, A = Global> = Owner<Named<K, A>, S, A>;

/// What the clients of a node share: the gate, and the lock under which the replica lies. `W` is the handle by which it waits; what only
/// reads names no such type, and waits for nobody.
pub type Lock<K, G, W, A = Global> = Shared<Named<K, A>, G, W, A>;

/// A client of a node. It looks at what is published, as by `Getting`, and calls, as by `Writing`.
pub type Client<K, S, A = Global> = shared_object::Client<Named<K, A>, S, A>;

/// What was published of a node once, to look at as often as wanted: `Client::snapshot` gives it. It is none of the snapshots of a `Replica`, which
/// `changes` compares.
pub type Snapshot<K, A = Global> = shared_object::Snapshot<Named<K, A>, A>;

/// A receipt of an accepted call, for another client of the node to learn.
pub type Receipt<K, A = Global> = Note<Root<A>, NodeEvent<A>, Named<K, A>>;
