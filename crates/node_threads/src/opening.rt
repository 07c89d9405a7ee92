ghost use Rattle.std.specs.Prelude.{◌≡◌, ◌≤◌, [], replicate, IfOk, IfErr};
ghost use Rattle.std.specs.Vec.{vec_len};
ghost use Rattle.dots.specs.declared.refusal.Refusal.TheVariants.{OutOfMemory};
ghost use Rattle.delta_ops.specs.LiveMap.{store_state};
ghost use Rattle.replica_core.specs.Meaning.{meaning};
ghost use Rattle.replica_model.specs.Replica.{fresh};
ghost use Rattle.node_threads.specs.Opening.{HasNoHistory};
ghost use Rattle.shared_object.specs.Finishing.{NothingHappened};

use crate::named::{Named, Naming, Root};
use crate::node::{Lock, Node};
use crate::node_event::NodeEvent;
use dots::{Name, Refusal};
use hash_path::Fnv1a;
use replica_core::Replica;
use root_cell::{Cell, OpenedBook, Parts, Title, View, Writer};
use shared_object::{Gate, Object, Owner, Returned, Shared};
use std::alloc::Allocator;
use std::sync::Wait;

// What the cell of a node is made of.
type NodeParts<K, A> = Parts<Root<A>, NodeEvent<A>, Named<K, A>, A>;

/// A node of a replica of this name, which holds nothing yet, with so many places for clients: as `node_of` makes it of a new replica. Its only
/// refusal is OutOfMemory.
pub fn new_node<K: Naming, G: Gate + Drop, W: Wait + Drop, A: Allocator + Copy, T: Wait>(
    rt: &T,
    alloc: A,
    opened: OpenedBook<NodeEvent<A>>,
    name: Name,
    places: usize,
    gate: G,
    handle: W,
) -> Result<Node<K, Lock<K, G, W, A>, A>, Refusal>
    requires places { (1 ≤ places) × (places ≤ 64) }
    requires book { opened.0 ≡ K.book }
    requires first { fresh name ≡ K.first }
    ensures ok { IfOk result (λ node. node ≡ record { taken = 0; free = places; back = [] }) }
    ensures nothing { IfOk result (λ node. HasNoHistory A node.taken) }
    ensures err { IfErr result (λ e. e ≡ OutOfMemory) }
{
    let replica = Replica::new(alloc, name, Fnv1a);
    match node_of(rt, alloc, opened, replica, places, gate, handle) {
        Ok(node) => Ok(node),
        Err(replica) => {
            drop(replica);
            Err(Refusal::OutOfMemory)
        }
    }
}

/// A node of this replica, as one that was resumed from what was saved of it, with so many places for clients. Its histories begin at what
/// the replica is. The caller picks `K` by the book that was opened and the replica. The node keeps the handle, to end with; each of its calls that
/// writes passes the gate.
///
/// It may wait, as it lays the replica under a lock that it makes: so a static library, which has no lock, can hold no node, and holds a `Replica`
/// of one thread. Where there is no memory for the node, the replica comes back. Takes time and memory in the places, whatever the
/// replica holds.
pub fn node_of<K: Naming, G: Gate + Drop, W: Wait + Drop, A: Allocator + Copy, T: Wait>(
    rt: &T,
    alloc: A,
    opened: OpenedBook<NodeEvent<A>>,
    replica: Replica<Fnv1a, A>,
    places: usize,
    gate: G,
    handle: W,
) -> Result<Node<K, Lock<K, G, W, A>, A>, Replica<Fnv1a, A>>
    requires places { (1 ≤ places) × (places ≤ 64) }
    requires book { opened.0 ≡ K.book }
    requires first { meaning replica ≡ K.first }
    ensures ok { IfOk result (λ node. node ≡ record { taken = 0; free = places; back = [] }) }
    ensures nothing { IfOk result (λ node. HasNoHistory A node.taken) }
    ensures back { IfErr result (λ back. back ≡ replica) }
{
    match new_cell::<K, A, T>(rt, alloc, opened, &replica, places) {
        Ok((writer, views, title)) => {
            own(rt, alloc, replica, writer, views, title, gate, handle)
        }
        Err(_) => Err(replica),
    }
}

// The cell of a node, with the root of this replica.
fn new_cell<K: Naming, A: Allocator + Copy, T: Wait>(
    rt: &T,
    alloc: A,
    opened: OpenedBook<NodeEvent<A>>,
    replica: &Replica<Fnv1a, A>,
    places: usize,
) -> Result<NodeParts<K, A>, Refusal>
    requires places { (1 ≤ places) × (places ≤ 64) }
    requires book { opened.0 ≡ K.book }
    requires first { meaning replica.now ≡ K.first }
    ensures writer { IfOk result (λ r. r.0 ≡ []) }
    ensures views { IfOk result (λ r. r.1.items ≡ replicate places []) }
{
    match first_root(replica) {
        Ok(root) => Cell::new(rt, alloc, opened, places, root),
        Err(refusal) => Err(refusal),
    }
}

// The root of what the replica holds.
fn first_root<A: Allocator + Copy>(replica: &Replica<Fnv1a, A>) -> Result<Root<A>, Refusal>
    ensures ok { IfOk result (λ root. (store_state root).at ≡ (meaning replica.now).live.at) }
{
    replica.share()
}

// Shares an object to which nothing happened yet. Where there is no memory, its cell ends, and it comes back.
// It is of any object, as a check of what holds a replica and a cell grows with the depth of their types.
fn own<J: Object, G: Gate + Drop, W: Wait + Drop, A: Allocator + Copy, T: Wait>(
    rt: &T,
    alloc: A,
    object: J::State,
    writer: Writer<J::Root, J::Event, J, A>,
    views: Vec<View<J::Root, J::Event, J, A>, A>,
    title: Title<J::Root, J::Event, J>,
    gate: G,
    handle: W,
) -> Result<Owner<J, Shared<J, G, W, A>, A>, J::State>
    requires object { J.after object [] }
    requires writer { writer ≡ [] }
    requires places { vec_len views ≤ 64 }
    requires views { views.items ≡ replicate (vec_len views) [] }
    ensures ok { IfOk result (λ owner. owner ≡ record { taken = 0; free = vec_len views; back = [] }) }
    ensures nothing { IfOk result (λ owner. NothingHappened J.Event.place owner.taken) }
    ensures back { IfErr result (λ back. back ≡ object) }
{
    match Owner::new(rt, alloc, object, writer, views, title, gate, handle) {
        Ok(owner) => Ok(owner),
        Err(back) => {
            let Returned {
                object,
                writer,
                views: _,
                title: _,
                gate: _,
                handle: _,
            } = back;
            writer.end(rt);
            Err(object)
        }
    }
}
