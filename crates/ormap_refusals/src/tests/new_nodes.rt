// Nodes that are made in a heap.
ghost use Rattle.std.specs.Prelude.{◌≡◌};
ghost use Rattle.replica_core.specs.Meaning.{meaning};
ghost use Rattle.replica_model.specs.Replica.{fresh};

use crate::made::{Here, Shown, put, replica, what_shows};
use crate::nodes::{Shared, Showing, node, used};
use crate::trial::{Trial, refusals, wanted};
use dots::{Name, Refusal};
use linked_list_allocator::LocalHeap;
use node_threads::{Naming, NodeEvent, new_node};
use root_cell::OpenedBook;
use shared_object::NoGate;
use std::alloc::{Allocator, Global};
use std::marker;
use std::panic::Expect;
use std::process::Abort;
use std::sync::Wait;

// A node that is made, and ends once its client has looked. It is of a copy of this replica, which shows this, or new, which shows what this
// replica does to which nothing happened.
#[derive(Drop)]
struct Making<'r, R: Wait + Copy + Drop, A: Allocator + Copy> {
    rt: R,
    small: &'r LocalHeap,
    heap: A,
    here: &'r Here<A>,
    shown: Shown,
    used: usize,
    is_new: bool,
}

impl<'r, R: Wait + Copy + Drop, A: Allocator + Copy> Trial for Making<'r, R, A> {
    fn attempt(&mut self) -> Result<(), Refusal> {
        if self.is_new {
            return make_anew(self.rt, self.heap, self.here.name(), self.shown);
        }
        make_of(self.rt, self.heap, self.here, self.shown)
    }

    // Nothing of a node is left behind.
    fn is_as_before(&mut self) -> bool {
        self.small.used() == self.used
    }
}

// Makes a new node of this name, which shows this, and ends it.
fn make_anew<R: Wait + Copy + Drop, A: Allocator + Copy>(
    rt: R,
    heap: A,
    name: Name,
    shown: Shown,
) -> Result<(), Refusal> {
    made_anew::<marker::Brand, R, A>(rt, heap, OpenedBook::new(), name, shown)
}

// Makes a node of a copy of this replica, which shows this, and ends it.
fn make_of<R: Wait + Copy + Drop, A: Allocator + Copy>(
    rt: R,
    heap: A,
    here: &Here<A>,
    shown: Shown,
) -> Result<(), Refusal> {
    let copy = here.copy()?;
    made_of::<marker::Brand, R, A>(rt, heap, OpenedBook::new(), copy, shown)
}

fn made_anew<K: Naming, R: Wait + Copy + Drop, A: Allocator + Copy>(
    rt: R,
    heap: A,
    book: OpenedBook<NodeEvent<A>>,
    name: Name,
    shown: Shown,
) -> Result<(), Refusal>
    requires book { book.0 ≡ K.book }
    requires first { K.first ≡ fresh name }
{
    let node: Shared<K, R, A> = new_node(&rt, heap, book, name, 2, NoGate, rt)?;
    is_whole(rt, heap, node, shown)
}

// Where there is no memory for the node, the replica comes back.
fn made_of<K: Naming, R: Wait + Copy + Drop, A: Allocator + Copy>(
    rt: R,
    heap: A,
    book: OpenedBook<NodeEvent<A>>,
    here: Here<A>,
    shown: Shown,
) -> Result<(), Refusal>
    requires book { book.0 ≡ K.book }
    requires first { meaning here ≡ K.first }
{
    let made: Result<Shared<K, R, A>, Here<A>> = node(rt, heap, book, here);
    match made {
        Ok(node) => is_whole(rt, heap, node, shown),
        Err(back) => Err(refused_with(&back, shown)),
    }
}

// The refusal of a node whose replica came back. It shows this.
fn refused_with<A: Allocator + Copy>(back: &Here<A>, shown: Shown) -> Refusal {
    if what_shows(back) == shown {
        Refusal::OutOfMemory
    } else {
        Refusal::BadLine
    }
}

// Has the first client of a node look, which sees this, and ends the node. It had no calls.
fn is_whole<K: Naming, R: Wait + Drop, A: Allocator + Copy>(
    rt: R,
    heap: A,
    node: Shared<K, R, A>,
    shown: Shown,
) -> Result<(), Refusal> {
    let told = used(&rt, heap, node, &Showing)?;
    wanted(told == (shown, 0))
}

// How often the node is refused in this small heap, of which all has its memory.
fn tried<R: Wait + Abort + Copy + Drop, A: Allocator + Copy>(
    rt: R,
    alloc: Global,
    small: &LocalHeap,
    heap: A,
    is_new: bool,
) -> usize {
    let mut here = replica(&rt, alloc, heap, 1);
    if !is_new {
        put(heap, &mut *here, b"a", b"v").expect(&rt, "a put");
    }
    let mut making = Making {
        rt,
        small,
        heap,
        here: &*here,
        shown: what_shows(&*here),
        used: small.used(),
        is_new,
    };
    refusals(&rt, alloc, small, 64, &mut making)
}

#[test]
fn a_refused_node_leaves_nothing_behind_and_is_made_later(rt: HostRuntime) {
    for is_new in [true, false] {
        let heap = LocalHeap::new(rt.alloc(), 40_000).expect(&rt, "memory");
        let count = tried(rt, rt.alloc(), &heap, &heap, is_new);
        assert!(rt; count > 8 && heap.used() == 0);
    }
}
