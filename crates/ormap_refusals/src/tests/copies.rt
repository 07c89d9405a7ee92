// A copy of a replica. Its other calls are tried through the C library, by each of their requests for memory.
use crate::made::{Here, Shown, put_forty, replica, what_shows};
use crate::trial::{Trial, refusals, wanted};
use dots::Refusal;
use linked_list_allocator::LocalHeap;
use std::alloc::{Allocator, Global};
use std::panic::Expect;
use std::process::Abort;

// A copy of a replica that showed this before.
#[derive(Drop)]
struct Copying<'r, A: Allocator + Copy> {
    here: &'r mut Here<A>,
    before: Shown,
}

impl<'r, A: Allocator + Copy> Trial for Copying<'r, A> {
    fn attempt(&mut self) -> Result<(), Refusal> {
        let copy = self.here.copy()?;
        let is_like = what_shows(&copy) == self.before;
        drop(copy);
        wanted(is_like)
    }

    fn is_as_before(&mut self) -> bool {
        what_shows(self.here) == self.before
    }
}

// How often a copy of a replica of forty keys is refused in this small heap, of which the replica has its memory.
fn tried<A: Allocator + Copy>(rt: &impl Abort, alloc: Global, small: &LocalHeap, heap: A) -> usize {
    let mut boxed = replica(rt, alloc, heap, 1);
    let here = &mut *boxed;
    put_forty(rt, heap, here);
    let before = what_shows(here);
    let mut copying = Copying { here, before };
    refusals(rt, alloc, small, 8, &mut copying)
}

#[test]
fn a_refused_copy_changes_nothing_and_is_made_again(rt: HostRuntime) {
    let heap = LocalHeap::new(rt.alloc(), 60_000).expect(&rt, "memory");
    let count = tried(&rt, rt.alloc(), &heap, &heap);
    assert!(&rt; heap.used() == 0 && count >= 4);
}
