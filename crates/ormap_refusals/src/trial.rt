// A call that is given more memory, a little at a time, until it is made.
use dots::Refusal;
use linked_list_allocator::LocalHeap;
use std::alloc::Global;
use std::panic::Expect;
use std::process::Abort;

// More pieces than any call here takes.
const MOST: usize = 2_000;

// A call that may be refused.
pub(crate) trait Trial {
    // Makes the call. Ok where it answers what it should; where it answers something else, another refusal than OutOfMemory.
    fn attempt(&mut self) -> Result<(), Refusal>;

    // Whether all is as it was before the first call.
    fn is_as_before(&mut self) -> bool;
}

// What a call comes to that answered what it should, or did not.
pub(crate) fn wanted(is_wanted: bool) -> Result<(), Refusal> {
    if is_wanted {
        Ok(())
    } else {
        Err(Refusal::BadLine)
    }
}

type Pieces<'a> = Vec<Vec<u8, &'a LocalHeap>>;

// Takes pieces of so many bytes, at most so many of them, while the heap has any.
fn take<'a>(
    rt: &impl Abort,
    heap: &'a LocalHeap,
    pieces: &mut Pieces<'a>,
    size: usize,
    most: usize,
) {
    for _ in 0..most {
        let Ok(piece) = Vec::with_capacity(heap, size) else {
            return;
        };
        pieces.push(piece).expect(rt, "memory");
    }
}

// Free memory of a heap: so many pieces of so many bytes.
#[derive(Clone, Copy)]
struct Room {
    pieces: usize,
    bytes: usize,
}

// All of the heap but for this room.
fn all_but<'a>(rt: &impl Abort, alloc: Global, heap: &'a LocalHeap, room: Room) -> Pieces<'a> {
    let (mut left, mut taken) = (Vec::new(alloc), Vec::new(alloc));
    take(rt, heap, &mut left, room.bytes, room.pieces);
    for size in [4_096, 512, 64, 8] {
        take(rt, heap, &mut taken, size, MOST);
    }
    taken
}

// What the call comes to in a heap that is full but for this room.
fn attempt_in<T: Trial>(
    rt: &impl Abort,
    alloc: Global,
    heap: &LocalHeap,
    room: Room,
    trial: &mut T,
) -> Result<(), Refusal> {
    let _taken = all_but(rt, alloc, heap, room);
    trial.attempt()
}

// How often the call is refused for want of memory before it is made, and answers what it should: with no piece of so many bytes, with one, with
// two, and so on. A refused call changes nothing.
pub(crate) fn refusals<T: Trial>(
    rt: &impl Abort,
    alloc: Global,
    heap: &LocalHeap,
    bytes: usize,
    trial: &mut T,
) -> usize {
    for pieces in 0..MOST {
        let room = Room { pieces, bytes };
        let attempted = attempt_in(rt, alloc, heap, room, trial);
        if attempted.is_ok() {
            return pieces;
        }
        let is_as_before = trial.is_as_before();
        assert!(rt;
            attempted == Err(Refusal::OutOfMemory) && is_as_before,
            "{pieces} pieces"
        );
    }
    panic!(rt; "it is never made")
}

// Whether something was refused as often as it should: at least so often, or with None not at all.
pub(crate) fn is_as_often(count: usize, least: Option<usize>) -> bool {
    match least {
        Some(least) => count >= least,
        None => count == 0,
    }
}

// Whether it is found.
pub(crate) fn is_there<X: Drop>(found: Result<Option<X>, Refusal>) -> Result<(), Refusal> {
    let found = found?;
    wanted(found.is_some())
}
