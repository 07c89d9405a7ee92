// A cell in a small heap, which refuses what does not fit.
ghost use Rattle.std.specs.Prelude.{◌≡◌, ℕ, List, [], sum};

use super::{Seen, only, sees};
use dots::Refusal;
use linked_list_allocator::LocalHeap;
use root_cell::{Brand, Cell, Itself, OpenedBook, Writer};
use std::alloc::Global;
use std::marker;
use std::process::Abort;
use std::sync::Wait;

// Takes what is left of the heap, in pieces of 8 bytes.
fn fill<'a>(alloc: Global, heap: &'a LocalHeap) -> Vec<Vec<u8, &'a LocalHeap>> {
    let mut pieces = Vec::new(alloc);
    for _ in 0..100_000 {
        let Ok(piece) = Vec::from_slice(heap, b"8 bytes.") else {
            break;
        };
        if pieces.push(piece).is_err() {
            break;
        }
    }
    pieces
}

#[test]
fn a_publish_without_memory_leaves_the_cell_and_is_made_again(rt: HostRuntime) {
    let heap = LocalHeap::new(rt.alloc(), 20_000).expect(&rt, "memory");
    assert!(rt; publish_in::<marker::Brand, _>(&rt, rt.alloc(), &heap, OpenedBook::new()));
}

// Whether a publish at a cell of no events is made, and seen.
fn is_made<'a, J: Brand<u64, u64>, R: Wait + Abort>(
    rt: &R,
    writer: Writer<u64, u64, J, &'a LocalHeap>,
    view: Seen<J, &'a LocalHeap>,
) -> bool
    requires empty { writer ≡ [] }
    requires law { (root : ℕ) (events : List ℕ) → root ≡ sum events → J.stands root events }
{
    let (writer, answer) = writer.publish::<u64, Itself, R>(rt, 4, &4);
    let (_view, one) = sees(rt, view, 4, 1);
    writer.end(rt);
    answer.is_ok() & one
}

// Whether a publish in a heap that is full is refused, and is then made with room for the one root.
fn publish_in<'a, J: Brand<u64, u64>, R: Wait + Abort>(
    rt: &R,
    alloc: Global,
    heap: &'a LocalHeap,
    opened: OpenedBook<u64>,
) -> bool
    requires book { opened.0 ≡ J.book }
    requires law { (root : ℕ) (events : List ℕ) → root ≡ sum events → J.stands root events }
{
    let made = Cell::<u64, u64, J, &'a LocalHeap>::new(rt, heap, opened, 1, 0);
    let (writer, views, _title) = made.expect(rt, "memory");
    let view = only(rt, views);
    let mut pieces = fill(alloc, heap);
    let (writer, answer) = writer.publish::<u64, Itself, R>(rt, 4, &4);
    assert!(rt; answer == Err(Refusal::OutOfMemory));
    let (view, nothing) = sees(rt, view, 0, 0);
    // Room for the one root is all that the publish takes.
    pieces.pop();
    pieces.pop();
    is_made(rt, writer, view) & nothing
}

#[test]
fn a_cell_without_memory_is_refused_and_leaves_none_behind(rt: HostRuntime) {
    for size in 0..200 {
        let heap = LocalHeap::new(rt.alloc(), 16 * size).expect(&rt, "memory");
        let made = make_in::<marker::Brand, _>(&rt, &heap, OpenedBook::new());
        assert!(rt; heap.used() == 0);
        if made {
            assert!(rt; size > 20);
            return;
        }
    }
    panic!(rt; "a cell is small")
}

// Whether a cell with one View was made, and ended.
fn make_in<'a, J: Brand<u64, u64>, R: Wait + Abort>(
    rt: &R,
    heap: &'a LocalHeap,
    opened: OpenedBook<u64>,
) -> bool
    requires book { opened.0 ≡ J.book }
    requires law { (root : ℕ) (events : List ℕ) → root ≡ sum events → J.stands root events }
{
    match Cell::<u64, u64, J, &'a LocalHeap>::new(rt, heap, opened, 1, 0) {
        Ok((writer, _views, _title)) => {
            writer.end(rt);
            true
        }
        Err(refusal) => {
            assert!(rt; refusal == Refusal::OutOfMemory);
            false
        }
    }
}
