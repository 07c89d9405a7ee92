// Messages that come late: what a replica keeps of them is memory, of which no clause speaks.
use crate::made::{Here, put, replica};
use linked_list_allocator::LocalHeap;
use std::alloc::{Allocator, Global};
use std::panic::Expect;
use std::process::Abort;
use wire_form::encode;

// The bytes by which one more value goes out, which takes the place of the one before.
fn overwrite(rt: &impl Abort, alloc: Global, here: &mut Here<Global>) -> Vec<u8> {
    put(alloc, here, b"k", b"v").expect(rt, "a put");
    let sent = here.flush().expect(rt, "memory");
    let delta = sent.expect(rt, "a delta");
    encode(alloc, &delta).expect(rt, "memory")
}

// The same so often.
fn overwrites(rt: &impl Abort, alloc: Global, number: usize) -> Vec<Vec<u8>> {
    let mut here = replica(rt, alloc, alloc, 1);
    let mut messages = Vec::new(alloc);
    for _ in 0..number {
        let bytes = overwrite(rt, alloc, &mut *here);
        messages.push(bytes).expect(rt, "memory");
    }
    messages
}

fn deliver_all<A: Allocator + Copy>(rt: &impl Abort, here: &mut Here<A>, messages: &[Vec<u8>]) {
    for bytes in messages {
        here.deliver_bytes(bytes).expect(rt, "a delivery");
    }
}

// The memory of the heap that is in use once a new replica took these messages in.
fn kept_by<A: Allocator + Copy>(
    rt: &impl Abort,
    alloc: Global,
    small: &LocalHeap,
    heap: A,
    messages: &[Vec<u8>],
) -> usize {
    let mut here = replica(rt, alloc, heap, 2);
    deliver_all(rt, &mut *here, messages);
    small.used()
}

// The same in a heap of its own.
fn kept_in_a_heap(rt: &impl Abort, alloc: Global, messages: &[Vec<u8>]) -> usize {
    let heap = LocalHeap::new(alloc, 200_000).expect(rt, "memory");
    kept_by(rt, alloc, &heap, &heap, messages)
}

// Of 400 writes all but the newest come late, and then the dots of all are known. Each place that was left in the index would be 40 bytes.
#[test]
fn messages_that_come_late_leave_nothing_behind(rt: HostRuntime) {
    let alloc = rt.alloc();
    let mut messages = overwrites(&rt, alloc, 400);
    let in_order = kept_in_a_heap(&rt, alloc, &messages);
    messages.reverse();
    let late = kept_in_a_heap(&rt, alloc, &messages);
    assert!(rt; late.saturating_sub(in_order) < 1_000);
}
