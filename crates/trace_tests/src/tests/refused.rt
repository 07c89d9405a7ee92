// Runs that are refused memory: in a heap of no bytes, of 64, of 128, and so on, until the whole trace runs.
use crate::tests::rows::{
    BESIDE_A_CLEAR, BESIDE_A_CLEAR_TEXT, NINTH_SESSION, NINTH_SESSION_TEXT, PAGES_UNDER_ONE_INDEX,
    PAGES_UNDER_ONE_INDEX_TEXT,
};
use dots::Refusal;
use linked_list_allocator::LocalHeap;
use std::alloc::Global;
use std::process::Abort;
use trace_cli::{Watched, run};

// What a run in this heap ends with, and what it has written.
fn ran_in(alloc: Global, heap: &LocalHeap, trace: &str) -> (Result<(), Refusal>, Vec<u8>) {
    let mut reader = Watched::new(trace.as_bytes());
    let mut writer = Watched::new(Vec::new(alloc));
    let outcome = run(heap, &mut reader, &mut writer);
    (outcome, writer.into_inner())
}

// Whether a run in a heap of so many bytes gives the whole text. Where it is refused, that is OutOfMemory, after a front of the text. None
// where it is neither, or keeps memory.
fn comes_through(
    rt: &impl Abort,
    alloc: Global,
    size: usize,
    trace: &str,
    text: &str,
) -> Option<bool> {
    let heap = LocalHeap::new(alloc, size).expect(rt, "memory");
    let (outcome, written) = ran_in(alloc, &heap, trace);
    if heap.used() != 0 || !text.as_bytes().starts_with(written.as_slice()) {
        return None;
    }
    match outcome {
        Ok(()) => Some(true).filter(|_| written.as_slice() == text.as_bytes()),
        Err(Refusal::OutOfMemory) => Some(false),
        Err(_) => None,
    }
}

// How many heaps are too small. None where a run was not as it should be.
fn refusals(rt: &impl Abort, alloc: Global, trace: &str, text: &str) -> Option<usize> {
    for number in 0..10_000 {
        match comes_through(rt, alloc, 64 * number, trace, text) {
            Some(true) => return Some(number),
            Some(false) => {}
            None => return None,
        }
    }
    None
}

const TRACES: &[(&str, &str)] = &[
    (BESIDE_A_CLEAR, BESIDE_A_CLEAR_TEXT),
    (PAGES_UNDER_ONE_INDEX, PAGES_UNDER_ONE_INDEX_TEXT),
    (NINTH_SESSION, NINTH_SESSION_TEXT),
];

#[test]
fn a_run_without_memory_ends_after_a_front_of_its_text(rt: HostRuntime) {
    for (trace, text) in TRACES {
        let count = refusals(&rt, rt.alloc(), trace, text);
        assert!(rt; count > Some(10), "{trace}");
    }
}
