// A look that takes long, beside calls that write.
use crate::caller::Caller;
use crate::nodes::{BesideCalls, beside};
use crate::tests::beside::gate_of;
use crate::tests::both;
use node_threads::Root;
use shared_object::Look;
use std::alloc::Global;
use std::panic::Expect;
use std::process::Abort;
use std::sync::atomic::AtomicU64;
use std::sync::atomic::Ordering::SeqCst;
use std::sync::{Arc, Wait};
use std::thread;
use std::thread::Threads;

// For at most so many turns one waits for the other.
const TURNS: u64 = 1_000_000;

// A look that ends once the number is 2, and makes it 1 before.
#[derive(Drop)]
pub(crate) struct Slow<'a> {
    pub(crate) state: &'a AtomicU64,
}

impl<'a> Look<Root> for Slow<'a> {
    type Found = bool;

    ghost finds = { λ look root found. Unit {0} };

    fn look(&self, _root: &Root) -> bool {
        self.state.store(1, SeqCst);
        is_waited_for(self.state, 2)
    }
}

// Waits until it is this number, for a while. Whether it came to be.
fn is_waited_for(state: &AtomicU64, number: u64) -> bool {
    for _ in 0..TURNS {
        if state.load(SeqCst) == number {
            return true;
        }
        thread::yield_now();
    }
    false
}

#[test]
fn a_slow_look_holds_nobody_up(rt: HostRuntime) {
    let alloc = rt.alloc();
    let inactive = Arc::new(alloc, AtomicU64::new(0)).expect(&rt, "memory");
    let gate = gate_of(&rt, &inactive);
    let state = AtomicU64::new(0);
    let last = beside(rt, alloc, gate, BesideCalls::Looking(&state));
    assert!(rt; last == (3, 1, 3, 0));
}

// One client looks until the other has put three times.
pub(crate) fn put_while_looked<C: Caller + Send, R: Threads + Wait + Abort + Sync>(
    rt: &R,
    alloc: Global,
    clients: &mut [C],
    state: &AtomicU64,
) {
    let (writer, reader) = both(rt, clients);
    let (events, is_seen) = thread::join(
        rt,
        || put_thrice(rt, alloc, writer, state),
        || reader.look_slowly(rt, state),
    );
    assert!(rt; is_seen && events == 3);
}

// Puts three times once the other one looks, and then ends its look. How many events it sees.
fn put_thrice<C: Caller>(
    rt: &(impl Wait + Abort),
    alloc: Global,
    client: &mut C,
    state: &AtomicU64,
) -> u64 {
    let is_looked_at = is_waited_for(state, 1);
    assert!(rt; is_looked_at);
    for _ in 0..3 {
        client.put(rt, alloc, b"a", b"", b"x");
    }
    state.store(2, SeqCst);
    client.events(rt)
}
