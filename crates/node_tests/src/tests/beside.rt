// Clients beside each other, each in a thread of its own.
use crate::called::{put_noted, shows};
use crate::caller::Caller;
use crate::nodes::{BesideCalls, beside};
use crate::tests::both;
use node_threads::{Client, Lock, Naming};
use shared_object::{Gate, Point};
use std::alloc::Global;
use std::panic::Expect;
use std::process::Abort;
use std::sync::atomic::AtomicU64;
use std::sync::atomic::Ordering::SeqCst;
use std::sync::{Arc, Wait};
use std::thread::Threads;
use std::{mem, thread};

// Holds a call that has the lock, once it is armed, until it is let go, for at most so many turns.
const TURNS: u64 = 1_000_000;

// 0: inactive; 1: armed; 2: a call has come to the lock; 3: it holds the lock, and is held; 4: it was let go.
#[derive(Drop)]
pub(crate) struct Holding {
    state: Arc<AtomicU64, Global>,
}

impl Gate for Holding {
    fn pass(&self, at: Point) {
        match (at, self.state.load(SeqCst)) {
            (Point::Before, 1) => self.state.store(2, SeqCst),
            (Point::Locked, 2) => self.hold(),
            _ => {}
        }
    }
}

impl Holding {
    fn hold(&self) {
        self.state.store(3, SeqCst);
        for _ in 0..TURNS {
            if self.state.load(SeqCst) == 4 {
                return;
            }
            thread::yield_now();
        }
    }
}

#[test]
fn a_reader_goes_on_while_a_writer_is_held(rt: HostRuntime) {
    let alloc = rt.alloc();
    let state = Arc::new(alloc, AtomicU64::new(0)).expect(&rt, "memory");
    let gate = gate_of(&rt, &state);
    let last = beside(rt, alloc, gate, BesideCalls::Reading(&state));
    assert!(rt; last == (2, 1, 2, 0));
}

// The gate that this sets.
pub(crate) fn gate_of(rt: &impl Abort, state: &Arc<AtomicU64, Global>) -> Holding {
    Holding {
        state: Arc::try_clone(state).expect(rt, "a count"),
    }
}

// Writes twice, the second time held while the other client reads. Each read shows what it should.
pub(crate) fn write_while_read<
    K: Naming + Send + Sync,
    R: Threads + Wait + Abort + Copy + Drop + Send + Sync,
>(rt: &R, alloc: Global, clients: &mut [Client<K, Lock<K, Holding, R>>], state: &AtomicU64) {
    let (writer, reader) = both(rt, clients);
    let (first, receipt) = put_noted(rt, alloc, writer, b"a", b"", b"x");
    reader.learn(receipt);
    let has_old = reader.has(rt, alloc, b"a", b"", Some(b"x"));
    state.store(1, SeqCst);
    let (put_later, is_seen) = thread::join(
        rt,
        || put_noted(rt, alloc, writer, b"a", b"", b"y"),
        || is_read_while_held(rt, alloc, state, reader),
    );
    let (second, receipt) = put_later;
    let has_new = reader.has(rt, alloc, b"a", b"", Some(b"y"));
    reader.learn(receipt);
    let has_learnt = reader.has(rt, alloc, b"a", b"", Some(b"y"));
    let counts = (writer.operations(), reader.operations());
    let are_seen = has_old && is_seen && has_new && has_learnt;
    assert!(rt; are_seen && (first, second) == (1, 2) && counts == (2, 0));
}

// Waits until a call is held, reads, and lets it go. Whether what was read was from before the call.
fn is_read_while_held<C: Caller>(
    rt: &impl Abort,
    alloc: Global,
    state: &AtomicU64,
    reader: &mut C,
) -> bool {
    for _ in 0..TURNS {
        if state.load(SeqCst) == 3 {
            break;
        }
        thread::yield_now();
    }
    let is_held = state.load(SeqCst) == 3;
    let is_old = is_old(rt, alloc, reader);
    let is_still_held = state.load(SeqCst) == 3;
    state.store(4, SeqCst);
    is_held && is_old && is_still_held
}

// Whether a client reads what was written first, and a snapshot shows it.
fn is_old<C: Caller>(rt: &impl Abort, alloc: Global, reader: &mut C) -> bool {
    let is_had = reader.has(rt, alloc, b"a", b"", Some(b"x"));
    let is_one = reader.size(rt) == 1;
    let is_there = reader.contains(rt, alloc, b"a");
    let is_shown = is_shown(rt, alloc, reader);
    is_had && is_one && is_there && is_shown
}

fn is_shown<C: Caller>(rt: &impl Abort, alloc: Global, reader: &mut C) -> bool {
    let snapshot = reader.share(rt);
    shows(rt, alloc, &snapshot, b"a", b"x")
}

#[test]
fn two_writers_of_a_thousand_calls_each(rt: HostRuntime) {
    let alloc = rt.alloc();
    let state = Arc::new(alloc, AtomicU64::new(0)).expect(&rt, "memory");
    let gate = gate_of(&rt, &state);
    let last = beside(rt, alloc, gate, BesideCalls::Writing);
    assert!(rt; last == (2000, 2, 2000, 0));
}

// Both put a thousand times, each in a thread of its own. They are left in the other order.
pub(crate) fn both_put_often<C: Caller + Send, R: Threads + Wait + Abort + Sync>(
    rt: &R,
    alloc: Global,
    clients: &mut [C],
) {
    let (first, second) = both(rt, clients);
    let (one, two) = thread::join(
        rt,
        || put_often(rt, alloc, first, b"a"),
        || put_often(rt, alloc, second, b"b"),
    );
    let counts = (first.operations(), second.operations());
    let keys = first.size(rt);
    assert!(rt; one.max(two) == 2000 && counts == (1000, 1000) && keys == 2);
    mem::swap(first, second);
}

// The number of the last dot that is put.
fn put_often<C: Caller>(
    rt: &(impl Wait + Abort),
    alloc: Global,
    client: &mut C,
    key: &[u8],
) -> u64 {
    let mut last = 0;
    for _ in 0..1000 {
        last = client.put(rt, alloc, key, b"", b"x");
    }
    last
}
