// A copy of a replica in the middle of a synchronisation goes on by itself.
use crate::tests::made::{name, put, replica};
use replica_core::{Outcome, Replica};
use std::alloc::Global;
use std::panic::Expect;
use std::process::Abort;

// A copy of the replica, in a box, as one that is a local is dear to prove.
fn copied(rt: &impl Abort, alloc: Global, here: &Replica) -> Box<Replica> {
    let copy = here.copy().expect(rt, "memory");
    Box::new(alloc, copy).expect(rt, "memory")
}

// What the replica answers to these bytes.
fn answered(rt: &impl Abort, here: &mut Replica, bytes: &[u8]) -> Vec<u8> {
    let mut taken = here.take_bytes(bytes).expect(rt, "a message");
    taken.letters.pop().expect(rt, "an answer").bytes
}

// Asks the peer, and gives the ask for the root's page.
fn asked(rt: &impl Abort, here: &mut Replica, peer: &mut Replica) -> Vec<u8> {
    let hello = here.ask_bytes(name(rt, 2)).expect(rt, "an ask").1;
    let opening = answered(rt, peer, &hello.bytes);
    answered(rt, here, &opening)
}

// Whether this ask brings what the peer has, which is one more key.
fn ends(rt: &impl Abort, here: &mut Replica, peer: &mut Replica, ask: &[u8]) -> bool {
    let page = answered(rt, peer, ask);
    let taken = here.take_bytes(&page).expect(rt, "a message");
    let is_done = taken.outcome == Outcome::Done;
    let is_there = here.size() == 2;
    is_done && is_there
}

#[test]
fn copies_go_on_in_the_middle_of_a_synchronisation(rt: HostRuntime) {
    let alloc = rt.alloc();
    let (mut here, mut peer) = (replica(&rt, alloc, 1), replica(&rt, alloc, 2));
    put(&rt, alloc, &mut *here, b"a", b"x");
    put(&rt, alloc, &mut *peer, b"b", b"w");
    let ask = asked(&rt, &mut *here, &mut *peer);
    let (mut copy, mut peer_copy) = (copied(&rt, alloc, &*here), copied(&rt, alloc, &*peer));
    put(&rt, alloc, &mut *peer, b"late", b"1");
    let copies_end = ends(&rt, &mut *copy, &mut *peer_copy, &ask);
    let is_alone = here.size() == 1;
    let is_ended = ends(&rt, &mut *here, &mut *peer, &ask);
    assert!(rt; copies_end && is_alone && is_ended);
}
