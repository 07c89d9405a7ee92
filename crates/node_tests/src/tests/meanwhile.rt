// A synchronisation that stays open while other clients of its node write.
use crate::caller::Caller;
use crate::nodes::{SharedCalls, at_two_nodes};
use crate::tests::{both, only};
use replica_core::{Delivered, Outcome};
use std::alloc::Global;
use std::panic::Expect;
use std::process::Abort;
use std::sync::Wait;
use std::thread;
use std::thread::Threads;

#[test]
fn a_synchronisation_stays_open_while_others_write(rt: HostRuntime) {
    let (last, peer_last) = at_two_nodes(rt, rt.alloc(), 3, 1, &SharedCalls::Synchronisation);
    assert!(rt; last == (203, 201, 200, 1));
    assert!(rt; peer_last == (3, 1, 0, 1));
}

// The synchronisation ends after the others wrote a hundred keys each, and the node then holds all of it.
pub(crate) fn synchronise<C: Caller + Send, D: Caller, R: Threads + Wait + Abort + Sync>(
    rt: &R,
    alloc: Global,
    clients: &mut [C],
    peers: &mut [D],
) {
    let (asker, others) = clients.split_first_mut().expect(rt, "a client");
    let answerer = only(rt, peers);
    answerer.put(rt, alloc, b"p", b"", b"q");
    let opening = opened(rt, alloc, asker, answerer);
    both_put_keys(rt, alloc, others);
    end(rt, alloc, asker, answerer, &opening);
    let is_there = asker.has(rt, alloc, b"p", b"", Some(b"q"));
    let keys = asker.size(rt);
    assert!(rt; is_there && keys == 201);
}

// Both put a hundred keys, b0 to b99 and c0 to c99, each in a thread of its own.
fn both_put_keys<C: Caller + Send, R: Threads + Wait + Abort + Sync>(
    rt: &R,
    alloc: Global,
    others: &mut [C],
) {
    let (left, right) = both(rt, others);
    let (one, two) = thread::join(
        rt,
        || put_keys(rt, alloc, left, b'b'),
        || put_keys(rt, alloc, right, b'c'),
    );
    assert!(rt; one.max(two) == 200);
}

// The number of the last dot that is put.
fn put_keys<C: Caller>(rt: &(impl Wait + Abort), alloc: Global, client: &mut C, letter: u8) -> u64 {
    let mut last = 0;
    for number in 0..100u8 {
        let (one, two) = (
            [letter, b'0' + number],
            [letter, b'0' + number / 10, b'0' + number % 10],
        );
        let name: &[u8] = if number < 10 { &one } else { &two };
        last = client.put(rt, alloc, name, b"", b"x");
    }
    last
}

// Has the one node ask the other, and gives what that one opens with.
fn opened<C: Caller, D: Caller>(
    rt: &(impl Wait + Abort),
    alloc: Global,
    asker: &mut C,
    answerer: &mut D,
) -> Delivered {
    let hello = asker.ask(rt, alloc, 2).1;
    answerer.deliver(rt, alloc, &hello)
}

// Goes on from what the other node opened with: the page of its root ends it.
fn end<C: Caller, D: Caller>(
    rt: &(impl Wait + Abort),
    alloc: Global,
    asker: &mut C,
    answerer: &mut D,
    opening: &Delivered,
) {
    let asks = answered(rt, alloc, asker, opening);
    let page = answered(rt, alloc, answerer, &asks);
    let last = answered(rt, alloc, asker, &page);
    assert!(rt; last.outcome == Outcome::Done);
}

// Gives a node the first message that another one sends.
fn answered<C: Caller>(
    rt: &(impl Wait + Abort),
    alloc: Global,
    client: &mut C,
    sent: &Delivered,
) -> Delivered {
    let message = sent.replies.first().expect(rt, "a reply");
    client.deliver(rt, alloc, message)
}
