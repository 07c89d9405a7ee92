// The calls of one client: twelve, with two flushes and an own synchronisation, and three of fields.
use crate::caller::{Caller, Calling};
use crate::nodes::{Calls, alone};
use crate::tests::only;
use replica_core::{Delivered, Outcome};
use std::alloc::Global;
use std::panic::Expect;
use std::process::Abort;
use std::sync::Wait;
use wire_form::{Message, encode};

// The bytes of the delta of nothing that knows the dots 1:1 and 1:2.
const BARE: &[u8] = &[
    1, 1, 0, 0, 0, 0, 0, 0, 0, 1, 0, 0, 0, 0, 0, 0, 0, 1, 0, 0, 0, 0, 0, 0, 0, 2, 0, 0, 0, 0, 0, 0,
    0, 0, 0, 0, 0, 0, 0, 0, 0, 0,
];

#[test]
fn twelve_calls_of_one_client_are_twelve_events(rt: HostRuntime) {
    let last = alone(rt, rt.alloc(), &Calls::Twelve);
    assert!(rt; last == (12, 0, 2, 0));
}

#[test]
fn three_calls_of_fields_are_three_events(rt: HostRuntime) {
    let last = alone(rt, rt.alloc(), &Calls::Fields);
    assert!(rt; last == (3, 1, 2, 0));
}

pub(crate) fn call_twelve_times<C: Caller + Calling>(
    rt: &(impl Wait + Abort),
    alloc: Global,
    clients: &mut [C],
) {
    let client = only(rt, clients);
    write(rt, alloc, client);
    let is_taken = is_flushed_and_taken(rt, alloc, client);
    ask_and_abandon(rt, alloc, client);
    let keys = client.size(rt);
    assert!(rt; is_taken && keys == 0 && client.operations() == 12);
}

// Puts a key, and removes it twice; a remove that finds nothing is a call too. Then puts another key, and clears.
fn write<C: Caller + Calling>(rt: &(impl Wait + Abort), alloc: Global, client: &mut C) {
    let number = client.put(rt, alloc, b"a", b"", b"x");
    let observed = client.remove(rt, alloc, b"a");
    let nothing = client.remove(rt, alloc, b"a");
    let next = client.put(rt, alloc, b"b", b"", b"y");
    let cleared = client.clear(rt, alloc);
    assert!(rt; (number, observed, nothing, next, cleared) == (1, 1, 0, 2, 1));
}

// Flushes twice, and takes in what the first gave. Whether there is just that one message, of nothing but what is known, and it is joined.
fn is_flushed_and_taken<C: Caller + Calling>(
    rt: &(impl Wait + Abort),
    alloc: Global,
    client: &mut C,
) -> bool {
    let message = client.flush(rt, alloc).expect(rt, "a message");
    takes_bare(rt, alloc, client, &message)
}

// Whether nothing else is to be sent, and this is the delta of nothing, which knows the first two dots of replica 1, and is joined.
fn takes_bare<C: Caller + Calling>(
    rt: &(impl Wait + Abort),
    alloc: Global,
    client: &mut C,
    message: &Message,
) -> bool {
    let is_last = has_sent_all(rt, alloc, client);
    let is_joined = is_joined(rt, alloc, client, message);
    is_last && is_joined && is_bare(rt, alloc, message)
}

fn has_sent_all<C: Caller + Calling>(
    rt: &(impl Wait + Abort),
    alloc: Global,
    client: &mut C,
) -> bool {
    client.flush(rt, alloc).is_none()
}

fn is_joined<C: Caller + Calling>(
    rt: &(impl Wait + Abort),
    alloc: Global,
    client: &mut C,
    message: &Message,
) -> bool {
    client.deliver(rt, alloc, message).outcome == Outcome::Joined
}

fn is_bare(rt: &impl Abort, alloc: Global, message: &Message) -> bool {
    let bytes = encode(alloc, message).expect(rt, "memory");
    bytes.as_slice() == BARE
}

// Asks a peer, asks again, and gives it up twice; an abandon of nothing is a call too.
fn ask_and_abandon<C: Caller + Calling>(rt: &(impl Wait + Abort), alloc: Global, client: &mut C) {
    let number = asked(rt, alloc, client);
    let is_again = is_asked_again(rt, alloc, client, number);
    let was_open = client.abandon(rt, alloc, number);
    let is_open = client.abandon(rt, alloc, number);
    assert!(rt; number == 1 && is_again && was_open && !is_open);
}

// The number of the synchronisation that an ask opens.
fn asked<C: Caller + Calling>(rt: &(impl Wait + Abort), alloc: Global, client: &mut C) -> u64 {
    client.ask(rt, alloc, 2).0
}

// Whether a retry sends one message.
fn is_asked_again<C: Caller + Calling>(
    rt: &(impl Wait + Abort),
    alloc: Global,
    client: &mut C,
    number: u64,
) -> bool {
    is_one_message(&client.retry(rt, alloc, number))
}

fn is_one_message(told: &Delivered) -> bool {
    told.outcome == Outcome::Sent && told.replies.len() == 1
}

// Puts two fields of a key, on a node that did nothing else, and takes one away.
pub(crate) fn write_fields<C: Caller + Calling>(
    rt: &(impl Wait + Abort),
    alloc: Global,
    clients: &mut [C],
) {
    let client = only(rt, clients);
    let first = client.put(rt, alloc, b"a", b"f", b"x");
    let has_first = client.has(rt, alloc, b"a", b"f", Some(b"x"));
    let second = client.put(rt, alloc, b"a", b"", b"y");
    let both = client.has_fields(rt, alloc, b"a", &[b"", b"f"]);
    let observed = client.remove_field(rt, alloc, b"a", b"f");
    let one = client.has_fields(rt, alloc, b"a", &[b""]);
    assert!(rt; has_first && both && one && (first, second, observed) == (1, 2, 1));
}
