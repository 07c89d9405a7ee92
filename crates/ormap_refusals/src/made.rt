// Replicas in a heap, and what they show.
use dots::{Key, Name, Refusal, Value};
use hash_path::Fnv1a;
use replica_core::{Delivered, Replica};
use std::alloc::{Allocator, Global};
use std::panic::Expect;
use std::process::Abort;
use wire_form::Message;

// Generic in the allocator, as the borrow checker's part of a proof does not cover these types at a heap that is lent.
pub(crate) type Here<A> = Replica<Fnv1a, A>;

// The name of this number, which is not 0.
pub(crate) fn name(rt: &impl Abort, number: u64) -> Name {
    Name::new(number).expect(rt, "a name")
}

// A replica of this name, to which nothing happened. It is in a box, as one that is a local is dear to prove.
pub(crate) fn replica<A: Allocator + Copy>(
    rt: &impl Abort,
    alloc: Global,
    heap: A,
    number: u64,
) -> Box<Here<A>> {
    let one = Replica::new(heap, name(rt, number), Fnv1a);
    Box::new(alloc, one).expect(rt, "memory")
}

// Puts the value on the key, and gives the number of its dot.
pub(crate) fn put<A: Allocator + Copy>(
    heap: A,
    here: &mut Here<A>,
    key: &[u8],
    value: &[u8],
) -> Result<u64, Refusal> {
    let key = Key::new(heap, key)?;
    let value = Value::new(heap, value)?;
    let dot = here.put(&key, &value)?;
    Ok(dot.number())
}

// Puts values on 40 keys.
pub(crate) fn put_forty<A: Allocator + Copy>(rt: &impl Abort, heap: A, here: &mut Here<A>) {
    for number in 0..40u64 {
        put(heap, here, &number.to_be_bytes(), b"v").expect(rt, "a put");
    }
}

// The hello by which the one asks the other, of this name.
pub(crate) fn asked<A: Allocator + Copy>(
    rt: &impl Abort,
    alloc: Global,
    asker: &mut Here<A>,
    peer: u64,
) -> Box<Message<A>> {
    let hello = asker.ask(name(rt, peer)).expect(rt, "an ask").1;
    Box::new(alloc, hello).expect(rt, "memory")
}

// The delta of what was written.
pub(crate) fn flushed<A: Allocator + Copy>(
    rt: &impl Abort,
    alloc: Global,
    here: &mut Here<A>,
) -> Box<Message<A>> {
    let delta = here.flush().expect(rt, "a flush").expect(rt, "a delta");
    Box::new(alloc, delta).expect(rt, "memory")
}

// What a message comes to.
pub(crate) fn answered<A: Allocator + Copy>(
    rt: &impl Abort,
    here: &mut Here<A>,
    message: &Message<A>,
) -> Delivered<A> {
    here.deliver(message).expect(rt, "a delivery")
}

// The first reply.
pub(crate) fn first<'t, A: Allocator + Copy>(
    rt: &impl Abort,
    told: &'t Delivered<A>,
) -> &'t Message<A> {
    told.replies.first().expect(rt, "a reply")
}

// How the other opens for the hello.
pub(crate) fn opened<A: Allocator + Copy>(
    rt: &impl Abort,
    alloc: Global,
    here: &mut Here<A>,
    peer: &mut Here<A>,
    of: u64,
) -> Delivered<A> {
    let hello = asked(rt, alloc, here, of);
    answered(rt, peer, &*hello)
}

// The asks of the one for what the other, of this name, opened with.
pub(crate) fn asks<A: Allocator + Copy>(
    rt: &impl Abort,
    alloc: Global,
    here: &mut Here<A>,
    peer: &mut Here<A>,
    of: u64,
) -> Delivered<A> {
    let opening = opened(rt, alloc, here, peer, of);
    answered(rt, here, first(rt, &opening))
}

// The page of the root that it asks the other for, of the name 2.
pub(crate) fn paged<A: Allocator + Copy>(
    rt: &impl Abort,
    alloc: Global,
    here: &mut Here<A>,
    peer: &mut Here<A>,
) -> Delivered<A> {
    let asks = asks(rt, alloc, here, peer, 2);
    answered(rt, peer, first(rt, &asks))
}

// What a replica shows and knows: the digest of its map, the number of its keys, and how far it knows the replicas 1 and 2.
#[derive(Clone, Copy, PartialEq, Eq)]
pub(crate) struct Shown {
    digest: Option<[u8; 32]>,
    pub(crate) size: u64,
    pub(crate) one: u64,
    two: u64,
}

// How far it knows the replica of this name.
fn known<A: Allocator + Copy>(here: &Here<A>, number: u64) -> u64 {
    Name::new(number).map_or(0, |name| here.context().entry(name))
}

pub(crate) fn what_shows<A: Allocator + Copy>(here: &Here<A>) -> Shown {
    Shown {
        digest: here.digest(),
        size: here.size(),
        one: known(here, 1),
        two: known(here, 2),
    }
}
