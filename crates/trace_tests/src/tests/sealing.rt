// Digests that the nodes of a replica's map keep: from a synchronisation on, and until the next write.
use crate::tests::made::{name, put, replica};
use replica_core::{Outcome, Replica};
use std::alloc::Global;
use std::panic::Expect;
use std::process::Abort;

// Whether each node of its map keeps its digest.
fn is_sealed(rt: &impl Abort, here: &Replica) -> bool {
    here.snapshot().expect(rt, "memory").is_sealed()
}

// Puts values on two keys. Whether the node above them keeps no digest then.
fn is_written(rt: &impl Abort, alloc: Global, here: &mut Replica) -> bool {
    put(rt, alloc, here, b"a", b"x");
    put(rt, alloc, here, b"b", b"y");
    !is_sealed(rt, here)
}

// What comes of the hello by which the asker asks the answerer, of the name 2.
fn hello(rt: &impl Abort, asker: &mut Replica, answerer: &mut Replica) -> Outcome {
    let (_, hello) = asker.ask(name(rt, 2)).expect(rt, "an ask");
    answerer.deliver(&hello).expect(rt, "a delivery").outcome
}

// Whether both lose their digests by writes, and keep them again once the answerer, of the name 2, answered the asker.
fn keep_digests(
    rt: &impl Abort,
    alloc: Global,
    asker: &mut Replica,
    answerer: &mut Replica,
) -> bool {
    let first = is_written(rt, alloc, asker);
    let second = is_written(rt, alloc, answerer);
    let is_answered = hello(rt, asker, answerer) == Outcome::Sent;
    let asker_keeps = is_sealed(rt, asker);
    let answerer_keeps = is_sealed(rt, answerer);
    first && second && is_answered && asker_keeps && answerer_keeps
}

#[test]
fn who_asks_and_who_answers_keep_their_digests(rt: HostRuntime) {
    let mut asker = replica(&rt, rt.alloc(), 1);
    let mut answerer = replica(&rt, rt.alloc(), 2);
    let are_kept = keep_digests(&rt, rt.alloc(), &mut *asker, &mut *answerer);
    assert!(rt; are_kept);
}
