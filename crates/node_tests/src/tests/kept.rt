// Snapshots that a client keeps while it writes.
use crate::called::shows;
use crate::caller::Caller;
use crate::nodes::{Calls, alone};
use crate::tests::only;
use node_threads::Root;
use std::alloc::Global;
use std::panic::Expect;
use std::process::Abort;
use std::sync::Wait;

#[test]
fn each_of_a_thousand_snapshots_stays(rt: HostRuntime) {
    let last = alone(rt, rt.alloc(), &Calls::Snapshots);
    assert!(rt; last == (1000, 1, 1000, 0));
}

// Puts a thousand values on one key, one after the other, and keeps a snapshot after each. Each shows its own value.
pub(crate) fn put_and_keep<C: Caller>(rt: &(impl Wait + Abort), alloc: Global, clients: &mut [C]) {
    let client = only(rt, clients);
    let mut kept = Vec::new(alloc);
    for number in 0..1000u64 {
        client.put(rt, alloc, b"a", b"", &number.to_be_bytes());
        kept.push(client.share(rt)).expect(rt, "memory");
    }
    each_shows(rt, alloc, &kept);
}

// The first snapshot shows 0, the next one 1, and so on.
fn each_shows(rt: &impl Abort, alloc: Global, kept: &[Root]) {
    assert!(rt; kept.len() == 1000);
    for (number, snapshot) in (0u64..).zip(kept) {
        assert!(rt; shows(rt, alloc, snapshot, b"a", &number.to_be_bytes()));
    }
}
