// A node whose replica is saved, and comes back.
use crate::caller::{Caller, Keeping};
use crate::nodes::resumed;
use crate::tests::only;
use saved_form::Saved;
use std::alloc::Global;
use std::process::Abort;
use std::sync::Wait;

#[test]
fn a_node_is_saved_and_comes_back(rt: HostRuntime) {
    let last = resumed(rt, rt.alloc());
    assert!(rt; last == (0, 2, 2, 0));
}

// Puts a and b, saves, and puts a once more, which is no part of what was saved.
pub(crate) fn put_and_save<C: Caller + Keeping>(
    rt: &(impl Wait + Abort),
    alloc: Global,
    clients: &mut [C],
) -> Saved {
    let client = only(rt, clients);
    client.put(rt, alloc, b"a", b"", b"x");
    client.put(rt, alloc, b"b", b"", b"y");
    let saved = client.saved(rt, alloc);
    client.put(rt, alloc, b"a", b"", b"z");
    saved
}
