// Writes that are made at once.
use crate::caller::{Caller, Keeping};
use crate::nodes::batched;
use crate::tests::only;
use node_threads::Written;
use replica_core::{Write, Wrote};
use std::alloc::Global;
use std::process::Abort;
use std::sync::Wait;

#[test]
fn four_writes_at_once_are_one_event(rt: HostRuntime) {
    let last = batched(rt, rt.alloc());
    assert!(rt; last == (1, 1, 2, 0));
}

// Writes at once, and sees one event then.
pub(crate) fn write_at_once<C: Caller + Keeping>(
    rt: &(impl Wait + Abort),
    alloc: Global,
    clients: &mut [C],
) {
    let client = only(rt, clients);
    let are_told = is_told(&client.write_at_once(rt, alloc));
    let has_last = client.has(rt, alloc, b"a", b"", Some(b"y"));
    let is_alone = client.has(rt, alloc, b"a", b"f", None);
    let events = client.events(rt);
    assert!(rt; are_told && has_last && is_alone && events == 1);
}

// Whether two puts made the first dots, and two removes observed one write and none.
fn is_told(written: &Written) -> bool {
    let is_whole = written.refusal.is_none();
    match written.wrote.as_slice() {
        [
            Wrote::Made(first),
            Wrote::Made(second),
            Wrote::Counted(1),
            Wrote::Counted(0),
        ] => { is_whole && (first.number(), second.number()) == (1, 2) }
        _ => false,
    }
}
