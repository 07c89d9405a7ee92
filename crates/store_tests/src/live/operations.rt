// The put with no field, which is the one operation on a live pair that no replica calls.
use crate::made::name;
use delta_ops::{LiveOrMap, put};
use dots::{Key, Value};
use hash_path::Fnv1a;
use live_map::Live;
use std::alloc::Global;
use std::process::Abort;

// A pair to which nothing happened. It is in a box, as one that is a local is dear to prove.
pub fn new_pair(rt: &impl Abort, alloc: Global) -> Box<LiveOrMap> {
    let live: LiveOrMap = Live::new(alloc, Fnv1a);
    Box::new(alloc, live).expect(rt, "memory")
}

// Whether a put is made at a new pair.
fn is_put(rt: &impl Abort, alloc: Global) -> bool {
    let live = new_pair(rt, alloc);
    let key = Key::empty();
    let value = Value::empty();
    let made = put(alloc, name(rt, 1), &*live, &key, &value);
    made.is_ok()
}

#[test]
fn a_put_is_made(rt: HostRuntime) {
    assert!(rt; is_put(&rt, rt.alloc()));
}
