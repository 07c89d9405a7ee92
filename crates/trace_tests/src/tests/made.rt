// What the tests of replicas and worlds are made of.
use dots::{Key, Name, Value};
use hash_path::Fnv1a;
use replica_core::Replica;
use std::alloc::Global;
use std::panic::Expect;
use std::process::Abort;

// The name of this number, which is not 0.
pub(crate) fn name(rt: &impl Abort, number: u64) -> Name {
    Name::new(number).expect(rt, "a name")
}

// A replica of this name, which is not 0, to which nothing happened. It is in a box, as one that is a local is dear to prove.
pub(crate) fn replica(rt: &impl Abort, alloc: Global, number: u64) -> Box<Replica> {
    let one = Replica::new(alloc, name(rt, number), Fnv1a);
    Box::new(alloc, one).expect(rt, "memory")
}

pub(crate) fn key_of(rt: &impl Abort, alloc: Global, bytes: &[u8]) -> Key {
    Key::new(alloc, bytes).expect(rt, "a key")
}

pub(crate) fn value_of(rt: &impl Abort, alloc: Global, bytes: &[u8]) -> Value {
    Value::new(alloc, bytes).expect(rt, "a value")
}

// Puts the value on the key.
pub(crate) fn put(rt: &impl Abort, alloc: Global, here: &mut Replica, key: &[u8], value: &[u8]) {
    let key = key_of(rt, alloc, key);
    let value = value_of(rt, alloc, value);
    here.put(&key, &value).expect(rt, "a put");
}
