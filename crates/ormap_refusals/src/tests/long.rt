// A long key with many fields: what a replica keeps of it is memory, of which no clause speaks.
use crate::made::{Here, replica};
use dots::{Field, Key, Value};
use linked_list_allocator::LocalHeap;
use std::alloc::{Allocator, Global};
use std::panic::Expect;
use std::process::Abort;
use wire_form::encode;

fn put_at(rt: &impl Abort, alloc: Global, here: &mut Here<Global>, key: &Key, number: u64) {
    let field = Field::new(alloc, &number.to_be_bytes()).expect(rt, "memory");
    here.put_field(key, &field, &Value::empty())
        .expect(rt, "a put");
}

// The bytes of 200 fields of a key of 60,000 bytes.
fn long_delta(rt: &impl Abort, alloc: Global) -> Vec<u8> {
    let mut here = replica(rt, alloc, alloc, 1);
    let key = Key::new(alloc, &[b'k'; 60_000]).expect(rt, "memory");
    for number in 0..200u64 {
        put_at(rt, alloc, &mut *here, &key, number);
    }
    let sent = here.flush().expect(rt, "memory");
    let delta = sent.expect(rt, "a delta");
    encode(alloc, &delta).expect(rt, "memory")
}

// Whether a new replica in this heap takes the message in.
fn is_taken<A: Allocator + Copy>(rt: &impl Abort, alloc: Global, heap: A, bytes: &[u8]) -> bool {
    let mut here = replica(rt, alloc, heap, 2);
    here.deliver_bytes(bytes).is_ok()
}

// The key stands at 200 dots. With its bytes for each of them it would take 12 megabytes.
#[test]
fn a_long_key_costs_its_bytes_once(rt: HostRuntime) {
    let bytes = long_delta(&rt, rt.alloc());
    let heap = LocalHeap::new(rt.alloc(), 400_000).expect(&rt, "memory");
    let is_so = is_taken(&rt, rt.alloc(), &heap, &bytes);
    assert!(rt; is_so);
}
