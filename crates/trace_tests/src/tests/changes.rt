// The keys of one hash at which two snapshots differ, where no node has its digest, and where all have.
use crate::tests::made::{key_of, name, value_of};
use dots::Key;
use gen_trie::Frozen;
use hash_path::SameHash;
use map_changes::changes;
use prefix_digest::FrozenMap;
use replica_core::Replica;
use std::alloc::Global;
use std::panic::Expect;
use std::process::Abort;

// The map as it is, whose nodes have their digests.
fn map_of(rt: &impl Abort, here: &mut Replica<SameHash>) -> FrozenMap<SameHash> {
    here.seal().expect(rt, "memory");
    here.snapshot().expect(rt, "memory")
}

// Whether these are the keys, in this order.
fn are(found: &[Key], keys: &[&[u8]]) -> bool {
    if found.len() != keys.len() {
        return false;
    }
    for (one, other) in found.iter().zip(keys.iter()) {
        if one.bytes() != *other {
            return false;
        }
    }
    true
}

// A replica whose keys all have one hash. It is in a box, as one that is a local is dear to prove.
fn replica(rt: &impl Abort, alloc: Global) -> Box<Replica<SameHash>> {
    let one = Replica::new(alloc, name(rt, 1), SameHash(5));
    Box::new(alloc, one).expect(rt, "memory")
}

fn put(rt: &impl Abort, alloc: Global, here: &mut Replica<SameHash>, number: u8, value: &[u8]) {
    let key = key_of(rt, alloc, &[number]);
    here.put(&key, &value_of(rt, alloc, value))
        .expect(rt, "a put");
}

fn fill(rt: &impl Abort, alloc: Global, here: &mut Replica<SameHash>) {
    for number in 0..40u8 {
        put(rt, alloc, here, number, b"v");
    }
}

// Whether the two differ at just the keys 3 and 9.
fn differ_at_3_and_9(
    rt: &impl Abort,
    alloc: Global,
    before: &FrozenMap<SameHash>,
    after: &FrozenMap<SameHash>,
) -> bool {
    let found = changes(alloc, before, after).expect(rt, "memory");
    are(&found, &[&[3], &[9]])
}

// At how many keys the map differs from one that has none.
fn count_of(rt: &impl Abort, alloc: Global, map: &FrozenMap<SameHash>) -> usize {
    let none = Frozen::new(alloc, SameHash(5));
    let found = changes(alloc, &none, map).expect(rt, "memory");
    found.len()
}

#[test]
fn keys_of_one_hash_change_by_themselves(rt: HostRuntime) {
    let alloc = rt.alloc();
    let mut here = replica(&rt, alloc);
    fill(&rt, alloc, &mut *here);
    let before = here.snapshot().expect(&rt, "memory");
    let key = key_of(&rt, alloc, &[3]);
    here.remove(&key).expect(&rt, "a remove");
    put(&rt, alloc, &mut *here, 9, b"w");
    let after = here.snapshot().expect(&rt, "memory");
    let sealed = map_of(&rt, &mut *here);
    assert!(&rt; differ_at_3_and_9(&rt, alloc, &before, &after));
    assert!(&rt; differ_at_3_and_9(&rt, alloc, &before, &sealed));
    assert!(&rt; count_of(&rt, alloc, &before) == 40);
}
