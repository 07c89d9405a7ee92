// Many keys, beside std's BTreeMap as the plain program.
use crate::tries::made::{Kept, Trie, put, taken};
use gen_trie::GenTrie;
use hash_path::{Fnv1a, PathHash, SameHash};
use std::alloc::Global;
use std::collections::BTreeMap;
use std::process::Abort;

type Plain = BTreeMap<u64, u64, Global>;

// Puts one value into both.
fn put_both<H: PathHash>(
    rt: &impl Abort,
    alloc: Global,
    trie: &mut Trie<H>,
    plain: &mut Plain,
    number: u64,
    value: u64,
) {
    put(rt, alloc, trie, &number.to_be_bytes(), value);
    let put: Result<_, _> = plain.insert(number, value);
    put.expect(rt, "memory");
}

// Writes into both at a key: three times of four a value, else the key is taken out. Tells whether the two had the same
// where it was.
fn step<H: PathHash>(
    rt: &impl Abort,
    alloc: Global,
    trie: &mut Trie<H>,
    plain: &mut Plain,
    keys: u64,
    seed: u64,
) -> bool {
    let number = (seed >> 33) % keys.max(1);
    if (seed >> 20) % 4 == 0 {
        return taken(rt, alloc, trie, &number.to_be_bytes()) == plain.remove(&number);
    }
    put_both(rt, alloc, trie, plain, number, seed);
    true
}

// Writes so often into both, by a linear congruential generator, and tells whether the two had the same where keys were taken out.
fn run<H: PathHash>(
    rt: &impl Abort,
    alloc: Global,
    trie: &mut Trie<H>,
    plain: &mut Plain,
    keys: u64,
    from: u64,
    steps: u32,
) -> bool {
    let mut seed = from;
    let mut same = true;
    for _ in 0..steps {
        seed = seed
            .wrapping_mul(6_364_136_223_846_793_005)
            .wrapping_add(1_442_695_040_888_963_407);
        same = step(rt, alloc, trie, plain, keys, seed) && same;
    }
    same
}

// Whether the two have the same at each key, and no other keys.
fn agree<H: PathHash>(frozen: &Kept<H>, plain: &Plain, keys: u64) -> bool {
    let mut same = frozen.size() == plain.len() as u64;
    for number in 0..keys {
        let value = frozen.lookup_bytes(&number.to_be_bytes()).copied();
        same = value == plain.get(&number).copied() && same;
    }
    same
}

// Whether a freeze has what the plain map had then, once 2,000 writes are made beside it.
fn write_beside<H: PathHash>(
    rt: &impl Abort,
    alloc: Global,
    trie: &mut Trie<H>,
    plain: &mut Plain,
    keys: u64,
    from: u64,
) -> bool {
    let then = plain.clone().expect(rt, "memory");
    let frozen = trie.freeze().expect(rt, "memory");
    let same = run(rt, alloc, trie, plain, keys, from, 2000);
    agree(&frozen, &then, keys) && same
}

// 22,000 writes so, and whether all that is so.
fn write_all<H: PathHash>(
    rt: &impl Abort,
    alloc: Global,
    trie: &mut Trie<H>,
    plain: &mut Plain,
    keys: u64,
) -> bool {
    let mut same = true;
    for round in 1..12 {
        same = write_beside(rt, alloc, trie, plain, keys, round) && same;
    }
    same
}

// The same of an empty trie and an empty map.
fn writes_agree<H: PathHash>(rt: &impl Abort, alloc: Global, hash: H, keys: u64) -> bool {
    let mut plain = Plain::new(alloc);
    let mut trie = GenTrie::new(alloc, hash);
    write_all(rt, alloc, &mut trie, &mut plain, keys)
}

#[test]
fn random_writes_agree_with_a_plain_map(rt: HostRuntime) {
    assert!(rt; writes_agree(&rt, rt.alloc(), Fnv1a, 3000));
    assert!(rt; writes_agree(&rt, rt.alloc(), SameHash(0), 200));
}
