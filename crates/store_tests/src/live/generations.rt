// A trie that comes to the last generation, where the stamp stays.
use dots::Key;
use gen_trie::{Frozen, GenTrie, NoSummary};
use hash_path::Fnv1a;
use std::alloc::Global;
use std::process::Abort;

type Trie = GenTrie<u64, NoSummary, Fnv1a>;

type Kept = Frozen<u64, NoSummary, Fnv1a>;

// Puts the numbers up to 40 at their keys, with this much added to each.
fn put_forty(rt: &impl Abort, alloc: Global, trie: &mut Trie, more: u64) {
    for number in 0..40u64 {
        let key = Key::new(alloc, &number.to_be_bytes()).expect(rt, "memory");
        trie.insert(key, number.wrapping_add(more))
            .expect(rt, "memory");
    }
}

// Whether a frozen map has just these.
fn has_forty(kept: &Kept, more: u64) -> bool {
    let mut same = kept.size() == 40;
    for number in 0..40u64 {
        same = same && kept.lookup_bytes(&number.to_be_bytes()) == Some(&number.wrapping_add(more));
    }
    same
}

// Writes, and freezes what was written.
fn frozen(rt: &impl Abort, alloc: Global, trie: &mut Trie, more: u64) -> Kept {
    put_forty(rt, alloc, trie, more);
    trie.freeze().expect(rt, "memory")
}

// Takes a key away. Whether it was there.
fn is_taken(rt: &impl Abort, alloc: Global, trie: &mut Trie) -> bool {
    let key = Key::new(alloc, &7u64.to_be_bytes()).expect(rt, "memory");
    trie.remove(&key).expect(rt, "memory").is_some()
}

// Whether each of three frozen maps stays what it was while the trie, which has forty keys, is written.
fn stay(
    rt: &impl Abort,
    alloc: Global,
    trie: &mut Trie,
    first: &Kept,
    second: &Kept,
    third: &Kept,
) -> bool {
    let is_taken = is_taken(rt, alloc, trie);
    put_forty(rt, alloc, trie, 400);
    let stay = has_forty(first, 100) && has_forty(second, 200) && has_forty(third, 300);
    is_taken && stay && trie.size() == 40
}

// The same of freezes from one generation before the last on.
fn are_kept(rt: &impl Abort, alloc: Global, trie: &mut Trie) -> bool {
    let first = frozen(rt, alloc, trie, 100);
    let second = frozen(rt, alloc, trie, 200);
    let third = frozen(rt, alloc, trie, 300);
    stay(rt, alloc, trie, &first, &second, &third)
}

// The same of a new trie.
fn are_kept_anew(rt: &impl Abort, alloc: Global) -> bool {
    let mut trie = GenTrie::at_generation(alloc, Fnv1a, u64::MAX - 1);
    are_kept(rt, alloc, &mut trie)
}

#[test]
fn frozen_maps_stay_at_the_last_generation(rt: HostRuntime) {
    assert!(rt; are_kept_anew(&rt, rt.alloc()));
}
