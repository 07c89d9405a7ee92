// Tries of numbers, their frozen maps, and their keys.
use dots::{Key, Text};
use gen_trie::{Frozen, GenTrie, NoSummary};
use hash_path::PathHash;
use std::alloc::Global;
use std::process::Abort;

pub type Trie<H> = GenTrie<u64, NoSummary, H>;

pub type Kept<H> = Frozen<u64, NoSummary, H>;

// The first byte of a text that is not empty.
pub fn first_of<K>(text: &Text<K>) -> u64 {
    match text.bytes() {
        [first, ..] => u64::from(*first),
        [] => 0,
    }
}

// Puts a value at the key of these bytes.
pub fn put<H: PathHash>(
    rt: &impl Abort,
    alloc: Global,
    trie: &mut Trie<H>,
    key: &[u8],
    value: u64,
) {
    let key = Key::new(alloc, key).expect(rt, "memory");
    trie.insert(key, value).expect(rt, "memory");
}

// Takes the key of these bytes out.
pub fn taken<H: PathHash>(
    rt: &impl Abort,
    alloc: Global,
    trie: &mut Trie<H>,
    key: &[u8],
) -> Option<u64> {
    let key = Key::new(alloc, key).expect(rt, "memory");
    match trie.remove(&key).expect(rt, "memory") {
        None => None,
        Some(entry) => Some(*entry.value()),
    }
}

// The bytes of the key of a number: those of a multiple of it, the most significant first.
pub fn bytes_of(number: u64) -> [u8; 8] {
    number.wrapping_mul(0x9e37_79b9_7f4a_7c15).to_be_bytes()
}

// Puts each number below this one at its key.
pub fn put_all<H: PathHash>(rt: &impl Abort, alloc: Global, trie: &mut Trie<H>, count: u64) {
    for number in 0..count {
        put(rt, alloc, trie, &bytes_of(number), number);
    }
}
