// A dot store from keys to stores that is kept as a trie: copies cost a few reference counts, and a join shares what it
// does not change.
// Offered to the crates above: it holds what a `DotMap` of the same stores holds, and is a dot store by the same laws.
#![tactic(auto, unfolding(crate::specs::Keyed::at_keys))]

mod copying;
mod draft;
mod join_in;
mod joining;
mod same;
mod trie_map;

pub use draft::Draft;
pub use trie_map::TrieMap;
