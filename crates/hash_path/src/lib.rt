// Hash paths: the way of a key through a trie of 32 children a branch, and what such a trie means as a finite map.
// Offered to the crates above: a path hash is a function of the key's bytes, an index is five bits of it, and the
// definitions and lemmas of entries by path, which speak of no program type.
#![tactic(auto)]

mod fnv1a;
mod path_hash;
mod prefix;
mod same_hash;

pub use fnv1a::Fnv1a;
pub use path_hash::PathHash;
pub use prefix::{DEPTHS, Prefix, index_at};
pub use same_hash::SameHash;
