use causal_join::Fields;
use gen_trie::NoSummary;
use hash_path::Fnv1a;
use live_map::Live;
use std::alloc::Global;
use trie_map::TrieMap;

/// The store of the observed-remove map, kept as a trie: what stands at each key.
pub type LiveStore<M = NoSummary, H = Fnv1a, A = Global> = TrieMap<Fields<A>, M, H, A>;

/// The live pair of the observed-remove map: what a replica holds.
pub type LiveOrMap<M = NoSummary, H = Fnv1a, A = Global> = Live<Fields<A>, M, H, A>;
