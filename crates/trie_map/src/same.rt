// Whether one map holds what another does.
ghost use Rattle.std.specs.Prelude.{◌≡◌, ◌↔◌, IsTrue, Some, List, ℕ};
ghost use Rattle.std.specs.FinMap as finite;
ghost use Rattle.dot_store.specs.Store.{HoldsSame};
ghost use Rattle.dot_store.specs.Stores.{held_by};

use crate::trie_map::TrieMap;
use dot_store::DotStore;
use gen_trie::Summary;
use hash_path::PathHash;
use std::alloc::Allocator;

// Whether the second holds the same as the first at each key of the first.
pub(crate) fn is_within<S: DotStore<A>, M: Summary<S>, H: PathHash, A: Allocator + Copy>(
    mine: &TrieMap<S, M, H, A>,
    yours: &TrieMap<S, M, H, A>,
) -> bool
    ensures { IsTrue result ↔ ((key : List ℕ) (store : S) → finite.get mine.now.1 key ≡ Some store
        → HoldsSame (S.at store) (held_by S.at (finite.get yours.now.1 key))) }
{
    for (key, store) in mine.frozen().iter() {
        match yours.get(key) {
            Some(other) => {
                if !store.same(other) {
                    return false;
                }
            }
            None => return false,
        }
    }
    true
}
