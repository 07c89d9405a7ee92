// The stores of a map in the order of their keys.
ghost use Rattle.std.specs.Prelude.{◌≡◌, OnOk, IfOk, IsOkUnless};
ghost use Rattle.trie_map.specs.Copied.{AreCopies, AddsCopy};
ghost use Rattle.trie_map.specs.Keyed.{NoStoreIsEmpty};

use crate::trie_map::TrieMap;
use dot_store::DotStore;
use dots::{Key, Refusal};
use gen_trie::Summary;
use hash_path::PathHash;
use std::alloc::{AllocError, Allocator};
use std::collections::BTreeMap;

// A copy of each store of the map, by its key.
pub(crate) fn copies<S: DotStore<A>, M: Summary<S>, H: PathHash, A: Allocator + Copy>(
    alloc: A,
    map: &TrieMap<S, M, H, A>,
) -> Result<BTreeMap<Key<A>, S, A>, Refusal>
    ensures ok { IfOk result (AreCopies S.at map.now.1) }
    ensures filled { NoStoreIsEmpty S.at map.now.1 }
    ensures err { IsOkUnless result Refusal.OutOfMemory }
{
    let mut copies = BTreeMap::new(alloc);
    for (key, store) in map.frozen().iter() {
        add_copy(alloc, &mut copies, key, store)?;
    }
    Ok(copies)
}

// Puts a copy of the store at the key.
fn add_copy<S: DotStore<A>, A: Allocator + Copy>(
    alloc: A,
    copies: &mut BTreeMap<Key<A>, S, A>,
    key: &Key<A>,
    store: &S,
) -> Result<(), Refusal>
    ensures ok { OnOk result (AddsCopy S.at copies.old copies.new key.now store.now) }
    ensures err { IsOkUnless result Refusal.OutOfMemory }
{
    copies.insert(key.copy(alloc)?, store.copy(alloc)?)?;
    Ok(())
}

// The copies in the order of their keys.
// It fails only for want of memory.
pub(crate) fn listed<S: Drop, A: Allocator + Copy>(
    alloc: A,
    copies: BTreeMap<Key<A>, S, A>,
) -> Result<Vec<(Key<A>, S), A>, AllocError>
    ensures { IfOk result (λ list. list.items ≡ copies.entries) }
{
    copies.into_iter().collect(alloc)
}
