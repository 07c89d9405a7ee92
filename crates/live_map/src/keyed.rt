// What holds a store at each key: a delta, or what was built.
ghost use Rattle.std.specs.Prelude.{◌≡◌, option_copied};
ghost use Rattle.dots.specs.Dot.{DotValue};
ghost use Rattle.dot_store.specs.Stores.{held_by};

use dot_store::{DotMap, DotStore};
use dots::Key;
use gen_trie::{Frozen, Summary};
use hash_path::PathHash;
use std::alloc::Allocator;

pub(crate) trait Keyed<S: DotStore<A>, A: Allocator + Copy> {
    ghost use Rattle.std.specs.Prelude.{ℕ, List, Option};
    ghost use Rattle.dots.specs.Dot.{DotValue};

    // What stands at a key and a place under a dot.
    ghost stands: { Self → List ℕ × S.Place → DotValue → Option S.Held };

    // The store at the key.
    fn store_at(&self, key: &Key<A>) -> Option<&S>
        ensures { (place : S.Place) (d : DotValue) → stands self.now (key.now, place) d ≡ held_by S.at (option_copied result) place d };
}

impl<S: DotStore<A>, A: Allocator + Copy> Keyed<S, A> for DotMap<Key<A>, S, A> {
    ghost use Rattle.dot_store.specs.Stores.{at_stores};
    ghost use Rattle.dots.specs.Bytes.{bytes_cmp};

    ghost stands = { at_stores S.at bytes_cmp };

    fn store_at(&self, key: &Key<A>) -> Option<&S> {
        self.get(key)
    }
}

impl<S: DotStore<A>, M: Summary<S>, H: PathHash, A: Allocator + Copy> Keyed<S, A>
    for Frozen<S, M, H, A> {
    ghost use Rattle.live_map.specs.Closing.{stores_of};
    ghost use Rattle.trie_map.specs.Keyed.{at_keys};

    ghost stands = { λ built. at_keys S.at (stores_of built) };

    fn store_at(&self, key: &Key<A>) -> Option<&S> {
        self.lookup(key)
    }
}
