ghost use Rattle.std.specs.Prelude.{◌≡◌, IfOk, OnOk, OnErr, IsOkUnless};
ghost use Rattle.causal_context.specs.Context.{has};
ghost use Rattle.dot_store.specs.Store.{HoldsSame, state_with};
ghost use Rattle.op_model.specs.State.{join};
ghost use Rattle.trie_map.specs.Joined.{JoinsAt};
ghost use Rattle.trie_map.specs.Keyed.{NoStoreIsEmpty, EachIsCanonical};

use crate::trie_map::TrieMap;
use causal_context::Context;
use dot_store::DotStore;
use dots::{Key, Refusal};
use gen_trie::{GenTrie, Summary};
use hash_path::PathHash;
use std::alloc::{Allocator, Global};
use std::marker::Model;

/// A map that is being made of another one, key by key, while that one stays as it is.
#[derive(Drop)]
pub struct Draft<S: DotStore<A>, M: Summary<S>, H: PathHash, A: Allocator + Copy = Global> {
    entries: GenTrie<S, M, H, A>,
}

impl<S: DotStore<A>, M: Summary<S>, H: PathHash, A: Allocator + Copy> Model for Draft<S, M, H, A> {
    ghost use Rattle.std.specs.Coded.{coded×, coded_list, coded_ℕ};
    ghost use Rattle.std.specs.FinMap as finite;
    ghost use Rattle.trie_map.specs.Keyed.{TrieMapValue, NoStoreIsEmpty, EachIsCanonical};

    ghost Value = { TrieMapValue H S };

    ghost coded = { coded× H.code (finite.code (coded_list coded_ℕ) S.code) };

    ghost view = { λ draft. (draft.entries.hash, draft.entries.map) };

    ghost invariant = { λ draft. NoStoreIsEmpty S.at draft.entries.map × EachIsCanonical S.canonical draft.entries.map };
}

impl<S: DotStore<A>, M: Summary<S>, H: PathHash, A: Allocator + Copy> Draft<S, M, H, A> {
    // The draft that holds what this trie does.
    pub(crate) fn of(entries: GenTrie<S, M, H, A>) -> Draft<S, M, H, A>
        requires filled { NoStoreIsEmpty S.at entries.map }
        requires canonical { EachIsCanonical S.canonical entries.map }
        ensures { result ≡ (entries.hash, entries.map) }
    {
        Draft { entries }
    }

    /// Puts at the key what the join of these two stores under their contexts holds, whatever stood there, and takes the key out
    /// where that is nothing. Writes nothing where the first store holds just that. A refused call leaves the draft as it was.
    /// Takes time and memory in both stores, as the join is made as a whole, and where it is not what the first holds, a write
    /// of the trie.
    /// Its only refusal is OutOfMemory.
    pub fn join_at(
        &mut self,
        alloc: A,
        key: &Key<A>,
        mine: &S,
        own: &Context<A>,
        yours: &S,
        theirs: &Context<A>,
    ) -> Result<(), Refusal>
        ensures hash { self.new.0 ≡ self.old.0 }
        ensures ok { OnOk result (JoinsAt S.at S.greater self.old.1 self.new.1 key.now mine.now (has own.now) yours.now (has theirs.now)) }
        ensures kept { HoldsSame (S.at mine.now) (join S.greater (state_with (S.at mine.now) (has own.now))
            (state_with (S.at yours.now) (has theirs.now))).at → self.new ≡ self.old }
        ensures unchanged { OnErr result (self.new ≡ self.old) }
        ensures err { IsOkUnless result Refusal.OutOfMemory }
    {
        let both = mine.join(alloc, own, yours, theirs)?;
        if both.same(mine) {
            drop(both);
            return Ok(());
        }
        if both.is_empty() {
            drop(both);
            drop(self.entries.remove(key)?);
            return Ok(());
        }
        match key.copy(alloc) {
            Ok(key) => self.entries.insert(key, both),
            Err(refusal) => {
                drop(both);
                Err(refusal)
            }
        }
    }

    /// The map of the draft. Copies no node: it takes a reference count, and is refused only where that is full.
    /// Its only refusal is OutOfMemory.
    pub fn finish(mut self) -> Result<TrieMap<S, M, H, A>, Refusal>
        ensures ok { IfOk result (λ map. map ≡ self) }
        ensures err { IsOkUnless result Refusal.OutOfMemory }
    {
        let entries = self.entries.share();
        drop(self);
        Ok(TrieMap::of(entries?))
    }
}
