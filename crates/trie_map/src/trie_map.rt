ghost use Rattle.std.specs.Prelude.{◌≡◌, ◌↔◌, IsTrue, IfSome, IfOk, OnOk, OnErr, IsOkUnless, false, is_some};
ghost use Rattle.std.specs.FinMap as finite;
ghost use Rattle.std.specs.Option.{option_copied};
ghost use Rattle.causal_context.specs.Context.{has};
ghost use Rattle.dot_store.specs.Store.{HasEachKnown, HasNothing, HoldsSame, state_with};
ghost use Rattle.dot_store.specs.Stores.{at_stores};
ghost use Rattle.dots.specs.Bytes.{bytes_cmp};
ghost use Rattle.op_model.specs.State.{join};
ghost use Rattle.trie_map.specs.Here.{HoldsAny, IsJoinHere, IsWritten, JoinsHere};
ghost use Rattle.trie_map.specs.Keyed.{at_keys, NoStoreIsEmpty, EachIsCanonical};

use crate::copying::{copies, listed};
use crate::draft::Draft;
use crate::join_in::JoinIn;
use crate::joining::join_all;
use crate::same::is_within;
use causal_context::Context;
use dot_store::{DotMap, DotStore};
use dots::{Dot, Key, Refusal};
use gen_trie::{Frozen, NoSummary, Summary, Written};
use hash_path::{Fnv1a, PathHash};
use std::alloc::{Allocator, Global};
use std::marker::Model;

/// A map from keys to dot stores, none of which is empty, that is kept as a trie by the path hash of the keys.
///
/// It holds what a `DotMap` of the same stores does. A copy takes a reference count and shares all nodes; a join writes the
/// keys whose stores change, and shares the rest.
#[derive(Drop)]
pub struct TrieMap<
    S: DotStore<A>,
    M: Summary<S> = NoSummary,
    H: PathHash = Fnv1a,
    A: Allocator + Copy = Global,
> {
    entries: Written<S, M, H, A>,
}

impl<S: DotStore<A>, M: Summary<S>, H: PathHash, A: Allocator + Copy> Model
    for TrieMap<S, M, H, A> {
    ghost use Rattle.std.specs.Coded.{coded×, coded_list, coded_ℕ};
    ghost use Rattle.std.specs.FinMap as finite;
    ghost use Rattle.trie_map.specs.Keyed.{TrieMapValue, NoStoreIsEmpty, EachIsCanonical};

    ghost Value = { TrieMapValue H S };

    ghost coded = { coded× H.code (finite.code (coded_list coded_ℕ) S.code) };

    ghost view = { λ map. (map.entries.hash, map.entries.map) };

    ghost invariant = { λ map. NoStoreIsEmpty S.at map.entries.map × EachIsCanonical S.canonical map.entries.map };
}

impl<S: DotStore<A>, M: Summary<S>, H: PathHash, A: Allocator + Copy> TrieMap<S, M, H, A> {
    /// The map with no keys, whose paths are by this hash. Takes no memory.
    pub fn new(alloc: A, hash: H) -> TrieMap<S, M, H, A>
        ensures { result ≡ (hash, finite.empty) }
    {
        TrieMap {
            entries: Written::new(alloc, hash),
        }
    }

    // The map of this trie.
    pub(crate) fn of(entries: Frozen<S, M, H, A>) -> TrieMap<S, M, H, A>
        requires filled { NoStoreIsEmpty S.at entries.map }
        requires canonical { EachIsCanonical S.canonical entries.map }
        ensures { result ≡ (entries.hash, entries.map) }
    {
        TrieMap {
            entries: Written::of(entries),
        }
    }

    /// The store at the key, which is never an empty one. Touches eight nodes at most, and takes no memory.
    /// None exactly where nothing stands at the key.
    pub fn get(&self, key: &Key<A>) -> Option<&S>
        ensures store { option_copied result ≡ finite.get self.now.1 key.now }
        ensures filled { IfSome result (λ store. ¬ HasNothing (S.at store.now)) }
    {
        self.entries.lookup(key)
    }

    /// The number of keys. Takes constant time.
    pub fn size(&self) -> u64
        ensures { result ≡ finite.len self.now.1 }
    {
        self.entries.size()
    }

    /// The trie of the keys with their stores. Copies nothing.
    pub fn frozen(&self) -> &Frozen<S, M, H, A>
        ensures hash { result.now.hash ≡ self.now.0 }
        ensures map { result.now.map ≡ self.now.1 }
        ensures filled { NoStoreIsEmpty S.at result.now.map }
        ensures canonical { EachIsCanonical S.canonical result.now.map }
    {
        self.entries.frozen()
    }

    /// The same map. Copies no node: it takes a reference count, and is refused only where that is full.
    /// Its only refusal is OutOfMemory.
    pub fn share(&self) -> Result<TrieMap<S, M, H, A>, Refusal>
        ensures ok { IfOk result (λ copy. copy ≡ self.now) }
        ensures err { IsOkUnless result Refusal.OutOfMemory }
    {
        let entries = self.entries.frozen().copy()?;
        Ok(TrieMap {
            entries: Written::of(entries),
        })
    }

    /// The join of what stands at the key with another store, or None where that is what stands there. Takes time and memory in
    /// both stores, as the join is made as a whole; where the two hold the same, time to compare them alone.
    /// Its only refusal is OutOfMemory.
    pub fn joined_at(
        &self,
        alloc: A,
        key: &Key<A>,
        own: &Context<A>,
        yours: &S,
        theirs: &Context<A>,
    ) -> Result<Option<S>, Refusal>
        ensures ok { IfOk result (IsJoinHere S.at S.greater (finite.get self.now.1 key.now) (has own.now) yours.now (has theirs.now)) }
        ensures err { IsOkUnless result Refusal.OutOfMemory }
    {
        let empty = S::empty(alloc);
        let mine = self.get(key).unwrap_or(&empty);
        if mine.same(yours) {
            return Ok(None);
        }
        let both = mine.join(alloc, own, yours, theirs)?;
        if both.same(mine) {
            drop(both);
            return Ok(None);
        }
        Ok(Some(both))
    }

    /// Puts the store at the key, in place of what stood there, or takes the key out where the store is empty. A refused call
    /// leaves the map as it was. Touches eight nodes at most, and copies those that another map shares; takes memory for the
    /// entry besides, and for the nodes between two keys whose paths begin alike.
    /// Its only refusal is OutOfMemory.
    pub fn put(&mut self, alloc: A, key: &Key<A>, store: S) -> Result<(), Refusal>
        ensures hash { self.new.0 ≡ self.old.0 }
        ensures ok { OnOk result (IsWritten S.at self.old.1 self.new.1 key.now store) }
        ensures unchanged { OnErr result (self.new ≡ self.old) }
        ensures err { IsOkUnless result Refusal.OutOfMemory }
    {
        if store.is_empty() {
            drop(store);
            drop(self.entries.remove(key)?);
            return Ok(());
        }
        match key.copy(alloc) {
            Ok(key) => self.entries.insert(key, store),
            Err(refusal) => {
                drop(store);
                Err(refusal)
            }
        }
    }

    /// Joins another store, under its context, into what stands at the key, in place, and tells whether something stands there:
    /// where nothing does, nothing changes. `found` has each dot that stands there and that the other context knows. A refused call
    /// leaves the map as it was. Touches eight nodes at most, and copies those that another map shares; takes what `join_into` does
    /// where no other map has the entry, and else what `join` does.
    /// Its only refusal is OutOfMemory.
    pub fn join_in(
        &mut self,
        alloc: A,
        key: &Key<A>,
        own: &Context<A>,
        yours: &S,
        theirs: &Context<A>,
        found: &[Dot],
    ) -> Result<bool, Refusal>
        requires { IfSome (finite.get self.old.1 key.now) (λ s. HasEachKnown (S.at s) (has theirs.now) found.now
            × HoldsAny S.at S.greater s (has own.now) yours.now (has theirs.now)) }
        ensures hash { self.new.0 ≡ self.old.0 }
        ensures ok { IfOk result (λ there. IsTrue there
            → JoinsHere S.at S.greater self.old.1 self.new.1 key.now (has own.now) yours.now (has theirs.now)) }
        ensures there { IfOk result (λ there. there ≡ is_some (finite.get self.old.1 key.now)) }
        ensures absent { IfOk result (λ there. there ≡ false → self.new ≡ self.old) }
        ensures unchanged { OnErr result (self.new ≡ self.old) }
        ensures err { IsOkUnless result Refusal.OutOfMemory }
    {
        let change = JoinIn {
            alloc,
            own,
            yours,
            theirs,
            found,
        };
        self.entries.change(key, &change)
    }

    /// Gives the nodes that keep no summary, as after a join, theirs. The map stays as it is, also where it is refused; a further
    /// call goes on from there. Takes time in those nodes, copies those of them that another map shares, and takes no other memory.
    /// Its only refusal is OutOfMemory.
    pub fn seal(&mut self) -> Result<(), Refusal>
        ensures same { self.new ≡ self.old }
        ensures err { IsOkUnless result Refusal.OutOfMemory }
    {
        self.entries.seal()
    }

    /// The same stores in a map in the order of the keys. Takes time and memory in all that the stores hold, and time in the number
    /// of keys times its logarithm.
    /// Its only refusal is OutOfMemory.
    pub fn to_map(&self, alloc: A) -> Result<DotMap<Key<A>, S, A>, Refusal>
        ensures ok { IfOk result (λ map. HoldsSame (at_stores S.at bytes_cmp map) (at_keys S.at self.now)) }
        ensures err { IsOkUnless result Refusal.OutOfMemory }
    {
        let copies = copies(alloc, self)?;
        let entries = listed(alloc, copies)?;
        Ok(DotMap::from_entries(entries).unwrap())
    }

    /// A draft that holds what this map does, and is written in its place. Copies no node: it takes a reference count, and
    /// is refused only where that is full.
    /// Its only refusal is OutOfMemory.
    pub fn draft(&self) -> Result<Draft<S, M, H, A>, Refusal>
        ensures ok { IfOk result (λ draft. draft ≡ self.now) }
        ensures err { IsOkUnless result Refusal.OutOfMemory }
    {
        let entries = self.entries.frozen().thaw()?;
        Ok(Draft::of(entries))
    }
}

impl<S: DotStore<A>, M: Summary<S>, H: PathHash, A: Allocator + Copy> DotStore<A>
    for TrieMap<S, M, H, A> {
    type Place = (Key<A>, S::Place);

    type Held = S::Held;

    ghost at = { at_keys S.at };

    ghost greater = { S.greater };

    ghost canonical = { λ map. NoStoreIsEmpty S.at map.1 × EachIsCanonical S.canonical map.1 };

    fn empty(alloc: A) -> TrieMap<S, M, H, A> {
        TrieMap::new(alloc, H::default())
    }

    fn is_empty(&self) -> bool {
        self.entries.size() == 0
    }

    fn contains(&self, dot: Dot) -> bool {
        for (_, store) in self.entries.iter() {
            if store.contains(dot) {
                return true;
            }
        }
        false
    }

    fn is_inside(&self, context: &Context<A>) -> bool {
        for (_, store) in self.entries.iter() {
            if !store.is_inside(context) {
                return false;
            }
        }
        true
    }

    fn dots(&self, alloc: A) -> Result<Context<A>, Refusal> {
        let mut dots = Context::new(alloc);
        for (_, store) in self.entries.iter() {
            let more = store.dots(alloc)?;
            let both = dots.union(alloc, &more)?;
            dots = both;
        }
        Ok(dots)
    }

    fn join(
        &self,
        alloc: A,
        own: &Context<A>,
        other: &TrieMap<S, M, H, A>,
        theirs: &Context<A>,
    ) -> Result<TrieMap<S, M, H, A>, Refusal>
        ensures ok { IfOk result (λ both. HoldsSame (at_keys S.at both)
            (join S.greater (state_with (at_keys S.at self.now) (has own.now)) (state_with (at_keys S.at other.now) (has theirs.now))).at) }
        ensures hash { IfOk result (λ both. both.0 ≡ self.now.0) }
        ensures err { IsOkUnless result Refusal.OutOfMemory }
    {
        let mut draft = self.draft()?;
        if let Err(refusal) = join_all(alloc, &mut draft, self, own, other, theirs) {
            drop(draft);
            return Err(refusal);
        }
        draft.finish()
    }

    fn copy(&self, _alloc: A) -> Result<TrieMap<S, M, H, A>, Refusal>
        ensures ok { IfOk result (λ copy. HoldsSame (at_keys S.at copy) (at_keys S.at self.now)) }
        ensures whole { IfOk result (λ copy. copy ≡ self.now) }
        ensures err { IsOkUnless result Refusal.OutOfMemory }
    {
        self.share()
    }

    fn same(&self, other: &TrieMap<S, M, H, A>) -> bool {
        is_within(self, other) && is_within(other, self)
    }

    ghost greater_comm = { S.greater_comm };

    ghost greater_assoc = { S.greater_assoc };

    ghost greater_idem = { S.greater_idem };
}
