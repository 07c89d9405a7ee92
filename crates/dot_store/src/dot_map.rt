ghost use Rattle.std.specs.Prelude.{◌≡◌, ◌↔◌, IsTrue, IsSome, IfSome, IsOk, IfOk, OnOk, OnErr, IsOkUnless, List, Contains};
ghost use Rattle.std.specs.Option.{option_copied};
ghost use Rattle.std.specs.List.{All};
ghost use Rattle.std.specs.List.Sorted.{IsStrictlySortedBy};
ghost use Rattle.std.specs.Map.{keys_of};
ghost use Rattle.dots.specs.Dot.{DotValue};
ghost use Rattle.causal_context.specs.Context.{has};
ghost use Rattle.ordered_list.specs.Places.{value_at};
ghost use Rattle.dot_store.specs.Store.{HasNothing, HoldsSame};
ghost use Rattle.dot_store.specs.Stores.{at_stores, held_by, joined_store, with_store, NoKeyIsEmpty, AreCanonical, IsCanonicalMap};

use crate::kept::Kept;
use crate::one_key::join_list;
use crate::put::put_some;
use crate::store::DotStore;
use causal_context::Context;
use dots::{Dot, Refusal};
use ordered_list::{Merge, OrderedList};
use std::alloc::{Allocator, Global};
use std::marker::Model;

/// A map from keys to dot stores, none of which is empty: a key whose store would be empty is not kept.
///
/// It is kept as the list of its entries, by ascending key. What grows keeps to the allocator that `empty`
/// or `copy` was given, or to that of the entries that it was made of.
#[derive(Drop)]
pub struct DotMap<K: Kept<A>, S: DotStore<A>, A: Allocator + Copy = Global> {
    stores: OrderedList<K, S, A>,
}

impl<K: Kept<A>, S: DotStore<A>, A: Allocator + Copy> Model for DotMap<K, S, A> {
    ghost use Rattle.std.specs.Prelude.{List};
    ghost use Rattle.dot_store.specs.Stores.{NoKeyIsEmpty, AreCanonical};

    ghost Value = { List (K × S) };

    ghost view = { λ m. m.stores };

    ghost invariant = { λ m. NoKeyIsEmpty S.at m.stores × AreCanonical S.canonical m.stores };
}

impl<K: Kept<A>, S: DotStore<A>, A: Allocator + Copy> DotMap<K, S, A> {
    /// The map of these stores, or None exactly where their keys do not ascend, each key once, or a store is
    /// empty. Takes the vector over as it is, and no memory, and time in the number of keys.
    pub fn from_entries(stores: Vec<(K, S), A>) -> Option<DotMap<K, S, A>>
        ensures canonical { IsSome result
            ↔ (IsStrictlySortedBy K.cmp (keys_of stores.items) × NoKeyIsEmpty S.at stores.items) }
        ensures stores { IfSome result (λ map. map ≡ stores.items) }
    {
        if !are_filled::<K, S, A>(&stores) {
            return None;
        }
        let stores = OrderedList::from_entries(stores)?;
        Some(DotMap { stores })
    }

    /// The store at the key, which is never an empty one. Takes time in the logarithm of the number of keys,
    /// and no memory.
    /// None exactly where nothing stands at the key.
    pub fn get(&self, key: &K) -> Option<&S>
        ensures held { (place : S.Place) (d : DotValue)
            → at_stores S.at K.cmp self.now (key.now, place) d
            ≡ held_by S.at (option_copied result) place d }
        ensures filled { IfSome result (λ store. ¬ HasNothing (S.at store.now)) }
    {
        self.stores.get(key)
    }

    /// The keys with their stores, in the order of the keys. No store is empty. Copies nothing.
    pub fn entries(&self) -> &[(K, S)]
        ensures rest { result.now ≡ self.now }
        ensures filled { NoKeyIsEmpty S.at result.now }
        ensures held { (key : K) (store : S) → Contains result.now (key, store)
            → (place : S.Place) (d : DotValue)
            → at_stores S.at K.cmp self.now (key, place) d ≡ S.at store place d }
        ensures only { (key : K) (place : S.Place) (d : DotValue)
            → IsSome (at_stores S.at K.cmp self.now (key, place) d)
            → (store : S) × Contains result.now (key, store) }
        ensures ordered { IsStrictlySortedBy K.cmp (keys_of result.now) }
    {
        self.stores.entries()
    }

    /// The keys and their stores themselves, in the order of the keys. No store is empty. Copies nothing.
    pub fn into_entries(self) -> Vec<(K, S), A>
        ensures all { result.items ≡ self }
    {
        self.stores.into_entries()
    }

    /// Puts the store at the key, in place of what was there. An empty store takes the key out, which takes
    /// no memory. A refused call leaves the map as it was. Takes time in the number of greater keys, besides
    /// that of a look-up, and memory for the entry: at times for twice as many as there are.
    /// Its only refusal is OutOfMemory.
    pub fn insert(&mut self, key: K, store: S) -> Result<(), Refusal>
        ensures ok { OnOk result (HoldsSame (at_stores S.at K.cmp self.new)
            (with_store S.at K.cmp (at_stores S.at K.cmp self.old) key store)) }
        ensures nothing { HasNothing (S.at store) → IsOk result }
        ensures unchanged { OnErr result (self.new ≡ self.old) }
        ensures err { IsOkUnless result Refusal.OutOfMemory }
    {
        let is_empty = store.is_empty();
        if is_empty {
            self.stores.remove(&key);
            return Ok(());
        }
        self.stores.insert(key, store)
    }
}

// Whether no key has an empty store.
fn are_filled<K: Kept<A>, S: DotStore<A>, A: Allocator + Copy>(stores: &[(K, S)]) -> bool
    ensures filled { IsTrue result ↔ NoKeyIsEmpty S.at stores.now }
    ensures canonical { IsTrue result → AreCanonical S.canonical stores.now }
{
    for (_, store) in stores {
        if store.is_empty() {
            return false;
        }
    }
    true
}

// What the join keeps at a key, of what stands there on the two sides: no store where it would be empty.
pub(crate) fn joined_at<S: DotStore<A>, A: Allocator + Copy>(
    alloc: A,
    mine: Option<&S>,
    own: &Context<A>,
    yours: Option<&S>,
    theirs: &Context<A>,
) -> Result<Option<S>, Refusal>
    ensures ok { IfOk result (λ kept. HoldsSame (held_by S.at kept)
        (joined_store S.at S.greater (option_copied mine.entry) (has own.now)
        (option_copied yours.entry) (has theirs.now))) }
    ensures filled { IfOk result (λ kept. IfSome kept (λ store. ¬ HasNothing (S.at store))) }
    ensures canonical { IfOk result (λ kept. IfSome kept S.canonical) }
    ensures err { IsOkUnless result Refusal.OutOfMemory }
{
    let empty = S::empty(alloc);
    let left = match mine {
        Some(store) => store,
        None => &empty,
    };
    let right = match yours {
        Some(store) => store,
        None => &empty,
    };
    let both = left.join(alloc, own, right, theirs)?;
    if both.is_empty() {
        return Ok(None);
    }
    Ok(Some(both))
}

// The join of the two lists, in one pass over both.
pub(crate) fn join_stores<K: Kept<A>, S: DotStore<A>, A: Allocator + Copy>(
    alloc: A,
    mine: &OrderedList<K, S, A>,
    own: &Context<A>,
    yours: &OrderedList<K, S, A>,
    theirs: &Context<A>,
) -> Result<OrderedList<K, S, A>, Refusal>
    ensures ok { IfOk result (λ kept. (key : K) → HoldsSame (held_by S.at (value_at K.cmp kept key))
        (joined_store S.at S.greater (value_at K.cmp mine.now key) (has own.now)
        (value_at K.cmp yours.now key) (has theirs.now))) }
    ensures filled { IfOk result (NoKeyIsEmpty S.at) }
    ensures canonical { IfOk result (AreCanonical S.canonical) }
    ensures err { IsOkUnless result Refusal.OutOfMemory }
{
    let mut kept = OrderedList::new(alloc);
    let mut merge = Merge::new(mine.entries(), yours.entries());
    while let Some((key, x, y)) = merge.next() {
        let store = joined_at(alloc, x, own, y, theirs)?;
        put_some(alloc, &mut kept, key, store)?;
    }
    Ok(kept)
}

// Whether the two hold the same, where a missing store holds nothing.
fn is_same<S: DotStore<A>, A: Allocator + Copy>(mine: Option<&S>, yours: Option<&S>) -> bool
    ensures { IsTrue result ↔ HoldsSame (held_by S.at (option_copied mine.entry)) (held_by S.at (option_copied yours.entry)) }
{
    match (mine, yours) {
        (Some(x), Some(y)) => x.same(y),
        (Some(x), None) => x.is_empty(),
        (None, Some(y)) => y.is_empty(),
        (None, None) => true,
    }
}

// Whether the two lists hold the same at each key, in one pass over both.
fn are_same<K: Kept<A>, S: DotStore<A>, A: Allocator + Copy>(
    mine: &OrderedList<K, S, A>,
    yours: &OrderedList<K, S, A>,
) -> bool
    ensures { IsTrue result ↔ ((key : K) → HoldsSame (held_by S.at (value_at K.cmp mine.now key))
        (held_by S.at (value_at K.cmp yours.now key))) }
{
    let mut merge = Merge::new(mine.entries(), yours.entries());
    while let Some((_, x, y)) = merge.next() {
        if !is_same::<S, A>(x, y) {
            return false;
        }
    }
    true
}

// The list with a copy of each store.
fn copied<K: Kept<A>, S: DotStore<A>, A: Allocator + Copy>(
    alloc: A,
    stores: &OrderedList<K, S, A>,
) -> Result<OrderedList<K, S, A>, Refusal>
    requires { NoKeyIsEmpty S.at stores.now }
    ensures ok { IfOk result (λ copy. (key : K) → HoldsSame (held_by S.at (value_at K.cmp copy key))
        (held_by S.at (value_at K.cmp stores.now key))) }
    ensures filled { IfOk result (NoKeyIsEmpty S.at) }
    ensures canonical { IfOk result (AreCanonical S.canonical) }
    ensures err { IsOkUnless result Refusal.OutOfMemory }
{
    let entries = stores.entries();
    let mut copies = OrderedList::with_capacity(alloc, entries.len())?;
    for (key, store) in entries {
        let copy = store.copy(alloc)?;
        prove!(!copy.is_empty());
        copies.insert(key.copy(alloc)?, copy)?;
    }
    Ok(copies)
}

// The context of the dots that stand in these stores: the union of those of both halves. So a dot is taken over once for
// each time that the stores are halved, where one union for each store would take it over once for each store behind it.
fn dots_of<K, S: DotStore<A>, A: Allocator + Copy>(
    alloc: A,
    stores: &[(K, S)],
) -> Result<Context<A>, Refusal>
    ensures only { IfOk result (λ dots. (d : DotValue) → IsTrue (has dots d) → (key : K) × (store : S) × (place : S.Place)
        × Contains stores.now (key, store) × IsSome (S.at store place d)) }
    ensures all { IfOk result (λ dots. All (λ store. (place : S.Place) (d : DotValue)
        → IsSome (S.at store.1 place d) → IsTrue (has dots d)) stores.now) }
    ensures err { IsOkUnless result Refusal.OutOfMemory }
{
    let Some((_, store)) = stores.first() else {
        return Ok(Context::new(alloc));
    };
    let middle = stores.len() / 2;
    if middle == 0 {
        return store.dots(alloc);
    }
    let (front, back) = stores.split_at(middle);
    let dots = dots_of(alloc, front)?;
    let more = match dots_of(alloc, back) {
        Ok(more) => more,
        Err(refusal) => {
            drop(dots);
            return Err(refusal);
        }
    };
    let both = dots.union(alloc, &more);
    drop(more);
    drop(dots);
    both
}

impl<K: Kept<A>, S: DotStore<A>, A: Allocator + Copy> DotStore<A> for DotMap<K, S, A> {
    type Place = (K, S::Place);

    type Held = S::Held;

    ghost at = { at_stores S.at K.cmp };

    ghost greater = { S.greater };

    ghost canonical = { IsCanonicalMap S.at K.cmp S.canonical };

    fn empty(alloc: A) -> DotMap<K, S, A> {
        DotMap {
            stores: OrderedList::new(alloc),
        }
    }

    fn is_empty(&self) -> bool {
        self.stores.entries().is_empty()
    }

    fn contains(&self, dot: Dot) -> bool {
        for (_, store) in self.stores.entries() {
            if store.contains(dot) {
                return true;
            }
        }
        false
    }

    fn is_inside(&self, context: &Context<A>) -> bool {
        for (_, store) in self.stores.entries() {
            if !store.is_inside(context) {
                return false;
            }
        }
        true
    }

    fn dots(&self, alloc: A) -> Result<Context<A>, Refusal> {
        dots_of(alloc, self.stores.entries())
    }

    fn join(
        &self,
        alloc: A,
        own: &Context<A>,
        other: &DotMap<K, S, A>,
        theirs: &Context<A>,
    ) -> Result<DotMap<K, S, A>, Refusal> {
        let stores = join_stores(alloc, &self.stores, own, &other.stores, theirs)?;
        Ok(DotMap { stores })
    }

    fn join_into(
        &mut self,
        alloc: A,
        own: &Context<A>,
        yours: &DotMap<K, S, A>,
        theirs: &Context<A>,
        found: &[Dot],
    ) -> Result<(), Refusal> {
        join_list(alloc, &mut self.stores, own, &yours.stores, theirs, found)
    }

    fn copy(&self, alloc: A) -> Result<DotMap<K, S, A>, Refusal> {
        let stores = copied(alloc, &self.stores)?;
        Ok(DotMap { stores })
    }

    fn same(&self, other: &DotMap<K, S, A>) -> bool {
        are_same(&self.stores, &other.stores)
    }

    ghost greater_comm = { S.greater_comm };

    ghost greater_assoc = { S.greater_assoc };

    ghost greater_idem = { S.greater_idem };
}
