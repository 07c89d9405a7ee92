// A delta that brings to a pair what the close of a synchronisation brings.
ghost use Rattle.std.specs.Prelude.{◌≡◌, ◌||◌, ◌⊎◌, ℕ, List, false, IsTrue, IsSome, IfSome, IfOk, OnOk, IsOkUnless};
ghost use Rattle.std.specs.Ordering.{is_eq};
ghost use Rattle.causal_context.specs.Context.{has};
ghost use Rattle.causal_join.specs.Causal.{state_of};
ghost use Rattle.dot_store.specs.Store.{HoldsDot, HoldsSame, state_with};
ghost use Rattle.dot_store.specs.Stores.{at_stores, with_store};
ghost use Rattle.dots.specs.Bytes.{bytes_cmp};
ghost use Rattle.dots.specs.Dot.{DotValue};
ghost use Rattle.live_map.specs.Bringing.{BringsAt, IsCopyAt, StaysAt};
ghost use Rattle.live_map.specs.Closing.{stores_of, ChangesOnlyAt};
ghost use Rattle.live_map.specs.Index.{has_key, IsIndexed, IsTouched};
ghost use Rattle.op_model.specs.State.{join, Same, IsInside};
ghost use Rattle.trie_map.specs.Keyed.{at_keys};

use crate::index::Index;
use crate::touched::Touched;
use crate::touching::touch_by;
use crate::unknown::unknown_of;
use causal_context::Context;
use causal_join::Causal;
use dot_store::{DotMap, DotStore};
use dots::{Key, Refusal};
use gen_trie::{Frozen, Summary};
use hash_path::PathHash;
use std::alloc::Allocator;
use std::collections::BTreeSet;
use trie_map::TrieMap;

// A delta that brings what the trie holds, which changes the store at these keys alone, if a delta can that changes no other key.
pub(crate) fn brought<S: DotStore<A>, M: Summary<S>, H: PathHash, A: Allocator + Copy>(
    alloc: A,
    index: &Index<A>,
    mine: &TrieMap<S, M, H, A>,
    own: &Context<A>,
    built: &Frozen<S, M, H, A>,
    theirs: &Context<A>,
    keys: &BTreeSet<Key<A>, A>,
) -> Result<Option<Causal<DotMap<Key<A>, S, A>, A>>, Refusal>
    requires changes { ChangesOnlyAt S.greater (at_keys S.at mine.now) (has own.now) (at_keys S.at (stores_of built.now)) (has theirs.now) keys.now.keys }
    requires inside { IsInside (state_with (at_keys S.at mine.now) (has own.now)) }
    requires indexed { IsIndexed (at_keys S.at mine.now) index.now }
    requires built { IsInside (state_with (at_keys S.at (stores_of built.now)) (has theirs.now)) }
    ensures ok { IfOk result (λ found. IfSome found (λ delta. Same (join S.greater (state_with (at_keys S.at mine.now) (has own.now))
        (state_of (at_stores S.at bytes_cmp) delta))
        (join S.greater (state_with (at_keys S.at mine.now) (has own.now)) (state_with (at_keys S.at (stores_of built.now)) (has theirs.now))))) }
    ensures err { IsOkUnless result Refusal.OutOfMemory }
{
    let changed = changed_at(alloc, mine, own, built, theirs, keys)?;
    let delta = brought_at(alloc, index, mine, own, built, theirs, &changed);
    drop(changed);
    delta
}

// Those of these keys at which the join changes what stands there.
fn changed_at<S: DotStore<A>, M: Summary<S>, H: PathHash, A: Allocator + Copy>(
    alloc: A,
    mine: &TrieMap<S, M, H, A>,
    own: &Context<A>,
    built: &Frozen<S, M, H, A>,
    theirs: &Context<A>,
    keys: &BTreeSet<Key<A>, A>,
) -> Result<BTreeSet<Key<A>, A>, Refusal>
    requires { ChangesOnlyAt S.greater (at_keys S.at mine.now) (has own.now) (at_keys S.at (stores_of built.now)) (has theirs.now) keys.now.keys }
    ensures ok { IfOk result (λ changed. ChangesOnlyAt S.greater (at_keys S.at mine.now) (has own.now) (at_keys S.at (stores_of built.now)) (has theirs.now) changed.keys) }
    ensures err { IsOkUnless result Refusal.OutOfMemory }
{
    let mut changed = BTreeSet::new(alloc);
    for key in keys {
        add_changed(alloc, &mut changed, mine, own, built, theirs, key)?;
    }
    Ok(changed)
}

// Adds the key, where the join changes what stands there.
fn add_changed<S: DotStore<A>, M: Summary<S>, H: PathHash, A: Allocator + Copy>(
    alloc: A,
    changed: &mut BTreeSet<Key<A>, A>,
    mine: &TrieMap<S, M, H, A>,
    own: &Context<A>,
    built: &Frozen<S, M, H, A>,
    theirs: &Context<A>,
    key: &Key<A>,
) -> Result<(), Refusal>
    ensures there { OnOk result (IsTrue (has_key changed.new.keys key.now)
        ⊎ StaysAt S.greater (at_keys S.at mine.now) (has own.now) (at_keys S.at (stores_of built.now)) (has theirs.now) key.now) }
    ensures kept { OnOk result ((q : List ℕ) → IsTrue (has_key changed.old.keys q) → IsTrue (has_key changed.new.keys q)) }
    ensures err { IsOkUnless result Refusal.OutOfMemory }
{
    let is_changed = is_changed_at(alloc, mine, own, built, theirs, key)?;
    if !is_changed {
        return Ok(());
    }
    changed.insert(key.copy(alloc)?)?;
    Ok(())
}

// Whether the join changes what stands at the key.
fn is_changed_at<S: DotStore<A>, M: Summary<S>, H: PathHash, A: Allocator + Copy>(
    alloc: A,
    mine: &TrieMap<S, M, H, A>,
    own: &Context<A>,
    built: &Frozen<S, M, H, A>,
    theirs: &Context<A>,
    key: &Key<A>,
) -> Result<bool, Refusal>
    ensures stays { IfOk result (λ is. is ≡ false → StaysAt S.greater (at_keys S.at mine.now) (has own.now) (at_keys S.at (stores_of built.now)) (has theirs.now) key.now) }
    ensures err { IsOkUnless result Refusal.OutOfMemory }
{
    let empty = S::empty(alloc);
    let yours = built.lookup(key).unwrap_or(&empty);
    let joined = mine.joined_at(alloc, key, own, yours, theirs)?;
    let is_changed = joined.is_some();
    drop(joined);
    Ok(is_changed)
}

// A delta that brings what the trie holds, which changes the store at these keys alone, if a delta can that changes no other key.
fn brought_at<S: DotStore<A>, M: Summary<S>, H: PathHash, A: Allocator + Copy>(
    alloc: A,
    index: &Index<A>,
    mine: &TrieMap<S, M, H, A>,
    own: &Context<A>,
    built: &Frozen<S, M, H, A>,
    theirs: &Context<A>,
    keys: &BTreeSet<Key<A>, A>,
) -> Result<Option<Causal<DotMap<Key<A>, S, A>, A>>, Refusal>
    requires changes { ChangesOnlyAt S.greater (at_keys S.at mine.now) (has own.now) (at_keys S.at (stores_of built.now)) (has theirs.now) keys.now.keys }
    requires inside { IsInside (state_with (at_keys S.at mine.now) (has own.now)) }
    requires indexed { IsIndexed (at_keys S.at mine.now) index.now }
    requires built { IsInside (state_with (at_keys S.at (stores_of built.now)) (has theirs.now)) }
    ensures ok { IfOk result (λ found. IfSome found (λ delta. Same (join S.greater (state_with (at_keys S.at mine.now) (has own.now))
        (state_of (at_stores S.at bytes_cmp) delta))
        (join S.greater (state_with (at_keys S.at mine.now) (has own.now)) (state_with (at_keys S.at (stores_of built.now)) (has theirs.now))))) }
    ensures err { IsOkUnless result Refusal.OutOfMemory }
{
    let delta = delta_of(alloc, mine, own, built, theirs, keys)?;
    match is_alone(alloc, index, own, &delta, keys) {
        Ok(true) => Ok(Some(delta)),
        Ok(false) => {
            drop(delta);
            Ok(None)
        }
        Err(refusal) => {
            drop(delta);
            Err(refusal)
        }
    }
}

// Whether the delta can change nothing but at these keys.
fn is_alone<S: DotStore<A>, A: Allocator + Copy>(
    alloc: A,
    index: &Index<A>,
    own: &Context<A>,
    delta: &Causal<DotMap<Key<A>, S, A>, A>,
    keys: &BTreeSet<Key<A>, A>,
) -> Result<bool, Refusal>
    ensures ok { IfOk result (λ is. IsTrue is → IsTouched index.now (has own.now) (at_stores S.at bytes_cmp delta.now.0) (has delta.now.1) keys.now.keys) }
    ensures err { IsOkUnless result Refusal.OutOfMemory }
{
    let mut touched = Touched::new(alloc);
    if let Err(refusal) = touch_by(alloc, &mut touched, index, own, delta) {
        drop(touched);
        return Err(refusal);
    }
    let is_within = touched.is_within(keys);
    drop(touched);
    Ok(is_within)
}

// What the join of both holds at these keys, under the dots that stand there on either side, or that are new.
fn delta_of<S: DotStore<A>, M: Summary<S>, H: PathHash, A: Allocator + Copy>(
    alloc: A,
    mine: &TrieMap<S, M, H, A>,
    own: &Context<A>,
    built: &Frozen<S, M, H, A>,
    theirs: &Context<A>,
    keys: &BTreeSet<Key<A>, A>,
) -> Result<Causal<DotMap<Key<A>, S, A>, A>, Refusal>
    requires inside { IsInside (state_with (at_keys S.at mine.now) (has own.now)) }
    requires built { IsInside (state_with (at_keys S.at (stores_of built.now)) (has theirs.now)) }
    ensures ok { IfOk result (λ delta. BringsAt S.greater (at_keys S.at mine.now) (has own.now) (at_keys S.at (stores_of built.now)) (has theirs.now)
        keys.now.keys (state_of (at_stores S.at bytes_cmp) delta)) }
    ensures err { IsOkUnless result Refusal.OutOfMemory }
{
    let before = held_of(alloc, mine, keys)?;
    let other = match held_at(alloc, built, keys) {
        Ok(other) => other,
        Err(refusal) => {
            drop(before);
            return Err(refusal);
        }
    };
    let delta = delta_between(alloc, &before, own, &other, theirs);
    drop(other);
    drop(before);
    delta
}

// What the join of both holds, under the dots that stand in either, or that are new.
fn delta_between<S: DotStore<A>, A: Allocator + Copy>(
    alloc: A,
    mine: &DotMap<Key<A>, S, A>,
    own: &Context<A>,
    yours: &DotMap<Key<A>, S, A>,
    theirs: &Context<A>,
) -> Result<Causal<DotMap<Key<A>, S, A>, A>, Refusal>
    requires mine { IsInside (state_with (at_stores S.at bytes_cmp mine.now) (has own.now)) }
    requires yours { IsInside (state_with (at_stores S.at bytes_cmp yours.now) (has theirs.now)) }
    ensures held { IfOk result (λ delta. HoldsSame (at_stores S.at bytes_cmp delta.0)
        (join S.greater (state_with (at_stores S.at bytes_cmp mine.now) (has own.now)) (state_with (at_stores S.at bytes_cmp yours.now) (has theirs.now))).at) }
    ensures stood { IfOk result (λ delta. (place : List ℕ × S.Place) (d : DotValue) → IsSome (at_stores S.at bytes_cmp mine.now place d) → IsTrue (has delta.1 d)) }
    ensures new { IfOk result (λ delta. (d : DotValue) → IsTrue (has theirs.now d) → has own.now d ≡ false → IsTrue (has delta.1 d)) }
    ensures known { IfOk result (λ delta. (d : DotValue) → IsTrue (has delta.1 d) → IsTrue (has own.now d || has theirs.now d)) }
    ensures err { IsOkUnless result Refusal.OutOfMemory }
{
    let both = mine.join(alloc, own, yours, theirs)?;
    match dots_between(alloc, mine, own, &both, theirs) {
        Ok(context) => Ok(Causal::from_parts(both, context).unwrap()),
        Err(refusal) => {
            drop(both);
            Err(refusal)
        }
    }
}

// The dots that stand in either store, and those that are new.
fn dots_between<S: DotStore<A>, A: Allocator + Copy>(
    alloc: A,
    mine: &DotMap<Key<A>, S, A>,
    own: &Context<A>,
    both: &DotMap<Key<A>, S, A>,
    theirs: &Context<A>,
) -> Result<Context<A>, Refusal>
    ensures mine { IfOk result (λ dots. (place : List ℕ × S.Place) (d : DotValue) → IsSome (at_stores S.at bytes_cmp mine.now place d) → IsTrue (has dots d)) }
    ensures both { IfOk result (λ dots. (place : List ℕ × S.Place) (d : DotValue) → IsSome (at_stores S.at bytes_cmp both.now place d) → IsTrue (has dots d)) }
    ensures new { IfOk result (λ dots. (d : DotValue) → IsTrue (has theirs.now d) → has own.now d ≡ false → IsTrue (has dots d)) }
    ensures only { IfOk result (λ dots. (d : DotValue) → IsTrue (has dots d)
        → HoldsDot (at_stores S.at bytes_cmp mine.now) d ⊎ (HoldsDot (at_stores S.at bytes_cmp both.now) d ⊎ IsTrue (has theirs.now d))) }
    ensures err { IsOkUnless result Refusal.OutOfMemory }
{
    let new = unknown_of(alloc, theirs, own)?;
    let later = with_dots(alloc, both, &new);
    drop(new);
    let later = later?;
    let dots = with_dots(alloc, mine, &later);
    drop(later);
    dots
}

// The dots that stand in the store, and these.
fn with_dots<S: DotStore<A>, A: Allocator + Copy>(
    alloc: A,
    store: &DotMap<Key<A>, S, A>,
    more: &Context<A>,
) -> Result<Context<A>, Refusal>
    ensures stand { IfOk result (λ dots. (place : List ℕ × S.Place) (d : DotValue) → IsSome (at_stores S.at bytes_cmp store.now place d) → IsTrue (has dots d)) }
    ensures more { IfOk result (λ dots. (d : DotValue) → IsTrue (has more.now d) → IsTrue (has dots d)) }
    ensures only { IfOk result (λ dots. (d : DotValue) → IsTrue (has dots d) → HoldsDot (at_stores S.at bytes_cmp store.now) d ⊎ IsTrue (has more.now d)) }
    ensures err { IsOkUnless result Refusal.OutOfMemory }
{
    let dots = store.dots(alloc)?;
    let both = dots.union(alloc, more);
    drop(dots);
    both
}

// A copy of what the map holds at these keys.
fn held_of<S: DotStore<A>, M: Summary<S>, H: PathHash, A: Allocator + Copy>(
    alloc: A,
    map: &TrieMap<S, M, H, A>,
    keys: &BTreeSet<Key<A>, A>,
) -> Result<DotMap<Key<A>, S, A>, Refusal>
    ensures ok { IfOk result (λ held. IsCopyAt (at_keys S.at map.now) keys.now.keys (at_stores S.at bytes_cmp held)) }
    ensures err { IsOkUnless result Refusal.OutOfMemory }
{
    held_at(alloc, map.frozen(), keys)
}

// A copy of what the trie holds at these keys.
fn held_at<S: DotStore<A>, M: Summary<S>, H: PathHash, A: Allocator + Copy>(
    alloc: A,
    trie: &Frozen<S, M, H, A>,
    keys: &BTreeSet<Key<A>, A>,
) -> Result<DotMap<Key<A>, S, A>, Refusal>
    ensures ok { IfOk result (λ held. IsCopyAt (at_keys S.at (stores_of trie.now)) keys.now.keys (at_stores S.at bytes_cmp held)) }
    ensures err { IsOkUnless result Refusal.OutOfMemory }
{
    let mut held = DotMap::empty(alloc);
    if let Err(refusal) = copy_at(alloc, &mut held, trie, keys) {
        drop(held);
        return Err(refusal);
    }
    Ok(held)
}

// Copies what the trie holds at these keys.
fn copy_at<S: DotStore<A>, M: Summary<S>, H: PathHash, A: Allocator + Copy>(
    alloc: A,
    held: &mut DotMap<Key<A>, S, A>,
    trie: &Frozen<S, M, H, A>,
    keys: &BTreeSet<Key<A>, A>,
) -> Result<(), Refusal>
    ensures here { OnOk result ((q : List ℕ) → IsTrue (has_key keys.now.keys q) → (place : S.Place) (d : DotValue)
        → at_stores S.at bytes_cmp held.new (q, place) d ≡ at_keys S.at (stores_of trie.now) (q, place) d) }
    ensures only { OnOk result (((place : List ℕ × S.Place) (d : DotValue) → IsSome (at_stores S.at bytes_cmp held.old place d) → IsSome (at_keys S.at (stores_of trie.now) place d))
        → (place : List ℕ × S.Place) (d : DotValue) → IsSome (at_stores S.at bytes_cmp held.new place d) → IsSome (at_keys S.at (stores_of trie.now) place d)) }
    ensures err { IsOkUnless result Refusal.OutOfMemory }
{
    for key in keys {
        copy_one(alloc, held, trie, key)?;
    }
    Ok(())
}

// Copies what the trie holds at this key.
fn copy_one<S: DotStore<A>, M: Summary<S>, H: PathHash, A: Allocator + Copy>(
    alloc: A,
    held: &mut DotMap<Key<A>, S, A>,
    trie: &Frozen<S, M, H, A>,
    key: &Key<A>,
) -> Result<(), Refusal>
    ensures here { OnOk result ((place : S.Place) (d : DotValue)
        → at_stores S.at bytes_cmp held.new (key.now, place) d ≡ at_keys S.at (stores_of trie.now) (key.now, place) d) }
    ensures apart { OnOk result ((q : List ℕ) → is_eq (bytes_cmp key.now q) ≡ false → (place : S.Place) (d : DotValue)
        → at_stores S.at bytes_cmp held.new (q, place) d ≡ at_stores S.at bytes_cmp held.old (q, place) d) }
    ensures err { IsOkUnless result Refusal.OutOfMemory }
{
    let empty = S::empty(alloc);
    let store = trie.lookup(key).unwrap_or(&empty);
    put_copy(alloc, held, key, store)
}

// Puts a copy of the store at the key.
fn put_copy<S: DotStore<A>, A: Allocator + Copy>(
    alloc: A,
    held: &mut DotMap<Key<A>, S, A>,
    key: &Key<A>,
    store: &S,
) -> Result<(), Refusal>
    ensures ok { OnOk result (HoldsSame (at_stores S.at bytes_cmp held.new) (with_store S.at bytes_cmp (at_stores S.at bytes_cmp held.old) key.now store.now)) }
    ensures err { IsOkUnless result Refusal.OutOfMemory }
{
    let key = key.copy(alloc)?;
    match store.copy(alloc) {
        Ok(copy) => held.insert(key, copy),
        Err(refusal) => {
            drop(key);
            Err(refusal)
        }
    }
}
