// The keys that a delta can change, and the join at these keys.
ghost use Rattle.std.specs.Prelude.{◌≡◌, ◌≤◌, false, ℕ, List, IsTrue, IsSome, IfOk, OnOk, IsOkUnless};
ghost use Rattle.std.specs.List.{All};
ghost use Rattle.causal_context.specs.Context.{has};
ghost use Rattle.dot_store.specs.Stores.{at_stores};
ghost use Rattle.dots.specs.Bytes.{bytes_cmp};
ghost use Rattle.dots.specs.Dot.{DotValue};
ghost use Rattle.live_map.specs.Index.{PlaceValue, names, has_key, IsEnded, IsGone, IsIndexed, IsTouched};
ghost use Rattle.trie_map.specs.Joined.{IsJoinedAt, IsEitherAt};
ghost use Rattle.trie_map.specs.Keyed.{at_keys};

use crate::dot_span::dot_at;
use crate::index::Index;
use crate::keyed::Keyed;
use crate::touched::Touched;
use causal_context::Context;
use causal_join::Causal;
use dot_store::{DotMap, DotStore};
use dots::{Dot, Key, Name, Refusal};
use gen_trie::Summary;
use hash_path::PathHash;
use std::alloc::Allocator;
use std::collections::{BTreeMap, BTreeSet};
use trie_map::{Draft, TrieMap};

// Adds the keys that the delta can change: those at which it holds something, and those that are named for a dot that both know.
// For a dot that is new nothing stands here, so it is not looked for.
pub(crate) fn touch_by<S: DotStore<A>, A: Allocator + Copy>(
    alloc: A,
    touched: &mut Touched<A>,
    index: &Index<A>,
    own: &Context<A>,
    delta: &Causal<DotMap<Key<A>, S, A>, A>,
) -> Result<(), Refusal>
    ensures ok { OnOk result (IsTouched index.now (has own.now) (at_stores S.at bytes_cmp delta.now.0) (has delta.now.1) touched.new) }
    ensures err { IsOkUnless result Refusal.OutOfMemory }
{
    add_keys(alloc, touched, delta.store().entries())?;
    let context = delta.context();
    add_vector(alloc, touched, index, context.vector())?;
    add_cloud(alloc, touched, index, own, context.cloud())
}

// Adds the keys of these entries.
fn add_keys<S, A: Allocator + Copy>(
    alloc: A,
    touched: &mut Touched<A>,
    entries: &[(Key<A>, S)],
) -> Result<(), Refusal>
    ensures there { OnOk result (All (λ entry. IsTrue (has_key touched.new entry.0)) entries.now) }
    ensures err { IsOkUnless result Refusal.OutOfMemory }
{
    for (key, _) in entries {
        touched.add(alloc, key)?;
    }
    Ok(())
}

// Adds the keys that are named for dots of the vector.
fn add_vector<A: Allocator + Copy>(
    alloc: A,
    touched: &mut Touched<A>,
    index: &Index<A>,
    vector: &[(Name, u64)],
) -> Result<(), Refusal>
    ensures there { OnOk result (All (λ entry. (d : DotValue) (q : List ℕ) → d.name ≡ entry.0 → 1 ≤ d.number → d.number ≤ entry.1
        → IsTrue (names index.now d q) → IsTrue (has_key touched.new q)) vector.now) }
    ensures kept { (q : List ℕ) → IsTrue (has_key touched.old q) → IsTrue (has_key touched.new q) }
    ensures err { IsOkUnless result Refusal.OutOfMemory }
{
    for (name, last) in vector {
        index.find(alloc, dot_at(*name, 1), *last, touched)?;
    }
    Ok(())
}

// Adds the keys that are named for those dots of the cloud that are known here.
fn add_cloud<A: Allocator + Copy>(
    alloc: A,
    touched: &mut Touched<A>,
    index: &Index<A>,
    own: &Context<A>,
    cloud: &[Dot],
) -> Result<(), Refusal>
    ensures there { OnOk result (All (λ d. IsTrue (has own.now d) → (q : List ℕ) → IsTrue (names index.now d q) → IsTrue (has_key touched.new q)) cloud.now) }
    ensures kept { (q : List ℕ) → IsTrue (has_key touched.old q) → IsTrue (has_key touched.new q) }
    ensures err { IsOkUnless result Refusal.OutOfMemory }
{
    for dot in cloud {
        find_known(alloc, touched, index, own, *dot)?;
    }
    Ok(())
}

// Adds the keys that are named for the dot, if it is known here.
fn find_known<A: Allocator + Copy>(
    alloc: A,
    touched: &mut Touched<A>,
    index: &Index<A>,
    own: &Context<A>,
    dot: Dot,
) -> Result<(), Refusal>
    ensures there { OnOk result (IsTrue (has own.now dot) → (q : List ℕ) → IsTrue (names index.now dot q) → IsTrue (has_key touched.new q)) }
    ensures kept { (q : List ℕ) → IsTrue (has_key touched.old q) → IsTrue (has_key touched.new q) }
    ensures err { IsOkUnless result Refusal.OutOfMemory }
{
    if !own.contains(dot) {
        return Ok(());
    }
    index.find(alloc, dot, dot.number(), touched)
}

// Joins what these hold under their context into the draft of the store, at these keys.
pub(crate) fn join_at_keys<
    S: DotStore<A>,
    M: Summary<S>,
    H: PathHash,
    A: Allocator + Copy,
    Y: Keyed<S, A>,
>(
    alloc: A,
    draft: &mut Draft<S, M, H, A>,
    mine: &TrieMap<S, M, H, A>,
    own: &Context<A>,
    yours: &Y,
    theirs: &Context<A>,
    keys: &BTreeSet<Key<A>, A>,
) -> Result<(), Refusal>
    requires { draft.old ≡ mine.now }
    ensures hash { draft.new.0 ≡ draft.old.0 }
    ensures either { OnOk result ((q : List ℕ) → IsEitherAt S.at S.greater (at_keys S.at mine.now) (has own.now)
        (Y.stands yours.now) (has theirs.now) draft.new.1 q) }
    ensures there { OnOk result ((q : List ℕ) → IsTrue (has_key keys.now.keys q) → IsJoinedAt S.at S.greater (at_keys S.at mine.now) (has own.now)
        (Y.stands yours.now) (has theirs.now) draft.new.1 q) }
    ensures err { IsOkUnless result Refusal.OutOfMemory }
{
    let empty = S::empty(alloc);
    for key in keys {
        let store = mine.get(key).unwrap_or(&empty);
        let other = yours.store_at(key).unwrap_or(&empty);
        draft.join_at(alloc, key, store, own, other, theirs)?;
    }
    Ok(())
}

// Names the key for the dot where the delta holds it there.
pub(crate) fn name_dot<S: DotStore<A>, A: Allocator + Copy>(
    alloc: A,
    index: &mut Index<A>,
    delta: &Causal<DotMap<Key<A>, S, A>, A>,
    key: &Key<A>,
    dot: Dot,
) -> Result<(), Refusal>
    ensures there { OnOk result ((place : S.Place) → IsSome (at_stores S.at bytes_cmp delta.now.0 (key.now, place) dot) → IsTrue (names index.new dot key.now)) }
    ensures kept { (d : DotValue) (q : List ℕ) → IsTrue (names index.old d q) → IsTrue (names index.new d q) }
    ensures err { IsOkUnless result Refusal.OutOfMemory }
{
    let empty = S::empty(alloc);
    let store = delta.store().get(key).unwrap_or(&empty);
    if !store.contains(dot) {
        return Ok(());
    }
    index.add(dot, key.copy(alloc)?)
}

// Names the keys of these entries for the dots that stand there and are not known. A refused call may have named some.
pub(crate) fn name_all<S: DotStore<A>, A: Allocator + Copy>(
    alloc: A,
    index: &mut Index<A>,
    entries: &[(Key<A>, S)],
    known: &Context<A>,
) -> Result<(), Refusal>
    ensures there { OnOk result (All (λ entry. (place : S.Place) (d : DotValue) → IsSome (S.at entry.1 place d)
        → has known.now d ≡ false → IsTrue (names index.new d entry.0)) entries.now) }
    ensures kept { (d : DotValue) (q : List ℕ) → IsTrue (names index.old d q) → IsTrue (names index.new d q) }
    ensures err { IsOkUnless result Refusal.OutOfMemory }
{
    for (key, store) in entries {
        name_store(alloc, index, key, store, known)?;
    }
    Ok(())
}

// Names the key for the dots of the store that are not known. A refused call may have named some.
pub(crate) fn name_store<S: DotStore<A>, A: Allocator + Copy>(
    alloc: A,
    index: &mut Index<A>,
    key: &Key<A>,
    store: &S,
    known: &Context<A>,
) -> Result<(), Refusal>
    ensures there { OnOk result ((place : S.Place) (d : DotValue) → IsSome (S.at store.now place d)
        → has known.now d ≡ false → IsTrue (names index.new d key.now)) }
    ensures kept { (d : DotValue) (q : List ℕ) → IsTrue (names index.old d q) → IsTrue (names index.new d q) }
    ensures err { IsOkUnless result Refusal.OutOfMemory }
{
    let dots = store.dots(alloc)?;
    let named = index.add_dots(alloc, key, &dots, known);
    drop(dots);
    named
}

// The places that were found and at which nothing stands in the store now.
pub(crate) fn gone_of<S: DotStore<A>, M: Summary<S>, H: PathHash, A: Allocator + Copy>(
    alloc: A,
    store: &TrieMap<S, M, H, A>,
    touched: &Touched<A>,
) -> Result<Vec<(Dot, Key<A>), A>, Refusal>
    ensures ok { IfOk result (λ gone. All (IsGone (at_keys S.at store.now)) gone.items) }
    ensures err { IsOkUnless result Refusal.OutOfMemory }
{
    let found = touched.found_by_key(alloc)?;
    let gone = gone_at(alloc, store, &found);
    drop(found);
    gone
}

// Those of these places, by key, at which nothing stands in the store now.
fn gone_at<S: DotStore<A>, M: Summary<S>, H: PathHash, A: Allocator + Copy>(
    alloc: A,
    store: &TrieMap<S, M, H, A>,
    found: &BTreeMap<Key<A>, Vec<Dot, A>, A>,
) -> Result<Vec<(Dot, Key<A>), A>, Refusal>
    ensures ok { IfOk result (λ gone. All (IsGone (at_keys S.at store.now)) gone.items) }
    ensures err { IsOkUnless result Refusal.OutOfMemory }
{
    let mut gone = Vec::new(alloc);
    for (key, dots) in found {
        add_gone(alloc, &mut gone, store, key, dots)?;
    }
    Ok(gone)
}

// Adds the places of those of the dots that do not stand at the key. The dots that stand there are gathered once, and not
// looked for one by one: a store of many fields would be walked for each.
fn add_gone<S: DotStore<A>, M: Summary<S>, H: PathHash, A: Allocator + Copy>(
    alloc: A,
    gone: &mut Vec<(Dot, Key<A>), A>,
    store: &TrieMap<S, M, H, A>,
    key: &Key<A>,
    dots: &[Dot],
) -> Result<(), Refusal>
    requires { All (IsGone (at_keys S.at store.now)) gone.old.items }
    ensures ok { OnOk result (All (IsGone (at_keys S.at store.now)) gone.new.items) }
    ensures err { IsOkUnless result Refusal.OutOfMemory }
{
    let standing = standing_at(alloc, store, key)?;
    let added = add_absent(alloc, gone, store, &standing, key, dots);
    drop(standing);
    added
}

// Adds the places of those of the dots that are not among those that stand at the key.
fn add_absent<S: DotStore<A>, M: Summary<S>, H: PathHash, A: Allocator + Copy>(
    alloc: A,
    gone: &mut Vec<(Dot, Key<A>), A>,
    store: &TrieMap<S, M, H, A>,
    standing: &Context<A>,
    key: &Key<A>,
    dots: &[Dot],
) -> Result<(), Refusal>
    requires gone { All (IsGone (at_keys S.at store.now)) gone.old.items }
    requires standing { (place : S.Place) (d : DotValue)
        → IsSome (at_keys S.at store.now (key.now, place) d) → IsTrue (has standing.now d) }
    ensures ok { OnOk result (All (IsGone (at_keys S.at store.now)) gone.new.items) }
    ensures err { IsOkUnless result Refusal.OutOfMemory }
{
    // proof: the clauses speak of the store, and nothing else does.
    let _ = store;
    for dot in dots {
        if !standing.contains(*dot) {
            gone.push((*dot, key.copy(alloc)?))?;
        }
    }
    Ok(())
}

// The dots that stand at the key.
fn standing_at<S: DotStore<A>, M: Summary<S>, H: PathHash, A: Allocator + Copy>(
    alloc: A,
    store: &TrieMap<S, M, H, A>,
    key: &Key<A>,
) -> Result<Context<A>, Refusal>
    ensures all { IfOk result (λ dots. (place : S.Place) (d : DotValue)
        → IsSome (at_keys S.at store.now (key.now, place) d) → IsTrue (has dots d)) }
    ensures err { IsOkUnless result Refusal.OutOfMemory }
{
    match store.get(key) {
        Some(found) => found.dots(alloc),
        None => Ok(Context::new(alloc)),
    }
}

// Whether the delta knows the dot and does not hold it at the key.
fn is_ended<S: DotStore<A>, A: Allocator + Copy>(
    alloc: A,
    delta: &Causal<DotMap<Key<A>, S, A>, A>,
    key: &Key<A>,
    dot: Dot,
) -> bool
    ensures { IsTrue result → IsEnded (at_stores S.at bytes_cmp delta.now.0) (has delta.now.1) (dot, key.now) }
{
    let empty = S::empty(alloc);
    let store = delta.store().get(key).unwrap_or(&empty);
    if !delta.context().contains(dot) {
        return false;
    }
    !store.contains(dot)
}

// Names the keys no more for those dots of these places that the delta, which was joined in, knows and does not hold there. Takes no memory.
pub(crate) fn cut_ended<S: DotStore<A>, M: Summary<S>, H: PathHash, A: Allocator + Copy>(
    alloc: A,
    index: &mut Index<A>,
    store: &TrieMap<S, M, H, A>,
    delta: &Causal<DotMap<Key<A>, S, A>, A>,
    places: &[(Dot, Key<A>)],
)
    requires gone { (e : PlaceValue) → IsEnded (at_stores S.at bytes_cmp delta.now.0) (has delta.now.1) e → IsGone (at_keys S.at store.now) e }
    requires indexed { IsIndexed (at_keys S.at store.now) index.old }
    ensures { IsIndexed (at_keys S.at store.now) index.new }
{
    // proof: the clauses speak of the store, and nothing else does.
    let _ = store;
    for place in places {
        if is_ended(alloc, delta, &place.1, place.0) {
            index.remove(place);
        }
    }
}

// Names the keys of these places no more for their dots.
pub(crate) fn cut_all<S: DotStore<A>, M: Summary<S>, H: PathHash, A: Allocator + Copy>(
    index: &mut Index<A>,
    store: &TrieMap<S, M, H, A>,
    places: &[(Dot, Key<A>)],
)
    requires gone { All (IsGone (at_keys S.at store.now)) places.now }
    requires indexed { IsIndexed (at_keys S.at store.now) index.old }
    ensures { IsIndexed (at_keys S.at store.now) index.new }
{
    // proof: the clauses speak of the store, and nothing else does.
    let _ = store;
    for place in places {
        index.remove(place);
    }
}
