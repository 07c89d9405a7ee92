// The keys that the close of a synchronisation can change, and the join at these keys.
ghost use Rattle.std.specs.Prelude.{◌≡◌, ◌≤◌, ◌<◌, false, ℕ, List, IsTrue, IsSome, IfOk, OnOk, IsOkUnless};
ghost use Rattle.std.specs.List.{All};
ghost use Rattle.std.specs.FinMap as finite;
ghost use Rattle.causal_context.specs.Context.{has, known_up_to};
ghost use Rattle.dot_store.specs.Store.{HoldsSame, state_with};
ghost use Rattle.dots.specs.Dot.{DotValue};
ghost use Rattle.live_map.specs.Closing.{stores_of, ChangesOnlyAt, IsTouchedSince};
ghost use Rattle.live_map.specs.Index.{names, has_key};
ghost use Rattle.op_model.specs.State.{join};
ghost use Rattle.trie_map.specs.Joined.{IsJoinedAt, IsEitherAt};
ghost use Rattle.trie_map.specs.Keyed.{at_keys};

use crate::dot_span::dot_at;
use crate::index::Index;
use crate::touched::Touched;
use crate::touching::{join_at_keys, name_store};
use causal_context::Context;
use dot_store::DotStore;
use dots::{Dot, Key, Name, Refusal};
use gen_trie::{Frozen, NoSummary, Summary};
use hash_path::PathHash;
use std::alloc::Allocator;
use std::collections::BTreeSet;
use trie_map::{Draft, TrieMap};

// Adds the keys that were touched, and those that are named for dots of the context that were not seen.
pub(crate) fn touch_since<H: PathHash, A: Allocator + Copy>(
    alloc: A,
    keys: &mut Touched<A>,
    index: &Index<A>,
    seen: &Context<A>,
    touched: &Frozen<(), NoSummary, H, A>,
    context: &Context<A>,
) -> Result<(), Refusal>
    ensures ok { OnOk result (IsTouchedSince index.now touched.now.map (has seen.now) (has context.now) keys.new) }
    ensures err { IsOkUnless result Refusal.OutOfMemory }
{
    add_touched(alloc, keys, touched)?;
    add_vector_since(alloc, keys, index, seen, context.vector())?;
    add_cloud_since(alloc, keys, index, seen, context.cloud())
}

// Adds the keys that were touched.
fn add_touched<H: PathHash, A: Allocator + Copy>(
    alloc: A,
    keys: &mut Touched<A>,
    touched: &Frozen<(), NoSummary, H, A>,
) -> Result<(), Refusal>
    ensures there { OnOk result ((q : List ℕ) → IsSome (finite.get touched.now.map q) → IsTrue (has_key keys.new q)) }
    ensures err { IsOkUnless result Refusal.OutOfMemory }
{
    for (key, _) in touched.iter() {
        keys.add(alloc, key)?;
    }
    Ok(())
}

// Adds the keys that are named for dots of the vector above what was seen of their names.
fn add_vector_since<A: Allocator + Copy>(
    alloc: A,
    keys: &mut Touched<A>,
    index: &Index<A>,
    seen: &Context<A>,
    vector: &[(Name, u64)],
) -> Result<(), Refusal>
    ensures there { OnOk result (All (λ entry. (d : DotValue) (q : List ℕ) → d.name ≡ entry.0
        → known_up_to seen.now.vector entry.0 < d.number → d.number ≤ entry.1
        → IsTrue (names index.now d q) → IsTrue (has_key keys.new q)) vector.now) }
    ensures kept { (q : List ℕ) → IsTrue (has_key keys.old q) → IsTrue (has_key keys.new q) }
    ensures err { IsOkUnless result Refusal.OutOfMemory }
{
    for (name, last) in vector {
        find_above(alloc, keys, index, *name, seen.entry(*name), *last)?;
    }
    Ok(())
}

// Adds the keys that are named for dots of the name above the number up to the last.
fn find_above<A: Allocator + Copy>(
    alloc: A,
    keys: &mut Touched<A>,
    index: &Index<A>,
    name: Name,
    number: u64,
    last: u64,
) -> Result<(), Refusal>
    ensures there { OnOk result ((d : DotValue) (q : List ℕ) → d.name ≡ name → number < d.number → d.number ≤ last
        → IsTrue (names index.now d q) → IsTrue (has_key keys.new q)) }
    ensures kept { (q : List ℕ) → IsTrue (has_key keys.old q) → IsTrue (has_key keys.new q) }
    ensures err { IsOkUnless result Refusal.OutOfMemory }
{
    if last <= number {
        return Ok(());
    }
    index.find(alloc, dot_at(name, number + 1), last, keys)
}

// Adds the keys that are named for dots of the cloud that were not seen.
fn add_cloud_since<A: Allocator + Copy>(
    alloc: A,
    keys: &mut Touched<A>,
    index: &Index<A>,
    seen: &Context<A>,
    cloud: &[Dot],
) -> Result<(), Refusal>
    ensures there { OnOk result (All (λ d. has seen.now d ≡ false → (q : List ℕ) → IsTrue (names index.now d q)
        → IsTrue (has_key keys.new q)) cloud.now) }
    ensures kept { (q : List ℕ) → IsTrue (has_key keys.old q) → IsTrue (has_key keys.new q) }
    ensures err { IsOkUnless result Refusal.OutOfMemory }
{
    for dot in cloud {
        find_unseen(alloc, keys, index, seen, *dot)?;
    }
    Ok(())
}

// Adds the keys that are named for the dot, unless it was seen.
fn find_unseen<A: Allocator + Copy>(
    alloc: A,
    keys: &mut Touched<A>,
    index: &Index<A>,
    seen: &Context<A>,
    dot: Dot,
) -> Result<(), Refusal>
    ensures there { OnOk result (has seen.now dot ≡ false → (q : List ℕ) → IsTrue (names index.now dot q) → IsTrue (has_key keys.new q)) }
    ensures kept { (q : List ℕ) → IsTrue (has_key keys.old q) → IsTrue (has_key keys.new q) }
    ensures err { IsOkUnless result Refusal.OutOfMemory }
{
    if seen.contains(dot) {
        return Ok(());
    }
    index.find(alloc, dot, dot.number(), keys)
}

// The store with what the trie holds joined in at the touched keys.
pub(crate) fn closed<S: DotStore<A>, M: Summary<S>, H: PathHash, A: Allocator + Copy>(
    alloc: A,
    mine: &TrieMap<S, M, H, A>,
    own: &Context<A>,
    built: &Frozen<S, M, H, A>,
    theirs: &Context<A>,
    touched: &Touched<A>,
) -> Result<TrieMap<S, M, H, A>, Refusal>
    requires { ChangesOnlyAt S.greater (at_keys S.at mine.now) (has own.now) (at_keys S.at (stores_of built.now)) (has theirs.now)
        touched.now }
    ensures hash { IfOk result (λ both. both.0 ≡ mine.now.0) }
    ensures ok { IfOk result (λ both. HoldsSame (at_keys S.at both) (join S.greater (state_with (at_keys S.at mine.now) (has own.now))
        (state_with (at_keys S.at (stores_of built.now)) (has theirs.now))).at) }
    ensures err { IsOkUnless result Refusal.OutOfMemory }
{
    let keys = touched.key_set(alloc)?;
    let both = closed_at(alloc, mine, own, built, theirs, &keys);
    drop(keys);
    both
}

// The store with what the trie holds joined in at these keys.
fn closed_at<S: DotStore<A>, M: Summary<S>, H: PathHash, A: Allocator + Copy>(
    alloc: A,
    mine: &TrieMap<S, M, H, A>,
    own: &Context<A>,
    built: &Frozen<S, M, H, A>,
    theirs: &Context<A>,
    keys: &BTreeSet<Key<A>, A>,
) -> Result<TrieMap<S, M, H, A>, Refusal>
    requires { ChangesOnlyAt S.greater (at_keys S.at mine.now) (has own.now) (at_keys S.at (stores_of built.now)) (has theirs.now)
        keys.now.keys }
    ensures hash { IfOk result (λ both. both.0 ≡ mine.now.0) }
    ensures ok { IfOk result (λ both. HoldsSame (at_keys S.at both) (join S.greater (state_with (at_keys S.at mine.now) (has own.now))
        (state_with (at_keys S.at (stores_of built.now)) (has theirs.now))).at) }
    ensures err { IsOkUnless result Refusal.OutOfMemory }
{
    let mut draft = mine.draft()?;
    if let Err(refusal) = join_at_keys(alloc, &mut draft, mine, own, built, theirs, keys) {
        drop(draft);
        return Err(refusal);
    }
    draft.finish()
}

// Names the touched keys for the dots that the trie holds there and that are not known. A refused call may have named some.
pub(crate) fn name_built<S: DotStore<A>, M: Summary<S>, H: PathHash, A: Allocator + Copy>(
    alloc: A,
    index: &mut Index<A>,
    built: &Frozen<S, M, H, A>,
    touched: &Touched<A>,
    known: &Context<A>,
) -> Result<(), Refusal>
    ensures there { OnOk result ((q : List ℕ) → IsTrue (has_key touched.now q) → (place : S.Place) (d : DotValue)
        → IsSome (at_keys S.at (stores_of built.now) (q, place) d) → has known.now d ≡ false → IsTrue (names index.new d q)) }
    ensures kept { (d : DotValue) (q : List ℕ) → IsTrue (names index.old d q) → IsTrue (names index.new d q) }
    ensures err { IsOkUnless result Refusal.OutOfMemory }
{
    let keys = touched.key_set(alloc)?;
    let named = name_keys(alloc, index, built, &keys, known);
    drop(keys);
    named
}

// Names these keys for the dots that the trie holds there and that are not known. A refused call may have named some.
fn name_keys<S: DotStore<A>, M: Summary<S>, H: PathHash, A: Allocator + Copy>(
    alloc: A,
    index: &mut Index<A>,
    built: &Frozen<S, M, H, A>,
    keys: &BTreeSet<Key<A>, A>,
    known: &Context<A>,
) -> Result<(), Refusal>
    ensures there { OnOk result ((q : List ℕ) → IsTrue (has_key keys.now.keys q) → (place : S.Place) (d : DotValue)
        → IsSome (at_keys S.at (stores_of built.now) (q, place) d) → has known.now d ≡ false → IsTrue (names index.new d q)) }
    ensures kept { (d : DotValue) (q : List ℕ) → IsTrue (names index.old d q) → IsTrue (names index.new d q) }
    ensures err { IsOkUnless result Refusal.OutOfMemory }
{
    for key in keys {
        name_key(alloc, index, built, key, known)?;
    }
    Ok(())
}

// Names the key for the dots that the trie holds there and that are not known. A refused call may have named some.
fn name_key<S: DotStore<A>, M: Summary<S>, H: PathHash, A: Allocator + Copy>(
    alloc: A,
    index: &mut Index<A>,
    built: &Frozen<S, M, H, A>,
    key: &Key<A>,
    known: &Context<A>,
) -> Result<(), Refusal>
    ensures there { OnOk result ((place : S.Place) (d : DotValue) → IsSome (at_keys S.at (stores_of built.now) (key.now, place) d)
        → has known.now d ≡ false → IsTrue (names index.new d key.now)) }
    ensures kept { (d : DotValue) (q : List ℕ) → IsTrue (names index.old d q) → IsTrue (names index.new d q) }
    ensures err { IsOkUnless result Refusal.OutOfMemory }
{
    let empty = S::empty(alloc);
    let store = built.lookup(key).unwrap_or(&empty);
    name_store(alloc, index, key, store, known)
}
