// The join of a delta that brings one dot to one key, at which nothing stands: what it holds there is what will stand there.
ghost use Rattle.std.specs.Prelude.{◌≡◌, ◌+◌, ◌||◌, false, ℕ, List, IsTrue, IfSome, OnOk, OnErr, IsOkUnless};
ghost use Rattle.causal_context.specs.Canonical.{IsCanonical};
ghost use Rattle.causal_context.specs.Context.{has};
ghost use Rattle.causal_context.specs.Growth.{IsOnlyNew};
ghost use Rattle.causal_join.specs.Causal.{state_of};
ghost use Rattle.dot_store.specs.Store.{HoldsSame, state_with};
ghost use Rattle.dot_store.specs.Stores.{at_stores};
ghost use Rattle.dots.specs.Bytes.{bytes_cmp};
ghost use Rattle.dots.specs.Dot.{DotValue, same_dot};
ghost use Rattle.op_model.specs.State.{join, IsInside};
ghost use Rattle.live_map.specs.Index.{names, IsIndexed};
ghost use Rattle.live_map.specs.OneKey.{HasNoOther, IsAtNewKey};
ghost use Rattle.trie_map.specs.Here.{IsWritten};
ghost use Rattle.trie_map.specs.Keyed.{at_keys};

use crate::index::Index;
use crate::one_key::write_adding;
use causal_context::Context;
use causal_join::Causal;
use dot_store::{DotMap, DotStore};
use dots::{Dot, Key, Refusal};
use gen_trie::Summary;
use hash_path::PathHash;
use std::alloc::Allocator;
use trie_map::TrieMap;

// The one dot that the other context has, where that is new here and the one above it is not known.
fn next_of<A: Allocator + Copy>(own: &Context<A>, theirs: &Context<A>) -> Option<Dot>
    ensures canonical { IfSome result (λ _. IsCanonical own.now) }
    ensures only_new { IfSome result (IsOnlyNew (has own.now) (has theirs.now) (has theirs.now)) }
    ensures last { IfSome result (λ dot. has own.now (record { name = dot.name; number = dot.number + 1 }) ≡ false) }
    ensures only { IfSome result (HasNoOther (has theirs.now)) }
{
    let [dot] = theirs.cloud() else {
        return None;
    };
    if !theirs.vector().is_empty() || own.contains(*dot) || own.contains_above(*dot) {
        return None;
    }
    Some(*dot)
}

// The dot that the delta brings, where it knows no other, the context knows neither it nor the one above it, and something is held at one
// key alone, at which nothing stands.
pub(crate) fn dot_at_new_key<S: DotStore<A>, M: Summary<S>, H: PathHash, A: Allocator + Copy>(
    store: &TrieMap<S, M, H, A>,
    context: &Context<A>,
    delta: &Causal<DotMap<Key<A>, S, A>, A>,
) -> Option<Dot>
    ensures { IfSome result (λ dot. IsAtNewKey store.now context.now delta.now.0 delta.now.1 dot) }
{
    let dot = next_of(context, delta.context())?;
    let [(key, _)] = delta.store().entries() else {
        return None;
    };
    if store.get(key).is_some() {
        return None;
    }
    Some(dot)
}

// Joins such a delta in, which stays: what it holds is copied. A refused call leaves the store and the context.
pub(crate) fn copy_at_new_key<S: DotStore<A>, M: Summary<S>, H: PathHash, A: Allocator + Copy>(
    alloc: A,
    store: &mut TrieMap<S, M, H, A>,
    context: &mut Context<A>,
    index: &mut Index<A>,
    delta: &Causal<DotMap<Key<A>, S, A>, A>,
    dot: Dot,
) -> Result<(), Refusal>
    requires inside { IsInside (state_of (at_keys S.at) (store.old, context.old)) }
    requires indexed { IsIndexed (at_keys S.at store.old) index.old }
    requires new { IsAtNewKey store.old context.old delta.now.0 delta.now.1 dot }
    ensures hash { store.new.0 ≡ store.old.0 }
    ensures ok { OnOk result (HoldsSame (at_keys S.at store.new)
        (join S.greater (state_with (at_keys S.at store.old) (has context.old)) (state_of (at_stores S.at bytes_cmp) delta.now)).at) }
    ensures known { OnOk result ((d : DotValue) → has context.new d ≡ (has context.old d || has delta.now.1 d)) }
    ensures inside { IsInside (state_of (at_keys S.at) (store.new, context.new)) }
    ensures indexed { IsIndexed (at_keys S.at store.new) index.new }
    ensures store { OnErr result (store.new ≡ store.old) }
    ensures context { OnErr result (context.new ≡ context.old) }
    ensures err { IsOkUnless result Refusal.OutOfMemory }
{
    let [(key, yours)] = delta.store().entries() else {
        unreachable!();
    };
    put_copied(alloc, store, context, index, key, yours, dot)?;
    Ok(())
}

// Joins such a delta in, and takes what it holds. A refused call leaves the store and the context.
pub(crate) fn take_at_new_key<S: DotStore<A>, M: Summary<S>, H: PathHash, A: Allocator + Copy>(
    alloc: A,
    store: &mut TrieMap<S, M, H, A>,
    context: &mut Context<A>,
    index: &mut Index<A>,
    delta: Causal<DotMap<Key<A>, S, A>, A>,
    dot: Dot,
) -> Result<(), Refusal>
    requires inside { IsInside (state_of (at_keys S.at) (store.old, context.old)) }
    requires indexed { IsIndexed (at_keys S.at store.old) index.old }
    requires new { IsAtNewKey store.old context.old delta.0 delta.1 dot }
    ensures hash { store.new.0 ≡ store.old.0 }
    ensures ok { OnOk result (HoldsSame (at_keys S.at store.new)
        (join S.greater (state_with (at_keys S.at store.old) (has context.old)) (state_of (at_stores S.at bytes_cmp) delta)).at) }
    ensures known { OnOk result ((d : DotValue) → has context.new d ≡ (has context.old d || has delta.1 d)) }
    ensures inside { IsInside (state_of (at_keys S.at) (store.new, context.new)) }
    ensures indexed { IsIndexed (at_keys S.at store.new) index.new }
    ensures store { OnErr result (store.new ≡ store.old) }
    ensures context { OnErr result (context.new ≡ context.old) }
    ensures err { IsOkUnless result Refusal.OutOfMemory }
{
    // proof: `entries` promises what it holds there, and nowhere else.
    let _ = delta.store().entries();
    let (brought, theirs) = delta.into_parts();
    drop(theirs);
    let mut entries = brought.into_entries();
    let Some((key, yours)) = entries.pop() else {
        unreachable!();
    };
    drop(entries);
    put_named(alloc, store, context, index, key, yours, dot)?;
    Ok(())
}

// Puts a copy of the store at the key, adds the dot, and names the key for it.
fn put_copied<S: DotStore<A>, M: Summary<S>, H: PathHash, A: Allocator + Copy>(
    alloc: A,
    store: &mut TrieMap<S, M, H, A>,
    context: &mut Context<A>,
    index: &mut Index<A>,
    key: &Key<A>,
    yours: &S,
    dot: Dot,
) -> Result<(), Refusal>
    requires canonical { IsCanonical context.old }
    requires fresh { has context.old dot ≡ false }
    requires last { has context.old (record { name = dot.name; number = dot.number + 1 }) ≡ false }
    ensures hash { store.new.0 ≡ store.old.0 }
    ensures ok { OnOk result (IsWritten S.at store.old.1 store.new.1 key.now yours.now) }
    ensures there { OnOk result (IsTrue (names index.new dot key.now)) }
    ensures kept { (d : DotValue) (q : List ℕ) → IsTrue (names index.old d q) → IsTrue (names index.new d q) }
    ensures known { OnOk result ((d : DotValue) → has context.new d ≡ (same_dot dot d || has context.old d)) }
    ensures store { OnErr result (store.new ≡ store.old) }
    ensures context { OnErr result (context.new ≡ context.old) }
    ensures err { IsOkUnless result Refusal.OutOfMemory }
{
    let copy = yours.copy(alloc)?;
    match key.copy(alloc) {
        Ok(key) => put_named(alloc, store, context, index, key, copy, dot),
        Err(refusal) => {
            drop(copy);
            Err(refusal)
        }
    }
}

// Puts the store at the key, adds the dot, and names the key for it.
fn put_named<S: DotStore<A>, M: Summary<S>, H: PathHash, A: Allocator + Copy>(
    alloc: A,
    store: &mut TrieMap<S, M, H, A>,
    context: &mut Context<A>,
    index: &mut Index<A>,
    key: Key<A>,
    yours: S,
    dot: Dot,
) -> Result<(), Refusal>
    requires canonical { IsCanonical context.old }
    requires fresh { has context.old dot ≡ false }
    requires last { has context.old (record { name = dot.name; number = dot.number + 1 }) ≡ false }
    ensures hash { store.new.0 ≡ store.old.0 }
    ensures ok { OnOk result (IsWritten S.at store.old.1 store.new.1 key yours) }
    ensures there { OnOk result (IsTrue (names index.new dot key)) }
    ensures kept { (d : DotValue) (q : List ℕ) → IsTrue (names index.old d q) → IsTrue (names index.new d q) }
    ensures known { OnOk result ((d : DotValue) → has context.new d ≡ (same_dot dot d || has context.old d)) }
    ensures store { OnErr result (store.new ≡ store.old) }
    ensures context { OnErr result (context.new ≡ context.old) }
    ensures err { IsOkUnless result Refusal.OutOfMemory }
{
    let named = index.add_key(alloc, &key, dot);
    if let Err(refusal) = named {
        drop(yours);
        drop(key);
        return Err(refusal);
    }
    let written = write_adding(alloc, store, context, &key, Some(yours), dot);
    drop(key);
    written
}
