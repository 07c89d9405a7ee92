// The join of a delta at the one key that it can change, in place: all that may be refused comes first, and what is written last.
ghost use Rattle.std.specs.Prelude.{◌≡◌, ◌+◌, ◌||◌, false, ℕ, List, None, Option, Contains, IsTrue, IfOk, OnOk, OnErr, IsOkUnless};
ghost use Rattle.std.specs.FinMap as finite;
ghost use Rattle.std.specs.List.{All};
ghost use Rattle.causal_context.specs.Canonical.{IsCanonical};
ghost use Rattle.causal_context.specs.Context.{has};
ghost use Rattle.causal_context.specs.Growth.{IsGrowth};
ghost use Rattle.causal_join.specs.Causal.{state_of};
ghost use Rattle.dot_store.specs.Store.{HoldsSame, state_with};
ghost use Rattle.dot_store.specs.Stores.{at_stores};
ghost use Rattle.dots.specs.Bytes.{bytes_cmp};
ghost use Rattle.dots.specs.Dot.{DotValue, same_dot};
ghost use Rattle.op_model.specs.State.{join, IsInside};
ghost use Rattle.live_map.specs.Index.{has_key, AreAllTouched};
ghost use Rattle.live_map.specs.OneKey.{IsAboveEntry, IsJoinedIn, IsMadeAt, IsRaise};
ghost use Rattle.trie_map.specs.Here.{JoinsHere, Writes};
ghost use Rattle.trie_map.specs.Keyed.{at_keys};

use crate::touched::Touched;
use causal_context::{Context, Growth};
use causal_join::Causal;
use dot_store::{DotMap, DotStore};
use dots::{Dot, Key, Refusal};
use gen_trie::Summary;
use hash_path::PathHash;
use std::alloc::Allocator;
use std::mem;
use trie_map::TrieMap;

// Joins the delta into the store and the context, where it can change this key of the store alone. A refused call leaves both.
pub(crate) fn join_at_one<S: DotStore<A>, M: Summary<S>, H: PathHash, A: Allocator + Copy>(
    alloc: A,
    store: &mut TrieMap<S, M, H, A>,
    context: &mut Context<A>,
    delta: &Causal<DotMap<Key<A>, S, A>, A>,
    touched: &Touched<A>,
    key: &Key<A>,
) -> Result<(), Refusal>
    requires inside { IsInside (state_of (at_keys S.at) (store.old, context.old)) }
    requires all { AreAllTouched (at_keys S.at store.old) (at_stores S.at bytes_cmp delta.now.0) (has delta.now.1) touched.now }
    requires only { (q : List ℕ) → IsTrue (has_key touched.now q) → q ≡ key.now }
    ensures hash { store.new.0 ≡ store.old.0 }
    ensures ok { OnOk result (HoldsSame (at_keys S.at store.new) (join S.greater (state_with (at_keys S.at store.old) (has context.old))
        (state_of (at_stores S.at bytes_cmp) delta.now)).at) }
    ensures known { OnOk result ((d : DotValue) → has context.new d ≡ (has context.old d || has delta.now.1 d)) }
    ensures inside { OnOk result (IsInside (state_of (at_keys S.at) (store.new, context.new))) }
    ensures store { OnErr result (store.new ≡ store.old) }
    ensures context { OnErr result (context.new ≡ context.old) }
    ensures err { IsOkUnless result Refusal.OutOfMemory }
{
    match context.growth(delta.context()) {
        Growth::One(dot) if can_raise(context, dot) => {
            join_raising(alloc, store, context, delta, touched, key, dot)
        }
        growth => join_anew(alloc, store, context, delta, touched, key, growth),
    }
}

// Joins the delta in, whose one new dot is just above the entry of its name: in place, where something stands at the key.
fn join_raising<S: DotStore<A>, M: Summary<S>, H: PathHash, A: Allocator + Copy>(
    alloc: A,
    store: &mut TrieMap<S, M, H, A>,
    context: &mut Context<A>,
    delta: &Causal<DotMap<Key<A>, S, A>, A>,
    touched: &Touched<A>,
    key: &Key<A>,
    dot: Dot,
) -> Result<(), Refusal>
    requires raise { IsRaise context.old delta.now.1 dot }
    requires inside { IsInside (state_of (at_keys S.at) (store.old, context.old)) }
    requires all { AreAllTouched (at_keys S.at store.old) (at_stores S.at bytes_cmp delta.now.0) (has delta.now.1) touched.now }
    requires only { (q : List ℕ) → IsTrue (has_key touched.now q) → q ≡ key.now }
    ensures hash { store.new.0 ≡ store.old.0 }
    ensures ok { OnOk result (HoldsSame (at_keys S.at store.new) (join S.greater (state_with (at_keys S.at store.old) (has context.old))
        (state_of (at_stores S.at bytes_cmp) delta.now)).at) }
    ensures known { OnOk result ((d : DotValue) → has context.new d ≡ (has context.old d || has delta.now.1 d)) }
    ensures store { OnErr result (store.new ≡ store.old) }
    ensures context { OnErr result (context.new ≡ context.old) }
    ensures err { IsOkUnless result Refusal.OutOfMemory }
{
    if !join_in(alloc, store, context, delta, key, dot)? {
        return join_anew(alloc, store, context, delta, touched, key, Growth::One(dot));
    }
    context.raise(dot);
    Ok(())
}

// Whether the entry of the dot's name can be raised to the dot as it stands: there is one, the dot is the next, which is unknown then,
// and none above it is known.
pub(crate) fn can_raise<A: Allocator + Copy>(own: &Context<A>, dot: Dot) -> bool
    ensures above { IsTrue result → IsAboveEntry own.now dot }
    ensures fresh { IsTrue result → has own.now dot ≡ false }
{
    let entry = own.entry(dot.name());
    entry != 0 && dot.number() - 1 == entry && !own.contains_above(dot)
}

// Joins what the delta holds at the key into what stands there, in place, and tells whether it did: it does so where the delta holds
// the dot there, which is new, and knows no run of dots.
fn join_in<S: DotStore<A>, M: Summary<S>, H: PathHash, A: Allocator + Copy>(
    alloc: A,
    mine: &mut TrieMap<S, M, H, A>,
    own: &Context<A>,
    delta: &Causal<DotMap<Key<A>, S, A>, A>,
    key: &Key<A>,
    dot: Dot,
) -> Result<bool, Refusal>
    requires fresh { has own.now dot ≡ false }
    requires inside { IsInside (state_of (at_keys S.at) (mine.old, own.now)) }
    ensures hash { mine.new.0 ≡ mine.old.0 }
    ensures ok { IfOk result (λ done. IsTrue done
        → IsJoinedIn S.at S.greater mine.old.1 mine.new.1 key.now (has own.now) (at_stores S.at bytes_cmp delta.now.0) (has delta.now.1)) }
    ensures absent { IfOk result (λ done. done ≡ false → mine.new ≡ mine.old) }
    ensures unchanged { OnErr result (mine.new ≡ mine.old) }
    ensures err { IsOkUnless result Refusal.OutOfMemory }
{
    let theirs = delta.context();
    let empty = S::empty(alloc);
    let yours = delta.store().get(key).unwrap_or(&empty);
    if !theirs.vector().is_empty() || !yours.contains(dot) {
        return Ok(false);
    }
    let found = known_of(alloc, own, theirs.cloud())?;
    let there = mine.join_in(alloc, key, own, yours, theirs, &found);
    drop(found);
    if !there? {
        put_first(alloc, mine, own, yours, theirs, key)?;
    }
    Ok(true)
}

// Puts the join with the other store at the key, at which nothing stands.
fn put_first<S: DotStore<A>, M: Summary<S>, H: PathHash, A: Allocator + Copy>(
    alloc: A,
    mine: &mut TrieMap<S, M, H, A>,
    own: &Context<A>,
    yours: &S,
    theirs: &Context<A>,
    key: &Key<A>,
) -> Result<(), Refusal>
    requires { finite.get mine.old.1 key.now ≡ None }
    ensures hash { mine.new.0 ≡ mine.old.0 }
    ensures ok { OnOk result (JoinsHere S.at S.greater mine.old.1 mine.new.1 key.now (has own.now) yours.now (has theirs.now)) }
    ensures unchanged { OnErr result (mine.new ≡ mine.old) }
    ensures err { IsOkUnless result Refusal.OutOfMemory }
{
    let empty = S::empty(alloc);
    let both = empty.join(alloc, own, yours, theirs)?;
    mine.put(alloc, key, both)
}

// Those of the dots that the context knows.
fn known_of<A: Allocator + Copy>(
    alloc: A,
    context: &Context<A>,
    dots: &[Dot],
) -> Result<Vec<Dot, A>, Refusal>
    ensures ok { IfOk result (λ known. All (λ d. IsTrue (has context.now d) → Contains known.items d) dots.now) }
    ensures err { IsOkUnless result Refusal.OutOfMemory }
{
    let mut known = Vec::new(alloc);
    for dot in dots {
        add_known(context, &mut known, *dot)?;
    }
    Ok(known)
}

// Adds the dot where the context knows it.
fn add_known<A: Allocator + Copy>(
    context: &Context<A>,
    known: &mut Vec<Dot, A>,
    dot: Dot,
) -> Result<(), Refusal>
    ensures there { OnOk result (IsTrue (has context.now dot) → Contains known.new.items dot) }
    ensures kept { (d : DotValue) → Contains known.old.items d → Contains known.new.items d }
    ensures err { IsOkUnless result Refusal.OutOfMemory }
{
    if context.contains(dot) {
        known.push(dot)?;
    }
    Ok(())
}

// Joins the delta in, by a new store for the key.
fn join_anew<S: DotStore<A>, M: Summary<S>, H: PathHash, A: Allocator + Copy>(
    alloc: A,
    store: &mut TrieMap<S, M, H, A>,
    context: &mut Context<A>,
    delta: &Causal<DotMap<Key<A>, S, A>, A>,
    touched: &Touched<A>,
    key: &Key<A>,
    growth: Growth,
) -> Result<(), Refusal>
    requires growth { IsGrowth context.old delta.now.1 growth }
    requires all { AreAllTouched (at_keys S.at store.old) (at_stores S.at bytes_cmp delta.now.0) (has delta.now.1) touched.now }
    requires only { (q : List ℕ) → IsTrue (has_key touched.now q) → q ≡ key.now }
    ensures hash { store.new.0 ≡ store.old.0 }
    ensures ok { OnOk result (HoldsSame (at_keys S.at store.new) (join S.greater (state_with (at_keys S.at store.old) (has context.old))
        (state_of (at_stores S.at bytes_cmp) delta.now)).at) }
    ensures known { OnOk result ((d : DotValue) → has context.new d ≡ (has context.old d || has delta.now.1 d)) }
    ensures store { OnErr result (store.new ≡ store.old) }
    ensures context { OnErr result (context.new ≡ context.old) }
    ensures err { IsOkUnless result Refusal.OutOfMemory }
{
    // proof: the clause `only` speaks of the keys, and nothing else does.
    let _ = touched;
    let made = made_at(alloc, store, context, delta, key)?;
    write_knowing(alloc, store, context, key, made, delta.context(), growth)
}

// What is to stand at the key once the delta is joined in, or None where that is what stands there.
pub(crate) fn made_at<S: DotStore<A>, M: Summary<S>, H: PathHash, A: Allocator + Copy>(
    alloc: A,
    mine: &TrieMap<S, M, H, A>,
    own: &Context<A>,
    delta: &Causal<DotMap<Key<A>, S, A>, A>,
    key: &Key<A>,
) -> Result<Option<S>, Refusal>
    ensures ok { IfOk result (IsMadeAt S.at S.greater mine.now.1 key.now (has own.now) (at_stores S.at bytes_cmp delta.now.0) (has delta.now.1)) }
    ensures err { IsOkUnless result Refusal.OutOfMemory }
{
    let empty = S::empty(alloc);
    let yours = delta.store().get(key).unwrap_or(&empty);
    mine.joined_at(alloc, key, own, yours, delta.context())
}

// Writes the store at the key, where there is one, and adds what the other context knows.
fn write_knowing<S: DotStore<A>, M: Summary<S>, H: PathHash, A: Allocator + Copy>(
    alloc: A,
    store: &mut TrieMap<S, M, H, A>,
    context: &mut Context<A>,
    key: &Key<A>,
    made: Option<S>,
    theirs: &Context<A>,
    growth: Growth,
) -> Result<(), Refusal>
    requires { IsGrowth context.old theirs.now growth }
    ensures hash { store.new.0 ≡ store.old.0 }
    ensures ok { OnOk result (Writes S.at store.old.1 store.new.1 key.now made) }
    ensures known { OnOk result ((d : DotValue) → has context.new d ≡ (has context.old d || has theirs.now d)) }
    ensures store { OnErr result (store.new ≡ store.old) }
    ensures context { OnErr result (context.new ≡ context.old) }
    ensures err { IsOkUnless result Refusal.OutOfMemory }
{
    match growth {
        Growth::Nothing => write(alloc, store, key, made),
        Growth::One(dot) if !context.contains_above(dot) => {
            write_adding(alloc, store, context, key, made, dot)
        }
        _ => write_uniting(alloc, store, context, key, made, theirs),
    }
}

// Writes the store at the key, where there is one.
pub(crate) fn write<S: DotStore<A>, M: Summary<S>, H: PathHash, A: Allocator + Copy>(
    alloc: A,
    store: &mut TrieMap<S, M, H, A>,
    key: &Key<A>,
    made: Option<S>,
) -> Result<(), Refusal>
    ensures hash { store.new.0 ≡ store.old.0 }
    ensures ok { OnOk result (Writes S.at store.old.1 store.new.1 key.now made) }
    ensures unchanged { OnErr result (store.new ≡ store.old) }
    ensures err { IsOkUnless result Refusal.OutOfMemory }
{
    match made {
        Some(both) => store.put(alloc, key, both),
        None => Ok(()),
    }
}

// Writes the store at the key, where there is one, and adds a dot, above which none is known. The dot comes first, and is taken
// out again where the store is not written: that needs no memory.
pub(crate) fn write_adding<S: DotStore<A>, M: Summary<S>, H: PathHash, A: Allocator + Copy>(
    alloc: A,
    store: &mut TrieMap<S, M, H, A>,
    context: &mut Context<A>,
    key: &Key<A>,
    made: Option<S>,
    dot: Dot,
) -> Result<(), Refusal>
    requires canonical { IsCanonical context.old }
    requires fresh { has context.old dot ≡ false }
    requires last { has context.old (record { name = dot.name; number = dot.number + 1 }) ≡ false }
    ensures hash { store.new.0 ≡ store.old.0 }
    ensures ok { OnOk result (Writes S.at store.old.1 store.new.1 key.now made) }
    ensures known { OnOk result ((d : DotValue) → has context.new d ≡ (same_dot dot d || has context.old d)) }
    ensures store { OnErr result (store.new ≡ store.old) }
    ensures context { OnErr result (context.new ≡ context.old) }
    ensures err { IsOkUnless result Refusal.OutOfMemory }
{
    if let Err(refusal) = context.add(dot) {
        drop(made);
        return Err(refusal);
    }
    if let Err(refusal) = write(alloc, store, key, made) {
        context.take_out(dot);
        return Err(refusal);
    }
    Ok(())
}

// Writes the store at the key, where there is one, and puts the union of both contexts in the place of the first.
fn write_uniting<S: DotStore<A>, M: Summary<S>, H: PathHash, A: Allocator + Copy>(
    alloc: A,
    store: &mut TrieMap<S, M, H, A>,
    context: &mut Context<A>,
    key: &Key<A>,
    made: Option<S>,
    theirs: &Context<A>,
) -> Result<(), Refusal>
    ensures hash { store.new.0 ≡ store.old.0 }
    ensures ok { OnOk result (Writes S.at store.old.1 store.new.1 key.now made) }
    ensures known { OnOk result ((d : DotValue) → has context.new d ≡ (has context.old d || has theirs.now d)) }
    ensures store { OnErr result (store.new ≡ store.old) }
    ensures context { OnErr result (context.new ≡ context.old) }
    ensures err { IsOkUnless result Refusal.OutOfMemory }
{
    let next = match context.union(alloc, theirs) {
        Ok(next) => next,
        Err(refusal) => {
            drop(made);
            return Err(refusal);
        }
    };
    if let Err(refusal) = write(alloc, store, key, made) {
        drop(next);
        return Err(refusal);
    }
    drop(mem::replace(context, next));
    Ok(())
}
