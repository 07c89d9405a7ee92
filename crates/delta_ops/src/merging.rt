// The join of deltas of which each dot is held at one place, as those of one replica's writes: what none of them took away is put at its keys.
ghost use Rattle.std.specs.Prelude.{◌≡◌, ◌⊎◌, ◌||◌, [], None, cond, false, IsTrue, IfOk, IfSome, OnOk, IsOkUnless};
ghost use Rattle.std.specs.Option.{option_or};
ghost use Rattle.causal_context.specs.Context.{has, in_cloud, is_known};
ghost use Rattle.causal_join.specs.OrMap.{or_map_at, or_map_state};
ghost use Rattle.delta_ops.specs.Group.{group_state};
ghost use Rattle.delta_ops.specs.Log.{deltas_of};
ghost use Rattle.delta_ops.specs.Merging.{AddsNew, IsGone, IsMerged};
ghost use Rattle.dots.specs.Dot.{DotValue, same_dot};
ghost use Rattle.op_model.specs.Meaning.{MapState, greater};
ghost use Rattle.op_model.specs.Operation.{has as is_among};
ghost use Rattle.op_model.specs.State.{Same, join};

use crate::erasures::context_of;
use crate::joining::FEW;
use causal_context::Context;
use causal_join::{Causal, Fields, OrMap, OrMapStore};
use dot_store::{DotMap, DotStore};
use dots::{Dot, Key, Name, Refusal};
use std::alloc::{AllocError, Allocator};
use std::collections::{BTreeMap, BTreeSet};
use std::sync::Arc;

// What deltas hold, by key.
type Stores<A> = BTreeMap<Key<A>, Fields<A>, A>;

// The join of the deltas, or None where it is not told so: where of those behind the first two hold something at one key that is not taken away,
// or know one dot that is not, or one knows many dots, or more of a vector than one first number.
pub(crate) fn merged<A: Allocator + Copy>(
    alloc: A,
    deltas: &[Arc<OrMap<A>, A>],
) -> Result<Option<OrMap<A>>, Refusal>
    ensures ok { IfOk result (λ found. IfSome found (λ whole. Same (or_map_state whole) (group_state (deltas_of deltas.now)))) }
    ensures err { IsOkUnless result Refusal.OutOfMemory }
{
    let Some((first, others)) = deltas.split_first() else {
        return Ok(None);
    };
    let Some(newer) = merged_behind(alloc, others)? else {
        return Ok(None);
    };
    let whole = first.join(alloc, &newer);
    drop(newer);
    Ok(Some(whole?))
}

// The join of those behind the first.
fn merged_behind<A: Allocator + Copy>(
    alloc: A,
    deltas: &[Arc<OrMap<A>, A>],
) -> Result<Option<OrMap<A>>, Refusal>
    ensures ok { IfOk result (λ found. IfSome found (λ whole. Same (or_map_state whole) (group_state (deltas_of deltas.now)))) }
    ensures err { IsOkUnless result Refusal.OutOfMemory }
{
    let gone = gone_of(alloc, deltas)?;
    let found = merged_but(alloc, deltas, &gone);
    drop(gone);
    found
}

// The same, where these dots are gone.
fn merged_but<A: Allocator + Copy>(
    alloc: A,
    deltas: &[Arc<OrMap<A>, A>],
    gone: &Context<A>,
) -> Result<Option<OrMap<A>>, Refusal>
    requires { (d : DotValue) → IsTrue (has gone.now d) → IsGone (group_state (deltas_of deltas.now)) d }
    ensures ok { IfOk result (λ found. IfSome found (λ whole. Same (or_map_state whole) (group_state (deltas_of deltas.now)))) }
    ensures err { IsOkUnless result Refusal.OutOfMemory }
{
    let mut stores = BTreeMap::new(alloc);
    let mut known = Context::new(alloc);
    for delta in deltas {
        if !add_delta(alloc, &mut stores, &mut known, delta, gone)? {
            return Ok(None);
        }
    }
    pair_of(alloc, stores, &known, gone)
}

// The pair of these stores and of both contexts, where it is one.
fn pair_of<A: Allocator + Copy>(
    alloc: A,
    stores: Stores<A>,
    known: &Context<A>,
    gone: &Context<A>,
) -> Result<Option<OrMap<A>>, Refusal>
    ensures ok { IfOk result (λ found. IfSome found (λ whole. (whole.0 ≡ stores.entries)
        × ((d : DotValue) → has whole.1 d ≡ (has known.now d || has gone.now d)))) }
    ensures err { IsOkUnless result Refusal.OutOfMemory }
{
    let entries = listed(alloc, stores)?;
    let all = known.union(alloc, gone)?;
    match DotMap::from_entries(entries) {
        Some(store) => Ok(Causal::from_parts(store, all)),
        None => Ok(None),
    }
}

// The stores in the order of their keys.
fn listed<A: Allocator + Copy>(
    alloc: A,
    stores: Stores<A>,
) -> Result<Vec<(Key<A>, Fields<A>), A>, AllocError>
    ensures { IfOk result (λ list. list.items ≡ stores.entries) }
{
    stores.into_iter().collect(alloc)
}

// Adds a delta, unless it knows a dot that is known and not gone, or holds something at a key at which something stands.
fn add_delta<A: Allocator + Copy>(
    alloc: A,
    stores: &mut Stores<A>,
    known: &mut Context<A>,
    delta: &OrMap<A>,
    gone: &Context<A>,
) -> Result<bool, Refusal>
    ensures ok { IfOk result (λ is. IsTrue is → (group : MapState) → IsMerged gone.now group stores.old.entries known.old
        → IsMerged gone.now (join greater group (or_map_state delta.now)) stores.new.entries known.new) }
    ensures err { IsOkUnless result Refusal.OutOfMemory }
{
    if !add_new(known, delta.context(), gone)? {
        return Ok(false);
    }
    add_left(alloc, stores, delta, gone)
}

// Puts what the delta holds at dots that are not gone at its keys, unless something stands at one.
fn add_left<A: Allocator + Copy>(
    alloc: A,
    stores: &mut Stores<A>,
    delta: &OrMap<A>,
    gone: &Context<A>,
) -> Result<bool, Refusal>
    ensures ok { IfOk result (λ is. IsTrue is → (place : _) (d : DotValue) → or_map_at stores.new.entries place d
        ≡ option_or (or_map_at stores.old.entries place d) (cond (has gone.now d) None (or_map_at delta.now.0 place d))) }
    ensures err { IsOkUnless result Refusal.OutOfMemory }
{
    if gone.includes(delta.context()) {
        return Ok(true);
    }
    let left = left_of(alloc, delta.store(), gone)?;
    put_all(stores, left.into_entries())
}

// What the store holds at dots that are not gone.
fn left_of<A: Allocator + Copy>(
    alloc: A,
    store: &OrMapStore<A>,
    gone: &Context<A>,
) -> Result<OrMapStore<A>, Refusal>
    ensures ok { IfOk result (λ left. (place : _) (d : DotValue) → or_map_at left place d ≡ cond (has gone.now d) None (or_map_at store.now place d)) }
    ensures err { IsOkUnless result Refusal.OutOfMemory }
{
    let (empty, none) = (OrMapStore::empty(alloc), Context::new(alloc));
    empty.join(alloc, gone, store, &none)
}

// Puts these stores at their keys, unless something stands at one.
fn put_all<A: Allocator + Copy>(
    stores: &mut Stores<A>,
    entries: Vec<(Key<A>, Fields<A>), A>,
) -> Result<bool, Refusal>
    ensures ok { IfOk result (λ is. IsTrue is → (place : _) (d : DotValue) → or_map_at stores.new.entries place d
        ≡ option_or (or_map_at stores.old.entries place d) (or_map_at entries.items place d)) }
    ensures err { IsOkUnless result Refusal.OutOfMemory }
{
    for (key, fields) in entries {
        if stores.insert(key, fields)?.is_some() {
            return Ok(false);
        }
    }
    Ok(true)
}

// Adds the dots of another context that are not gone, unless one is known. It has few.
fn add_new<A: Allocator + Copy>(
    known: &mut Context<A>,
    more: &Context<A>,
    gone: &Context<A>,
) -> Result<bool, Refusal>
    ensures ok { IfOk result (λ is. IsTrue is → AddsNew gone.now known.old known.new (has more.now)) }
    ensures err { IsOkUnless result Refusal.OutOfMemory }
{
    let (vector, dots) = (more.vector(), more.cloud());
    if dots.len() > FEW {
        return Ok(false);
    }
    if !add_new_first(known, vector, gone)? {
        return Ok(false);
    }
    add_new_dots(known, dots, gone)
}

// Adds the dots of a vector that are not gone, unless one is known. It has one at most, the first of a name.
fn add_new_first<A: Allocator + Copy>(
    known: &mut Context<A>,
    vector: &[(Name, u64)],
    gone: &Context<A>,
) -> Result<bool, Refusal>
    ensures ok { IfOk result (λ is. IsTrue is → AddsNew gone.now known.old known.new (is_known vector.now [])) }
    ensures err { IsOkUnless result Refusal.OutOfMemory }
{
    if vector.is_empty() {
        return Ok(true);
    }
    match first_of(vector) {
        Some(dot) => add_new_dot(known, dot, gone),
        None => Ok(false),
    }
}

// The one dot of a vector, where it has one alone.
fn first_of(vector: &[(Name, u64)]) -> Option<Dot>
    ensures { IfSome result (λ dot. (d : DotValue) → is_known vector.now [] d ≡ same_dot dot d) }
{
    let [(name, number)] = vector else {
        return None;
    };
    if *number != 1 {
        return None;
    }
    Dot::new(*name, 1)
}

// Adds those of the dots that are not gone, unless one is known.
fn add_new_dots<A: Allocator + Copy>(
    known: &mut Context<A>,
    dots: &[Dot],
    gone: &Context<A>,
) -> Result<bool, Refusal>
    ensures ok { IfOk result (λ is. IsTrue is → AddsNew gone.now known.old known.new (in_cloud dots.now)) }
    ensures err { IsOkUnless result Refusal.OutOfMemory }
{
    for dot in dots {
        if !add_new_dot(known, *dot, gone)? {
            return Ok(false);
        }
    }
    Ok(true)
}

// Adds the dot, where it is not gone, unless it is known.
fn add_new_dot<A: Allocator + Copy>(
    known: &mut Context<A>,
    dot: Dot,
    gone: &Context<A>,
) -> Result<bool, Refusal>
    ensures ok { IfOk result (λ is. IsTrue is → AddsNew gone.now known.old known.new (same_dot dot)) }
    ensures err { IsOkUnless result Refusal.OutOfMemory }
{
    if gone.contains(dot) {
        return Ok(true);
    }
    if known.contains(dot) {
        return Ok(false);
    }
    known.add(dot)?;
    Ok(true)
}

// Dots that one of the deltas knows and holds nowhere, so that they stand nowhere in the join: those above a gap of its context.
fn gone_of<A: Allocator + Copy>(
    alloc: A,
    deltas: &[Arc<OrMap<A>, A>],
) -> Result<Context<A>, Refusal>
    ensures ok { IfOk result (λ gone. (d : DotValue) → IsTrue (has gone d) → IsGone (group_state (deltas_of deltas.now)) d) }
    ensures err { IsOkUnless result Refusal.OutOfMemory }
{
    let mut dots = BTreeSet::new(alloc);
    for delta in deltas {
        add_gone(&mut dots, delta)?;
    }
    context_of(alloc, &dots)
}

// Adds the dots of the delta's cloud that it does not hold.
fn add_gone<A: Allocator + Copy>(
    dots: &mut BTreeSet<Dot, A>,
    delta: &OrMap<A>,
) -> Result<(), Refusal>
    ensures ok { OnOk result ((d : DotValue) → IsTrue (is_among dots.new.keys d)
        → IsTrue (is_among dots.old.keys d) ⊎ IsGone (or_map_state delta.now) d) }
    ensures err { IsOkUnless result Refusal.OutOfMemory }
{
    let known = delta.context().cloud();
    if known.len() > FEW {
        return Ok(());
    }
    add_missing(dots, known, delta.store())
}

// Adds those of these dots that the store does not hold.
fn add_missing<A: Allocator + Copy>(
    dots: &mut BTreeSet<Dot, A>,
    known: &[Dot],
    store: &OrMapStore<A>,
) -> Result<(), Refusal>
    ensures ok { OnOk result ((d : DotValue) → IsTrue (is_among dots.new.keys d)
        → IsTrue (is_among dots.old.keys d) ⊎ (IsTrue (in_cloud known.now d) × ((place : _) → or_map_at store.now place d ≡ None))) }
    ensures err { IsOkUnless result Refusal.OutOfMemory }
{
    for dot in known {
        if !store.contains(*dot) {
            dots.insert(*dot)?;
        }
    }
    Ok(())
}
