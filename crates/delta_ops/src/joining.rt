// The join of many deltas.
ghost use Rattle.std.specs.Prelude.{◌≡◌, ◌||◌, IfOk, OnOk, IsOkUnless};
ghost use Rattle.std.specs.List.{All};
ghost use Rattle.causal_context.specs.Context.{has, in_cloud};
ghost use Rattle.causal_join.specs.OrMap.{fields_at, or_map_at, or_map_state, path_of};
ghost use Rattle.delta_ops.specs.Group.{group_state};
ghost use Rattle.delta_ops.specs.Log.{deltas_of};
ghost use Rattle.delta_ops.specs.Unknown.{KnowsNoneOf};
ghost use Rattle.dot_store.specs.Store.{HasNothing};
ghost use Rattle.dots.specs.Dot.{DotValue};
ghost use Rattle.op_model.specs.Place.{Place};
ghost use Rattle.op_model.specs.State.{IsInside, Same};
ghost use Rattle.trie_map.specs.Keyed.{at_keys};

use crate::base::base_of;
use crate::live_or_map::LiveOrMap;
use crate::merging::merged;
use causal_context::Context;
use causal_join::{Causal, OrMap};
use dot_store::{DotMap, DotStore};
use dots::{Dot, Refusal};
use gen_trie::NoSummary;
use hash_path::Fnv1a;
use live_map::Live;
use std::alloc::Allocator;
use std::mem;
use std::sync::Arc;

/// The join of these deltas. One delta or two are joined at once. Of more, what was not taken away is put at its keys, and joined with the first.
/// Where that does not tell the join, each is joined in its turn into a live pair, which writes it in place where it comes just above what is
/// known; and their contexts by halves. So each entry is copied into that pair and out of it then.
/// Its only refusal is OutOfMemory.
pub(crate) fn joined<A: Allocator + Copy>(
    alloc: A,
    deltas: &[Arc<OrMap<A>, A>],
) -> Result<OrMap<A>, Refusal>
    ensures ok { IfOk result (λ whole. Same (or_map_state whole) (group_state (deltas_of deltas.now))) }
    ensures err { IsOkUnless result Refusal.OutOfMemory }
{
    match deltas {
        [only] => return only.copy(alloc),
        [older, newer] => return older.join(alloc, newer),
        _ => {}
    }
    if let Some(whole) = merged(alloc, deltas)? {
        return Ok(whole);
    }
    let base = base_of(alloc, deltas)?;
    let live = live_join(alloc, deltas, base)?;
    let store = live.store().to_map(alloc)?;
    drop(live);
    let known = known_by(alloc, deltas)?;
    Ok(Causal::from_parts(store, known).unwrap())
}

// The deltas joined one by one into a pair that held nothing and knew this base, of which they hold nothing: it holds what their join
// does, and knows the base too.
fn live_join<A: Allocator + Copy>(
    alloc: A,
    deltas: &[Arc<OrMap<A>, A>],
    base: Context<A>,
) -> Result<LiveOrMap<NoSummary, Fnv1a, A>, Refusal>
    requires { All (λ delta. KnowsNoneOf base (or_map_at delta.value.0)) deltas.now }
    ensures ok { IfOk result (λ live. (place : Place) (d : DotValue)
        → at_keys fields_at live.0.0 (path_of place) d ≡ (group_state (deltas_of deltas.now)).at place d) }
    ensures err { IsOkUnless result Refusal.OutOfMemory }
{
    let mut live = knowing(alloc, base)?;
    for delta in deltas {
        live.join_delta(alloc, delta)?;
    }
    Ok(live)
}

// A pair that holds nothing, and knows this context.
fn knowing<A: Allocator + Copy>(
    alloc: A,
    context: Context<A>,
) -> Result<LiveOrMap<NoSummary, Fnv1a, A>, Refusal>
    ensures store { IfOk result (λ live. HasNothing (at_keys fields_at live.0.0)) }
    ensures context { IfOk result (λ live. (d : DotValue) → has live.0.1 d ≡ has context d) }
    ensures err { IsOkUnless result Refusal.OutOfMemory }
{
    let delta = Causal::from_parts(DotMap::empty(alloc), context).unwrap();
    let mut live = Live::new(alloc, Fnv1a);
    live.join_delta(alloc, &delta)?;
    Ok(live)
}

// The contexts of so many deltas at most are added one after another, those of more by halves. One of so many dots at most is added dot by
// dot, as each moves those behind it.
pub(crate) const FEW: usize = 16;

// The dots that the deltas know: each that their join holds is among them.
fn known_by<A: Allocator + Copy>(
    alloc: A,
    deltas: &[Arc<OrMap<A>, A>],
) -> Result<Context<A>, Refusal>
    ensures ok { IfOk result (λ known. (d : DotValue) → has known d ≡ (group_state (deltas_of deltas.now)).has d) }
    ensures inside { IfOk result (λ _. IsInside (group_state (deltas_of deltas.now))) }
    ensures err { IsOkUnless result Refusal.OutOfMemory }
{
    if deltas.len() <= FEW {
        return known_in_turn(alloc, deltas);
    }
    let (older, newer) = deltas.split_at(deltas.len() / 2);
    let older = known_by(alloc, older)?;
    let newer = known_by(alloc, newer)?;
    older.union(alloc, &newer)
}

// The same, by one context after another.
fn known_in_turn<A: Allocator + Copy>(
    alloc: A,
    deltas: &[Arc<OrMap<A>, A>],
) -> Result<Context<A>, Refusal>
    ensures ok { IfOk result (λ known. (d : DotValue) → has known d ≡ (group_state (deltas_of deltas.now)).has d) }
    ensures inside { IfOk result (λ _. IsInside (group_state (deltas_of deltas.now))) }
    ensures err { IsOkUnless result Refusal.OutOfMemory }
{
    let mut known = Context::new(alloc);
    for delta in deltas {
        add_context(alloc, &mut known, delta.context())?;
    }
    Ok(known)
}

// Adds what the other context knows: dot by dot where it has few and no vector, as that of one write. A refused call may have added some.
fn add_context<A: Allocator + Copy>(
    alloc: A,
    known: &mut Context<A>,
    more: &Context<A>,
) -> Result<(), Refusal>
    ensures ok { OnOk result ((d : DotValue) → has known.new d ≡ (has known.old d || has more.now d)) }
    ensures err { IsOkUnless result Refusal.OutOfMemory }
{
    let dots = more.cloud();
    if dots.len() > FEW {
        return unite(alloc, known, more);
    }
    if more.vector().is_empty() {
        return add_dots(known, dots);
    }
    unite(alloc, known, more)
}

// Puts the union with the other context in the place of the first.
fn unite<A: Allocator + Copy>(
    alloc: A,
    known: &mut Context<A>,
    more: &Context<A>,
) -> Result<(), Refusal>
    ensures ok { OnOk result ((d : DotValue) → has known.new d ≡ (has known.old d || has more.now d)) }
    ensures err { IsOkUnless result Refusal.OutOfMemory }
{
    let both = known.union(alloc, more)?;
    drop(mem::replace(known, both));
    Ok(())
}

// Adds the dots. A refused call may have added some.
fn add_dots<A: Allocator + Copy>(known: &mut Context<A>, dots: &[Dot]) -> Result<(), Refusal>
    ensures ok { OnOk result ((d : DotValue) → has known.new d ≡ (has known.old d || in_cloud dots.now d)) }
    ensures err { IsOkUnless result Refusal.OutOfMemory }
{
    for dot in dots {
        known.add(*dot)?;
    }
    Ok(())
}
