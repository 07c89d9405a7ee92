ghost use Rattle.std.specs.Prelude.{◌≡◌, ◌-◌, ◌^◌, ◌↔◌, ◌⊎◌, ◌∷◌, [], Some, None, cond, ◌&&◌, is_some, IfOk, IfErr, IsErrOf, IsOkUnless};
ghost use Rattle.causal_context.specs.Context.{has, IsGreatest};
ghost use Rattle.causal_join.specs.OrMap.{or_map_at, or_map_state, path_of};
ghost use Rattle.delta_ops.specs.LiveMap.{live_state};
ghost use Rattle.dots.specs.Dot.{DotValue, same_dot};
ghost use Rattle.op_model.specs.State.{Same};
ghost use Rattle.op_model.specs.Operation.{Write, Wrote};
ghost use Rattle.op_model.specs.Made.{IsPutAt};
ghost use Rattle.op_model.specs.Meaning.{state};
ghost use Rattle.op_model.specs.Place.{Place, place_of, plain, same_place};

use crate::live_or_map::LiveOrMap;
use crate::standing::values_at;
use causal_context::Context;
use causal_join::{Causal, Fields, OrMap, OrMapStore};
use dot_store::{DotFun, DotMap, DotStore, Kept};
use dots::{Dot, Field, Key, Name, Refusal, Value};
use gen_trie::Summary;
use hash_path::PathHash;
use std::alloc::Allocator;

/// The delta of a put of the value on the key by this name, and its dot, which is the next of the name: a put at the empty
/// field. After the delta-mutators of Almeida, Shoker and Baquero, "Delta State Replicated Data Types" (2018).
///
/// The delta holds the value alone, and knows its dot and the dots that stood there. NumbersSpent exactly where the
/// greatest known number of the name is 2^64 - 1, else OutOfMemory or the delta. Takes two look-ups and one in the
/// context, and time and memory in what stands at the field and in what is written.
pub fn put<M: Summary<Fields<A>>, H: PathHash, A: Allocator + Copy>(
    alloc: A,
    name: Name,
    live: &LiveOrMap<M, H, A>,
    key: &Key<A>,
    value: &Value<A>,
) -> Result<(OrMap<A>, Dot), Refusal>
    ensures ok { IfOk result (λ made. (w : Write) × IsPutAt (live_state live.now.0) name (plain key.now) value.now w ×
        Same (or_map_state made.0) (state (Wrote w ∷ [])) × (made.1 ≡ w.id)) }
    ensures spent { IsErrOf result Refusal.NumbersSpent ↔ IsGreatest name (has live.now.0.1) (2 ^ 64 - 1) }
    ensures err { IfErr result (λ refusal. (refusal ≡ Refusal.NumbersSpent) ⊎ (refusal ≡ Refusal.OutOfMemory)) }
{
    put_field(alloc, name, live, key, &Field::empty(), value)
}

/// The delta of a put of the value at the field of the key by this name, and its dot, which is the next of the name.
///
/// The delta holds the value alone, and knows its dot and the dots that stood there; the key's other fields stay as they
/// are. NumbersSpent exactly where the greatest known number of the name is 2^64 - 1, else OutOfMemory or the delta. Takes
/// two look-ups and one in the context, and time and memory in what stands at the field and in what is written.
pub fn put_field<M: Summary<Fields<A>>, H: PathHash, A: Allocator + Copy>(
    alloc: A,
    name: Name,
    live: &LiveOrMap<M, H, A>,
    key: &Key<A>,
    field: &Field<A>,
    value: &Value<A>,
) -> Result<(OrMap<A>, Dot), Refusal>
    ensures ok { IfOk result (λ made. (w : Write) ×
        IsPutAt (live_state live.now.0) name (place_of key.now field.now) value.now w ×
        Same (or_map_state made.0) (state (Wrote w ∷ [])) × (made.1 ≡ w.id)) }
    ensures spent { IsErrOf result Refusal.NumbersSpent ↔ IsGreatest name (has live.now.0.1) (2 ^ 64 - 1) }
    ensures err { IfErr result (λ refusal. (refusal ≡ Refusal.NumbersSpent) ⊎ (refusal ≡ Refusal.OutOfMemory)) }
{
    let dot = live.context().next(name).ok_or(Refusal::NumbersSpent)?;
    let mut context = observed_at(alloc, live, key, field)?;
    if let Err(refusal) = context.add(dot) {
        drop(context);
        return Err(refusal);
    }
    match one_value(alloc, dot, key, field, value) {
        Ok(store) => Ok((Causal::from_parts(store, context).unwrap(), dot)),
        Err(refusal) => {
            drop(context);
            Err(refusal)
        }
    }
}

/// The context of the dots that stand at the field of the key.
fn observed_at<M: Summary<Fields<A>>, H: PathHash, A: Allocator + Copy>(
    alloc: A,
    live: &LiveOrMap<M, H, A>,
    key: &Key<A>,
    field: &Field<A>,
) -> Result<Context<A>, Refusal>
    ensures ok { IfOk result (λ context. (d : DotValue) →
        has context d ≡ is_some ((live_state live.now.0).at (place_of key.now field.now) d)) }
    ensures err { IsOkUnless result Refusal.OutOfMemory }
{
    let Some(standing) = values_at(live.store(), key, field) else {
        return Ok(Context::new(alloc));
    };
    standing.dots(alloc)
}

/// The store that holds the value alone, at the field of the key and the dot.
/// Its only refusal is OutOfMemory.
fn one_value<A: Allocator + Copy>(
    alloc: A,
    dot: Dot,
    key: &Key<A>,
    field: &Field<A>,
    value: &Value<A>,
) -> Result<OrMapStore<A>, Refusal>
    ensures ok { IfOk result (λ store. (place : Place) (d : DotValue) → or_map_at store (path_of place) d
        ≡ cond (same_place (place_of key.now field.now) place && same_dot dot d) (Some value.now) None) }
    ensures err { IsOkUnless result Refusal.OutOfMemory }
{
    let key = key.copy(alloc)?;
    let field = field.copy(alloc)?;
    let value = value.copy(alloc)?;
    let mut values = DotFun::empty(alloc);
    if let Err(refusal) = values.insert(dot, value) {
        drop(values);
        return Err(refusal);
    }
    let mut fields = Fields::empty(alloc);
    if let Err(refusal) = fields.insert(field, values) {
        drop(fields);
        return Err(refusal);
    }
    let mut store: OrMapStore<A> = DotMap::empty(alloc);
    if let Err(refusal) = store.insert(key, fields) {
        drop(store);
        return Err(refusal);
    }
    Ok(store)
}
