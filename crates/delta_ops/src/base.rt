// A context below all that deltas hold.
ghost use Rattle.std.specs.Prelude.{◌↔◌, IfOk, IsOkUnless, IsTrue};
ghost use Rattle.std.specs.List.{All};
ghost use Rattle.causal_join.specs.OrMap.{fields_at, or_map_at};
ghost use Rattle.delta_ops.specs.Unknown.{KnowsNoneOf};
ghost use Rattle.dot_store.specs.Stores.{at_values};

use causal_context::Context;
use causal_join::{Fields, OrMap, OrMapStore};
use dot_store::DotFun;
use dots::{Dot, Name, Refusal, Value};
use std::alloc::Allocator;
use std::collections::BTreeMap;
use std::sync::Arc;

// A number of each name.
type Numbers<A> = BTreeMap<Name, u64, A>;

// A context with no dot that a delta holds. It has the dots of a name below the least that they hold, and of a name of which they hold none
// all up to the last that they know: so what they hold comes just above it, and what they saw removed is known to it.
pub(crate) fn base_of<A: Allocator + Copy>(
    alloc: A,
    deltas: &[Arc<OrMap<A>, A>],
) -> Result<Context<A>, Refusal>
    ensures ok { IfOk result (λ base. All (λ delta. KnowsNoneOf base (or_map_at delta.value.0)) deltas.now) }
    ensures err { IsOkUnless result Refusal.OutOfMemory }
{
    let base = below(alloc, deltas)?;
    if are_unknown_to(deltas, &base) {
        return Ok(base);
    }
    // This never happens, as `below` makes it, but no clause of `below` says so. With no dot the join is as right, and slower.
    drop(base);
    Ok(Context::new(alloc))
}

// The context that `base_of` says.
fn below<A: Allocator + Copy>(alloc: A, deltas: &[Arc<OrMap<A>, A>]) -> Result<Context<A>, Refusal>
    ensures err { IsOkUnless result Refusal.OutOfMemory }
{
    let mut numbers = last_known(alloc, deltas)?;
    for delta in deltas {
        lower_to_store(&mut numbers, delta.store());
    }
    let vector = vector_of(alloc, &numbers)?;
    drop(numbers);
    match Context::from_parts(vector, Vec::new(alloc)) {
        Some(context) => Ok(context),
        None => Ok(Context::new(alloc)),
    }
}

// The vector of these numbers, but for those that are 0.
fn vector_of<A: Allocator + Copy>(
    alloc: A,
    numbers: &Numbers<A>,
) -> Result<Vec<(Name, u64), A>, Refusal>
    ensures err { IsOkUnless result Refusal.OutOfMemory }
{
    let mut vector = Vec::with_capacity(alloc, numbers.len())?;
    for (name, number) in numbers {
        if *number > 0 {
            vector.push((*name, *number))?;
        }
    }
    Ok(vector)
}

// The last number of each name that a delta knows.
fn last_known<A: Allocator + Copy>(
    alloc: A,
    deltas: &[Arc<OrMap<A>, A>],
) -> Result<Numbers<A>, Refusal>
    ensures err { IsOkUnless result Refusal.OutOfMemory }
{
    let mut numbers = BTreeMap::new(alloc);
    for delta in deltas {
        let context = delta.context();
        raise_to_vector(&mut numbers, context.vector())?;
        raise_to_cloud(&mut numbers, context.cloud())?;
    }
    Ok(numbers)
}

// Raises the numbers to those of a vector.
fn raise_to_vector<A: Allocator + Copy>(
    numbers: &mut Numbers<A>,
    vector: &[(Name, u64)],
) -> Result<(), Refusal>
    ensures err { IsOkUnless result Refusal.OutOfMemory }
{
    for (name, last) in vector {
        raise(numbers, *name, *last)?;
    }
    Ok(())
}

// Raises the numbers to those of a cloud.
fn raise_to_cloud<A: Allocator + Copy>(
    numbers: &mut Numbers<A>,
    cloud: &[Dot],
) -> Result<(), Refusal>
    ensures err { IsOkUnless result Refusal.OutOfMemory }
{
    for dot in cloud {
        raise(numbers, dot.name(), dot.number())?;
    }
    Ok(())
}

// Raises the number of a name to this one, where it is lower.
fn raise<A: Allocator + Copy>(
    numbers: &mut Numbers<A>,
    name: Name,
    number: u64,
) -> Result<(), Refusal>
    ensures err { IsOkUnless result Refusal.OutOfMemory }
{
    if let Some(last) = numbers.get_mut(&name) {
        *last = (*last).max(number);
        return Ok(());
    }
    numbers.insert(name, number)?;
    Ok(())
}

// Lowers the numbers below those of the dots that a store holds.
fn lower_to_store<A: Allocator + Copy>(numbers: &mut Numbers<A>, store: &OrMapStore<A>) {
    for (_, fields) in store.entries() {
        lower_to_fields(numbers, fields);
    }
}

// Lowers the numbers below those of the dots of the fields.
fn lower_to_fields<A: Allocator + Copy>(numbers: &mut Numbers<A>, fields: &Fields<A>) {
    for (_, values) in fields.entries() {
        lower_to_values(numbers, values);
    }
}

// Lowers the numbers below those of the dots of the values.
fn lower_to_values<A: Allocator + Copy>(numbers: &mut Numbers<A>, values: &DotFun<Value<A>, A>) {
    for (dot, _) in values.entries() {
        if let Some(number) = numbers.get_mut(&dot.name()) {
            *number = (*number).min(dot.number().saturating_sub(1));
        }
    }
}

// Whether the context has no dot that a delta holds.
fn are_unknown_to<A: Allocator + Copy>(deltas: &[Arc<OrMap<A>, A>], context: &Context<A>) -> bool
    ensures { IsTrue result ↔ All (λ delta. KnowsNoneOf context.now (or_map_at delta.value.0)) deltas.now }
{
    for delta in deltas {
        if !is_store_unknown(delta.store(), context) {
            return false;
        }
    }
    true
}

// Whether the context has no dot that the store holds.
fn is_store_unknown<A: Allocator + Copy>(store: &OrMapStore<A>, context: &Context<A>) -> bool
    ensures { IsTrue result ↔ KnowsNoneOf context.now (or_map_at store.now) }
{
    for (_, fields) in store.entries() {
        if !are_fields_unknown(fields, context) {
            return false;
        }
    }
    true
}

// Whether the context has no dot of the fields.
fn are_fields_unknown<A: Allocator + Copy>(fields: &Fields<A>, context: &Context<A>) -> bool
    ensures { IsTrue result ↔ KnowsNoneOf context.now (fields_at fields.now) }
{
    for (_, values) in fields.entries() {
        if !are_values_unknown(values, context) {
            return false;
        }
    }
    true
}

// Whether the context has no dot of the values.
fn are_values_unknown<A: Allocator + Copy>(
    values: &DotFun<Value<A>, A>,
    context: &Context<A>,
) -> bool
    ensures { IsTrue result ↔ KnowsNoneOf context.now (at_values values.now) }
{
    for (dot, _) in values.entries() {
        if context.contains(*dot) {
            return false;
        }
    }
    true
}
