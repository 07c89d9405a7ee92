ghost use Rattle.std.specs.Prelude.{◌≡◌, ◌||◌, ◌↔◌, ◌⊎◌, List, length, is_some, IsTrue, OnOk, IfOk, IsOkUnless};
ghost use Rattle.std.specs.List.{IsDistinct};
ghost use Rattle.causal_context.specs.Context.{has};
ghost use Rattle.causal_join.specs.OrMap.{or_map_state, fields_at};
ghost use Rattle.delta_ops.specs.LiveMap.{live_state};
ghost use Rattle.dot_store.specs.Store.{HoldsDot};
ghost use Rattle.dot_store.specs.Stores.{at_values};
ghost use Rattle.dots.specs.Dot.{DotValue, same_dot};
ghost use Rattle.op_model.specs.State.{Same};
ghost use Rattle.op_model.specs.Operation.{has as is_among};
ghost use Rattle.op_model.specs.Made.{IsRemoveAt, IsFieldRemoveAt, IsClearAt, erasure};
ghost use Rattle.op_model.specs.Meaning.{state};
ghost use Rattle.op_model.specs.Place.{place_of};

use crate::live_or_map::LiveOrMap;
use crate::standing::{fields_of, values_at};
use causal_context::Context;
use causal_join::{Causal, Fields, OrMap};
use dot_store::{DotFun, DotMap, DotStore};
use dots::{Dot, Field, Key, Refusal, Value};
use gen_trie::Summary;
use hash_path::PathHash;
use std::alloc::Allocator;
use std::collections::BTreeSet;

/// The delta of a remove of the key with all its fields, and how many dots it observed, which is how many stand at any
/// field of the key.
///
/// The delta holds nothing, and knows these dots. Where there are none it is the bottom, as no operation is made. Takes a
/// look-up, memory in the dots that stand there, and time in them, times the logarithm of their number.
/// Its only refusal is OutOfMemory.
pub fn remove<M: Summary<Fields<A>>, H: PathHash, A: Allocator + Copy>(
    alloc: A,
    live: &LiveOrMap<M, H, A>,
    key: &Key<A>,
) -> Result<(OrMap<A>, u64), Refusal>
    ensures ok { IfOk result (λ made. (over : List DotValue) × IsRemoveAt (live_state live.now.0) key.now over ×
        Same (or_map_state made.0) (state (erasure over)) × IsDistinct same_dot over × (made.1 ≡ length over)) }
    ensures err { IsOkUnless result Refusal.OutOfMemory }
{
    let dots = dots_within(alloc, live, key)?;
    erasing(alloc, &dots)
}

/// The delta of a remove of the field of the key, and how many dots it observed, which is how many stand there. The key's
/// other fields stay as they are.
///
/// The delta holds nothing, and knows these dots. Where there are none it is the bottom, as no operation is made. Takes
/// two look-ups, memory in the dots that stand there, and time in them, times the logarithm of their number.
/// Its only refusal is OutOfMemory.
pub fn remove_field<M: Summary<Fields<A>>, H: PathHash, A: Allocator + Copy>(
    alloc: A,
    live: &LiveOrMap<M, H, A>,
    key: &Key<A>,
    field: &Field<A>,
) -> Result<(OrMap<A>, u64), Refusal>
    ensures ok { IfOk result (λ made. (over : List DotValue) ×
        IsFieldRemoveAt (live_state live.now.0) (place_of key.now field.now) over ×
        Same (or_map_state made.0) (state (erasure over)) × IsDistinct same_dot over × (made.1 ≡ length over)) }
    ensures err { IsOkUnless result Refusal.OutOfMemory }
{
    let dots = dots_at(alloc, live, key, field)?;
    erasing(alloc, &dots)
}

/// The delta of a clear, and how many dots it observed, which is how many stand at any place.
///
/// The delta holds nothing, and knows these dots. Where there are none it is the bottom, as no operation is made. Goes
/// through the whole map: takes memory in all its dots, and time in them, times the logarithm of their number.
/// Its only refusal is OutOfMemory.
pub fn clear<M: Summary<Fields<A>>, H: PathHash, A: Allocator + Copy>(
    alloc: A,
    live: &LiveOrMap<M, H, A>,
) -> Result<(OrMap<A>, u64), Refusal>
    ensures ok { IfOk result (λ made. (over : List DotValue) × IsClearAt (live_state live.now.0) over ×
        Same (or_map_state made.0) (state (erasure over)) × IsDistinct same_dot over × (made.1 ≡ length over)) }
    ensures err { IsOkUnless result Refusal.OutOfMemory }
{
    let dots = dots_anywhere(alloc, live)?;
    erasing(alloc, &dots)
}

/// The dots that stand at the field of the key.
fn dots_at<M: Summary<Fields<A>>, H: PathHash, A: Allocator + Copy>(
    alloc: A,
    live: &LiveOrMap<M, H, A>,
    key: &Key<A>,
    field: &Field<A>,
) -> Result<BTreeSet<Dot, A>, Refusal>
    ensures ok { IfOk result (λ dots. IsFieldRemoveAt (live_state live.now.0) (place_of key.now field.now) dots.keys) }
    ensures err { IsOkUnless result Refusal.OutOfMemory }
{
    let mut dots = BTreeSet::new(alloc);
    if let Some(standing) = values_at(live.store(), key, field) {
        gather(&mut dots, standing)?;
    }
    Ok(dots)
}

/// The dots that stand at any field of the key.
fn dots_within<M: Summary<Fields<A>>, H: PathHash, A: Allocator + Copy>(
    alloc: A,
    live: &LiveOrMap<M, H, A>,
    key: &Key<A>,
) -> Result<BTreeSet<Dot, A>, Refusal>
    ensures ok { IfOk result (λ dots. IsRemoveAt (live_state live.now.0) key.now dots.keys) }
    ensures err { IsOkUnless result Refusal.OutOfMemory }
{
    let mut dots = BTreeSet::new(alloc);
    if let Some(fields) = fields_of(live.store(), key) {
        gather_fields(&mut dots, fields)?;
    }
    Ok(dots)
}

/// The dots that stand at any place.
fn dots_anywhere<M: Summary<Fields<A>>, H: PathHash, A: Allocator + Copy>(
    alloc: A,
    live: &LiveOrMap<M, H, A>,
) -> Result<BTreeSet<Dot, A>, Refusal>
    ensures ok { IfOk result (λ dots. IsClearAt (live_state live.now.0) dots.keys) }
    ensures err { IsOkUnless result Refusal.OutOfMemory }
{
    let mut dots = BTreeSet::new(alloc);
    for (_, fields) in live.store().frozen().iter() {
        gather_fields(&mut dots, fields)?;
    }
    Ok(dots)
}

/// Adds the dots that stand at any of the fields.
/// A refused call may have added some.
/// Its only refusal is OutOfMemory.
fn gather_fields<A: Allocator + Copy>(
    dots: &mut BTreeSet<Dot, A>,
    fields: &Fields<A>,
) -> Result<(), Refusal>
    ensures ok { OnOk result ((d : DotValue) → IsTrue (is_among dots.new.keys d)
        ↔ (IsTrue (is_among dots.old.keys d) ⊎ HoldsDot (fields_at fields.now) d)) }
    ensures err { IsOkUnless result Refusal.OutOfMemory }
{
    for (_, standing) in fields.entries() {
        gather(dots, standing)?;
    }
    Ok(())
}

/// Adds the dots of a field's values.
/// A refused call may have added some.
/// Its only refusal is OutOfMemory.
fn gather<A: Allocator + Copy>(
    dots: &mut BTreeSet<Dot, A>,
    standing: &DotFun<Value<A>, A>,
) -> Result<(), Refusal>
    ensures ok { OnOk result ((d : DotValue) → is_among dots.new.keys d
        ≡ (is_among dots.old.keys d || is_some (at_values standing.now tt d))) }
    ensures err { IsOkUnless result Refusal.OutOfMemory }
{
    for (dot, _) in standing.entries() {
        dots.insert(*dot)?;
    }
    Ok(())
}

/// The delta of an erasure of these dots, and how many they are.
/// Its only refusal is OutOfMemory.
fn erasing<A: Allocator + Copy>(
    alloc: A,
    dots: &BTreeSet<Dot, A>,
) -> Result<(OrMap<A>, u64), Refusal>
    ensures ok { IfOk result (λ made. Same (or_map_state made.0) (state (erasure dots.now.keys)) ×
        IsDistinct same_dot dots.now.keys × (made.1 ≡ length dots.now.keys)) }
    ensures err { IsOkUnless result Refusal.OutOfMemory }
{
    let context = context_of(alloc, dots)?;
    let number = dots.len() as u64;
    let delta = Causal::from_parts(DotMap::empty(alloc), context).unwrap();
    Ok((delta, number))
}

/// The context of these dots.
pub(crate) fn context_of<A: Allocator + Copy>(
    alloc: A,
    dots: &BTreeSet<Dot, A>,
) -> Result<Context<A>, Refusal>
    ensures ok { IfOk result (λ context. (d : DotValue) → has context d ≡ is_among dots.now.keys d) }
    ensures err { IsOkUnless result Refusal.OutOfMemory }
{
    let mut context = Context::new(alloc);
    for dot in dots {
        context.add(*dot)?;
    }
    Ok(context)
}
