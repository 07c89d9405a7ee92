// What is read of a replica, as text.
ghost use Rattle.std.specs.Prelude.{◌≡◌, OnOk, IsOkUnless};
ghost use Rattle.delta_ops.specs.LiveMap.{store_state};
ghost use Rattle.dots.specs.Dot.{DotValue};
ghost use Rattle.hash_path.specs.Fnv1a.{fnv1a};
ghost use Rattle.op_model.specs.Meaning.{MapState, Stands, StandsWithin};
ghost use Rattle.op_model.specs.Place.{Place, place_of, plain};
ghost use Rattle.replica_core.specs.Meaning.{meaning};
ghost use Rattle.replica_core.specs.Reading.{Lists};
ghost use Rattle.trace_world.specs.Does.{AddsEntries, TellsText};
ghost use Rattle.trace_world.specs.Outcome.{with_bytes, ReadsValues, ReadsFields, ReadsKeys, ReadsSize, ReadsContext, ReadsDigest};

use crate::texts::{field_of, key_of};
use delta_ops::{LiveStore, values};
use dots::{Field, Key, Refusal};
use hash_path::Fnv1a;
use prefix_digest::ShaSummary;
use replica_core::Replica;
use std::alloc::Allocator;
use trace_words::{
    context_answer, digest_answer, fields_answer, get_answer, map_answer, push_entry, size_answer,
};

// The values at the field of the key.
pub(crate) fn read_values<A: Allocator + Copy>(
    alloc: A,
    replica: &Replica<Fnv1a, A>,
    key: &[u8],
    field: &[u8],
) -> Result<Vec<u8, A>, Refusal>
    ensures { TellsText (with_bytes key.now (with_bytes field.now (ReadsValues (place_of key.now field.now) (meaning replica.now).live))) result }
{
    let key = key_of(alloc, key)?;
    let field = field_of(alloc, field)?;
    let found = replica.get_field(&key, &field)?;
    let text = get_answer(alloc, found.as_slice())?;
    Ok(text)
}

// The values that the key shows in a store that holds what this state does.
pub(crate) fn look_at<A: Allocator + Copy>(
    alloc: A,
    store: &LiveStore<ShaSummary, Fnv1a, A>,
    key: &[u8],
) -> Result<Vec<u8, A>, Refusal>
    ensures { (live : MapState) → ((place : Place) (dot : DotValue) → (store_state store.now).at place dot ≡ live.at place dot)
        → TellsText (with_bytes key.now (ReadsValues (plain key.now) live)) result }
{
    let key = key_of(alloc, key)?;
    let found = values(alloc, store, &key, &Field::empty())?;
    let text = get_answer(alloc, found.as_slice())?;
    Ok(text)
}

// The fields of the key with their values.
pub(crate) fn read_fields<A: Allocator + Copy>(
    alloc: A,
    replica: &Replica<Fnv1a, A>,
    key: &[u8],
) -> Result<Vec<u8, A>, Refusal>
    ensures { TellsText (with_bytes key.now (ReadsFields key.now (meaning replica.now).live)) result }
{
    let key = key_of(alloc, key)?;
    let fields = replica.fields(&key)?;
    let mut text = fields_answer(alloc, fields.len() as u64)?.into_bytes();
    push_fields(alloc, &mut text, replica, &key, fields.as_slice())?;
    Ok(text)
}

// Appends each field with its values at the key. A refusal may leave a part of it there.
fn push_fields<A: Allocator + Copy>(
    alloc: A,
    out: &mut Vec<u8, A>,
    replica: &Replica<Fnv1a, A>,
    key: &Key<A>,
    fields: &[Field<A>],
) -> Result<(), Refusal>
    ensures ok { OnOk result (AddsEntries (λ field. Lists (Stands (meaning replica.now).live (place_of key.now field))) fields.now out.old.items out.new.items) }
    ensures err { IsOkUnless result Refusal.OutOfMemory }
{
    for field in fields {
        let found = replica.get_field(key, field)?;
        push_entry(alloc, out, field.bytes(), found.as_slice())?;
    }
    Ok(())
}

// All keys with their values.
pub(crate) fn read_keys<A: Allocator + Copy>(
    alloc: A,
    replica: &Replica<Fnv1a, A>,
) -> Result<Vec<u8, A>, Refusal>
    ensures { TellsText (ReadsKeys (meaning replica.now).live) result }
{
    let keys = replica.keys()?;
    let mut text = map_answer(alloc, keys.len() as u64)?.into_bytes();
    push_keys(alloc, &mut text, replica, keys.as_slice())?;
    Ok(text)
}

// Appends each key with its values over all its fields. A refusal may leave a part of it there.
fn push_keys<A: Allocator + Copy>(
    alloc: A,
    out: &mut Vec<u8, A>,
    replica: &Replica<Fnv1a, A>,
    keys: &[Key<A>],
) -> Result<(), Refusal>
    ensures ok { OnOk result (AddsEntries (λ key. Lists (StandsWithin (meaning replica.now).live key)) keys.now out.old.items out.new.items) }
    ensures err { IsOkUnless result Refusal.OutOfMemory }
{
    for key in keys {
        let found = replica.values_of_key(key)?;
        push_entry(alloc, out, key.bytes(), found.as_slice())?;
    }
    Ok(())
}

// The number of keys.
pub(crate) fn read_size<A: Allocator + Copy>(
    alloc: A,
    replica: &Replica<Fnv1a, A>,
) -> Result<Vec<u8, A>, Refusal>
    ensures { TellsText (ReadsSize (meaning replica.now).live) result }
{
    Ok(size_answer(alloc, replica.size())?.into_bytes())
}

// The known dots.
pub(crate) fn read_context<A: Allocator + Copy>(
    alloc: A,
    replica: &Replica<Fnv1a, A>,
) -> Result<Vec<u8, A>, Refusal>
    ensures { TellsText (ReadsContext (meaning replica.now).live) result }
{
    let context = replica.context();
    let text = context_answer(alloc, context.vector(), context.cloud())?;
    Ok(text)
}

// The root digest of the map.
pub(crate) fn read_digest<A: Allocator + Copy>(
    alloc: A,
    replica: &Replica<Fnv1a, A>,
) -> Result<Vec<u8, A>, Refusal>
    ensures { TellsText (ReadsDigest fnv1a (meaning replica.now).live) result }
{
    Ok(digest_answer(alloc, replica.digest())?.into_bytes())
}
