ghost use Rattle.std.specs.Prelude.{◌≡◌, ◌↔◌, ◌∷◌, [], ℕ, List, length, Contains, IfOk, OnOk, IsOkUnless};
ghost use Rattle.std.specs.List.{All, flat_map};
ghost use Rattle.std.specs.Map.{keys_of, values_of};
ghost use Rattle.delta_ops.specs.Gathers.{Gathers, GathersMore, AreEntries};
ghost use Rattle.delta_ops.specs.LiveMap.{store_state};
ghost use Rattle.op_model.specs.Meaning.{Stands, StandsWithin, HoldsField, HoldsKey};
ghost use Rattle.op_model.specs.Place.{place_of};
ghost use Rattle.op_model.specs.Shown.{IsAscending};

use crate::live_or_map::LiveStore;
use crate::standing::{fields_of, values_at};
use causal_join::Fields;
use dot_store::{DotFun, Kept};
use dots::{Field, Key, Refusal, Value};
use gen_trie::Summary;
use hash_path::PathHash;
use std::alloc::{AllocError, Allocator};
use std::collections::BTreeSet;

/// The distinct values at the field of the key, ascending by bytes. Takes two look-ups, memory in the values that stand
/// there, and time in them, times the logarithm of their number.
/// Its only refusal is OutOfMemory.
pub fn values<M: Summary<Fields<A>>, H: PathHash, A: Allocator + Copy>(
    alloc: A,
    store: &LiveStore<M, H, A>,
    key: &Key<A>,
    field: &Field<A>,
) -> Result<Vec<Value<A>, A>, Refusal>
    ensures ascending { IfOk result (λ found. IsAscending found.items) }
    ensures held { IfOk result (λ found. (value : List ℕ) →
        Contains found.items value ↔ Stands (store_state store.now) (place_of key.now field.now) value) }
    ensures err { IsOkUnless result Refusal.OutOfMemory }
{
    match values_at(store, key, field) {
        Some(standing) => distinct(alloc, standing),
        None => Ok(Vec::new(alloc)),
    }
}

/// The distinct values of the key over all its fields, ascending by bytes. Takes a look-up, memory in what stands at
/// the key, and time in it, times the logarithm of the number of its values.
/// Its only refusal is OutOfMemory.
pub fn values_of_key<M: Summary<Fields<A>>, H: PathHash, A: Allocator + Copy>(
    alloc: A,
    store: &LiveStore<M, H, A>,
    key: &Key<A>,
) -> Result<Vec<Value<A>, A>, Refusal>
    ensures ascending { IfOk result (λ found. IsAscending found.items) }
    ensures held { IfOk result (λ found. (value : List ℕ) →
        Contains found.items value ↔ StandsWithin (store_state store.now) key.now value) }
    ensures err { IsOkUnless result Refusal.OutOfMemory }
{
    match fields_of(store, key) {
        Some(fields) => distinct_within(alloc, fields.entries()),
        None => Ok(Vec::new(alloc)),
    }
}

/// The fields of the key that hold a value, ascending by bytes. Takes a look-up, and time and memory in their number.
/// Its only refusal is OutOfMemory.
pub fn fields<M: Summary<Fields<A>>, H: PathHash, A: Allocator + Copy>(
    alloc: A,
    store: &LiveStore<M, H, A>,
    key: &Key<A>,
) -> Result<Vec<Field<A>, A>, Refusal>
    ensures ascending { IfOk result (λ found. IsAscending found.items) }
    ensures held { IfOk result (λ found. (field : List ℕ) →
        Contains found.items field ↔ HoldsField (store_state store.now) key.now field) }
    ensures err { IsOkUnless result Refusal.OutOfMemory }
{
    match fields_of(store, key) {
        Some(fields) => copied_keys(alloc, fields.entries()),
        None => Ok(Vec::new(alloc)),
    }
}

/// The keys that hold a value at some field, ascending by bytes. Goes through the whole map: takes memory in the keys,
/// and time in them, times the logarithm of their number.
/// Its only refusal is OutOfMemory.
pub fn keys<M: Summary<Fields<A>>, H: PathHash, A: Allocator + Copy>(
    alloc: A,
    store: &LiveStore<M, H, A>,
) -> Result<Vec<Key<A>, A>, Refusal>
    ensures ascending { IfOk result (λ found. IsAscending found.items) }
    ensures held { IfOk result (λ found. (key : List ℕ) →
        Contains found.items key ↔ HoldsKey (store_state store.now) key) }
    ensures err { IsOkUnless result Refusal.OutOfMemory }
{
    let mut found = BTreeSet::new(alloc);
    for (key, _) in store.frozen().iter() {
        found.insert(key.copy(alloc)?)?;
    }
    Ok(listed(alloc, found)?)
}

/// The number of keys that hold a value at some field: of those that `keys` lists. Takes constant time.
pub fn size<M: Summary<Fields<A>>, H: PathHash, A: Allocator + Copy>(
    store: &LiveStore<M, H, A>,
) -> u64
    ensures { (listed : List (List ℕ)) × IsAscending listed ×
        ((key : List ℕ) → Contains listed key ↔ HoldsKey (store_state store.now) key) × (result ≡ length listed) }
{
    store.frozen().size()
}

/// The distinct values of a field, ascending by bytes. Where one stands there, as mostly, it is the list.
/// Its only refusal is OutOfMemory.
fn distinct<A: Allocator + Copy>(
    alloc: A,
    standing: &DotFun<Value<A>, A>,
) -> Result<Vec<Value<A>, A>, Refusal>
    ensures ok { IfOk result (λ found. Gathers found.items (values_of standing.now)) }
    ensures entries { IfOk result (λ _. AreEntries standing.now) }
    ensures err { IsOkUnless result Refusal.OutOfMemory }
{
    if let [(_, value)] = standing.entries() {
        return alone(alloc, value);
    }
    let mut found = BTreeSet::new(alloc);
    gather_values(alloc, &mut found, standing)?;
    Ok(listed(alloc, found)?)
}

/// The distinct values of all these fields, ascending by bytes.
/// Its only refusal is OutOfMemory.
fn distinct_within<A: Allocator + Copy>(
    alloc: A,
    fields: &[(Field<A>, DotFun<Value<A>, A>)],
) -> Result<Vec<Value<A>, A>, Refusal>
    ensures ok { IfOk result (λ found. Gathers found.items (flat_map (λ field. values_of field.1) fields.now)) }
    ensures entries { IfOk result (λ _. All (λ field. AreEntries field.1) fields.now) }
    ensures err { IsOkUnless result Refusal.OutOfMemory }
{
    if let [(_, standing)] = fields {
        return distinct(alloc, standing);
    }
    let mut found = BTreeSet::new(alloc);
    gather_fields(alloc, &mut found, fields)?;
    Ok(listed(alloc, found)?)
}

/// The list of this value alone, with room for no more.
/// Its only refusal is OutOfMemory.
fn alone<A: Allocator + Copy>(alloc: A, value: &Value<A>) -> Result<Vec<Value<A>, A>, Refusal>
    ensures ok { IfOk result (λ list. list.items ≡ value.now ∷ []) }
    ensures err { IsOkUnless result Refusal.OutOfMemory }
{
    let mut list = Vec::with_capacity(alloc, 1)?;
    list.push(value.copy(alloc)?)?;
    Ok(list)
}

/// Adds the values of a field.
/// A refused call may have added some.
/// Its only refusal is OutOfMemory.
fn gather_values<A: Allocator + Copy>(
    alloc: A,
    found: &mut BTreeSet<Value<A>, A>,
    standing: &DotFun<Value<A>, A>,
) -> Result<(), Refusal>
    ensures ok { OnOk result (GathersMore found.old.keys found.new.keys (values_of standing.now)) }
    ensures entries { OnOk result (AreEntries standing.now) }
    ensures err { IsOkUnless result Refusal.OutOfMemory }
{
    for (_, value) in standing.entries() {
        found.insert(value.copy(alloc)?)?;
    }
    Ok(())
}

/// Adds the values of all these fields.
/// A refused call may have added some.
/// Its only refusal is OutOfMemory.
fn gather_fields<A: Allocator + Copy>(
    alloc: A,
    found: &mut BTreeSet<Value<A>, A>,
    fields: &[(Field<A>, DotFun<Value<A>, A>)],
) -> Result<(), Refusal>
    ensures ok { OnOk result (GathersMore found.old.keys found.new.keys (flat_map (λ field. values_of field.1) fields.now)) }
    ensures entries { OnOk result (All (λ field. AreEntries field.1) fields.now) }
    ensures err { IsOkUnless result Refusal.OutOfMemory }
{
    for (_, standing) in fields {
        gather_values(alloc, found, standing)?;
    }
    Ok(())
}

/// What is in a set, in order.
/// It fails only for want of memory.
fn listed<T: Ord + Drop, A: Allocator + Copy>(
    alloc: A,
    found: BTreeSet<T, A>,
) -> Result<Vec<T, A>, AllocError>
    ensures { IfOk result (λ list. list.items ≡ found.keys) }
{
    found.into_iter().collect(alloc)
}

/// The keys of these entries, in their order.
/// Its only refusal is OutOfMemory.
fn copied_keys<K: Kept<A>, S, A: Allocator + Copy>(
    alloc: A,
    entries: &[(K, S)],
) -> Result<Vec<K, A>, Refusal>
    ensures ok { IfOk result (λ keys. keys.items ≡ keys_of entries.now) }
    ensures err { IsOkUnless result Refusal.OutOfMemory }
{
    let mut keys = Vec::new(alloc);
    for (key, _) in entries {
        keys.push(key.copy(alloc)?)?;
    }
    Ok(keys)
}
