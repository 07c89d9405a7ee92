// The keys, fields and values of a line, which can be too long.
ghost use Rattle.std.specs.Prelude.{◌≡◌, ◌⊎◌, ◌&&◌, nat_le, length, true, false, IfOk, IfErr};
ghost use Rattle.dots.specs.Bytes.{MAX_LENGTH};
ghost use Rattle.op_model.specs.Place.{place_of};
ghost use Rattle.replica_model.specs.Step as step;
ghost use Rattle.replica_core.specs.Writing.{call_value};
ghost use Rattle.trace_world.specs.Texts.{is_short};

use dots::{Field, Key, Refusal, Value};
use replica_core::Call;
use std::alloc::Allocator;

// The key of these bytes.
pub(crate) fn key_of<A: Allocator + Copy>(alloc: A, bytes: &[u8]) -> Result<Key<A>, Refusal>
    ensures ok { IfOk result (λ key. (key ≡ bytes.now) × (nat_le (length bytes.now) MAX_LENGTH ≡ true)) }
    ensures err { IfErr result (λ refusal. (refusal ≡ Refusal.OutOfMemory) ⊎ ((refusal ≡ Refusal.TooLong) × (nat_le (length bytes.now) MAX_LENGTH ≡ false))) }
{
    Key::new(alloc, bytes)
}

// The field of these bytes.
pub(crate) fn field_of<A: Allocator + Copy>(alloc: A, bytes: &[u8]) -> Result<Field<A>, Refusal>
    ensures ok { IfOk result (λ field. (field ≡ bytes.now) × (nat_le (length bytes.now) MAX_LENGTH ≡ true)) }
    ensures err { IfErr result (λ refusal. (refusal ≡ Refusal.OutOfMemory) ⊎ ((refusal ≡ Refusal.TooLong) × (nat_le (length bytes.now) MAX_LENGTH ≡ false))) }
{
    Field::new(alloc, bytes)
}

// The value of these bytes.
pub(crate) fn value_of<A: Allocator + Copy>(alloc: A, bytes: &[u8]) -> Result<Value<A>, Refusal>
    ensures ok { IfOk result (λ value. (value ≡ bytes.now) × (nat_le (length bytes.now) MAX_LENGTH ≡ true)) }
    ensures err { IfErr result (λ refusal. (refusal ≡ Refusal.OutOfMemory) ⊎ ((refusal ≡ Refusal.TooLong) × (nat_le (length bytes.now) MAX_LENGTH ≡ false))) }
{
    Value::new(alloc, bytes)
}

// The put of these bytes.
pub(crate) fn put_of<A: Allocator + Copy>(
    alloc: A,
    key: &[u8],
    field: &[u8],
    value: &[u8],
) -> Result<Call<A>, Refusal>
    ensures ok { IfOk result (λ call. (call_value call ≡ step.Put (place_of key.now field.now) value.now)
        × (is_short key.now ≡ true) × (is_short field.now ≡ true) × (is_short value.now ≡ true)) }
    ensures err { IfErr result (λ refusal. (refusal ≡ Refusal.OutOfMemory) ⊎
        ((refusal ≡ Refusal.TooLong) × ((is_short key.now && (is_short field.now && is_short value.now)) ≡ false))) }
{
    let key = key_of(alloc, key)?;
    let field = field_of(alloc, field)?;
    let value = value_of(alloc, value)?;
    Ok(Call::Put(key, field, value))
}
