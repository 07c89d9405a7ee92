// A replica writes.
ghost use Rattle.std.specs.Prelude.{◌≡◌, ◌≢◌, OnOk, OnErr};
ghost use Rattle.op_model.specs.Place.{plain, place_of};
ghost use Rattle.replica_model.specs.Step.{Do, Put, Remove, RemoveField, Clear, Counted};
ghost use Rattle.ginelm_c.specs.Handling.{Between, IsSame, Makes, StaysEmpty, StaysFull};
ghost use Rattle.ginelm_c.specs.Writing.{Puts};

use crate::answer::{EMPTY, told};
use crate::handle::Handle;
use crate::held::Held;
use dots::{Field, Key, Refusal, Value};
use std::alloc::Global;

fn put(
    alloc: Global,
    held: &mut Held,
    key: &[u8],
    value: &[u8],
    number: &mut u64,
) -> Result<(), Refusal>
    ensures ok { OnOk result (Puts held.old held.new (plain key.now) value.now number.new) }
    ensures unchanged { OnErr result (IsSame held.old held.new) }
    ensures untold { OnErr result (number.new ≡ number.old) }
{
    let key = Key::new(alloc, key)?;
    let value = Value::new(alloc, value)?;
    let dot = held.replica.put(&key, &value)?;
    *number = dot.number();
    Ok(())
}

/// Writes the value on the key, at its empty field, and tells the number of the write.
#[unsafe(no_mangle)]
pub extern "C" fn ginelm_put(
    alloc: Global,
    here: &mut Handle,
    key: &[u8],
    value: &[u8],
    number: &mut u64,
) -> u32
    ensures none { StaysEmpty here.old.value here.new.value result }
    ensures kept { StaysFull here.old.value here.new.value }
    ensures done { result ≡ 0 → Between here.old.value here.new.value (λ x y. Puts x y (plain key.now) value.now number.new) }
    ensures refused { result ≢ 0 → Between here.old.value here.new.value IsSame }
    ensures untold { result ≢ 0 → number.new ≡ number.old }
{
    let Some(mut held) = here.take(alloc) else {
        return EMPTY;
    };
    let answer = told(put(alloc, &mut held, key, value, number));
    here.give(held);
    answer
}

fn put_field(
    alloc: Global,
    held: &mut Held,
    key: &[u8],
    field: &[u8],
    value: &[u8],
    number: &mut u64,
) -> Result<(), Refusal>
    ensures ok { OnOk result (Puts held.old held.new (place_of key.now field.now) value.now number.new) }
    ensures unchanged { OnErr result (IsSame held.old held.new) }
    ensures untold { OnErr result (number.new ≡ number.old) }
{
    let key = Key::new(alloc, key)?;
    let field = Field::new(alloc, field)?;
    let value = Value::new(alloc, value)?;
    let dot = held.replica.put_field(&key, &field, &value)?;
    *number = dot.number();
    Ok(())
}

/// Writes the value on the field of the key, and tells the number of the write.
#[unsafe(no_mangle)]
pub extern "C" fn ginelm_put_field(
    alloc: Global,
    here: &mut Handle,
    key: &[u8],
    field: &[u8],
    value: &[u8],
    number: &mut u64,
) -> u32
    ensures none { StaysEmpty here.old.value here.new.value result }
    ensures kept { StaysFull here.old.value here.new.value }
    ensures done { result ≡ 0 → Between here.old.value here.new.value (λ x y. Puts x y (place_of key.now field.now) value.now number.new) }
    ensures refused { result ≢ 0 → Between here.old.value here.new.value IsSame }
    ensures untold { result ≢ 0 → number.new ≡ number.old }
{
    let Some(mut held) = here.take(alloc) else {
        return EMPTY;
    };
    let answer = told(put_field(alloc, &mut held, key, field, value, number));
    here.give(held);
    answer
}

fn remove(alloc: Global, held: &mut Held, key: &[u8], observed: &mut u64) -> Result<(), Refusal>
    ensures ok { OnOk result (Makes held.old held.new (Do (Remove key.now)) (Counted observed.new)) }
    ensures unchanged { OnErr result (IsSame held.old held.new) }
    ensures untold { OnErr result (observed.new ≡ observed.old) }
{
    let key = Key::new(alloc, key)?;
    *observed = held.replica.remove(&key)?;
    Ok(())
}

/// Takes the key away with all its fields, and tells how many writes that observed.
#[unsafe(no_mangle)]
pub extern "C" fn ginelm_remove(
    alloc: Global,
    here: &mut Handle,
    key: &[u8],
    observed: &mut u64,
) -> u32
    ensures none { StaysEmpty here.old.value here.new.value result }
    ensures kept { StaysFull here.old.value here.new.value }
    ensures done { result ≡ 0 → Between here.old.value here.new.value (λ x y. Makes x y (Do (Remove key.now)) (Counted observed.new)) }
    ensures refused { result ≢ 0 → Between here.old.value here.new.value IsSame }
    ensures untold { result ≢ 0 → observed.new ≡ observed.old }
{
    let Some(mut held) = here.take(alloc) else {
        return EMPTY;
    };
    let answer = told(remove(alloc, &mut held, key, observed));
    here.give(held);
    answer
}

fn remove_field(
    alloc: Global,
    held: &mut Held,
    key: &[u8],
    field: &[u8],
    observed: &mut u64,
) -> Result<(), Refusal>
    ensures ok { OnOk result (Makes held.old held.new (Do (RemoveField (place_of key.now field.now))) (Counted observed.new)) }
    ensures unchanged { OnErr result (IsSame held.old held.new) }
    ensures untold { OnErr result (observed.new ≡ observed.old) }
{
    let key = Key::new(alloc, key)?;
    let field = Field::new(alloc, field)?;
    *observed = held.replica.remove_field(&key, &field)?;
    Ok(())
}

/// Takes the field of the key away, and tells how many writes that observed.
#[unsafe(no_mangle)]
pub extern "C" fn ginelm_remove_field(
    alloc: Global,
    here: &mut Handle,
    key: &[u8],
    field: &[u8],
    observed: &mut u64,
) -> u32
    ensures none { StaysEmpty here.old.value here.new.value result }
    ensures kept { StaysFull here.old.value here.new.value }
    ensures done { result ≡ 0 → Between here.old.value here.new.value (λ x y. Makes x y (Do (RemoveField (place_of key.now field.now))) (Counted observed.new)) }
    ensures refused { result ≢ 0 → Between here.old.value here.new.value IsSame }
    ensures untold { result ≢ 0 → observed.new ≡ observed.old }
{
    let Some(mut held) = here.take(alloc) else {
        return EMPTY;
    };
    let answer = told(remove_field(alloc, &mut held, key, field, observed));
    here.give(held);
    answer
}

fn clear(held: &mut Held, observed: &mut u64) -> Result<(), Refusal>
    ensures ok { OnOk result (Makes held.old held.new (Do Clear) (Counted observed.new)) }
    ensures unchanged { OnErr result (IsSame held.old held.new) }
    ensures untold { OnErr result (observed.new ≡ observed.old) }
{
    *observed = held.replica.clear()?;
    Ok(())
}

/// Takes all keys away, and tells how many writes that observed.
#[unsafe(no_mangle)]
pub extern "C" fn ginelm_clear(alloc: Global, here: &mut Handle, observed: &mut u64) -> u32
    ensures none { StaysEmpty here.old.value here.new.value result }
    ensures kept { StaysFull here.old.value here.new.value }
    ensures done { result ≡ 0 → Between here.old.value here.new.value (λ x y. Makes x y (Do Clear) (Counted observed.new)) }
    ensures refused { result ≢ 0 → Between here.old.value here.new.value IsSame }
    ensures untold { result ≢ 0 → observed.new ≡ observed.old }
{
    let Some(mut held) = here.take(alloc) else {
        return EMPTY;
    };
    let answer = told(clear(&mut held, observed));
    here.give(held);
    answer
}
