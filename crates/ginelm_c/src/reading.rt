// What a replica shows: the keys, and the values at each.
ghost use Rattle.std.specs.Prelude.{◌≡◌, ◌≢◌, ◌↔◌, List, ℕ, OnOk, OnErr, IsTrue, length, take};
ghost use Rattle.op_model.specs.Meaning.{Stands, StandsWithin, HoldsKey};
ghost use Rattle.op_model.specs.Place.{plain};
ghost use Rattle.prefix_digest.specs.MapOf.{IsMapOf};
ghost use Rattle.prefix_digest.specs.Page.{digest_at};
ghost use Rattle.sync_model.specs.Differ.{Held as HeldMap};
ghost use Rattle.replica_core.specs.Meaning.{hash_in, meaning};
ghost use Rattle.replica_core.specs.Reading.{Lists};
ghost use Rattle.ginelm_c.specs.Handling.{Between, IsSame, StaysEmpty, StaysFull};
ghost use Rattle.ginelm_c.specs.Reading.{Shows};
ghost use Rattle.ginelm_c.specs.declared.held.Held.{Held};

use crate::answer::{EMPTY, told};
use crate::handle::Handle;
use crate::held::Held;
use crate::telling::copied;
use crate::texts::Texts;
use dots::{Dot, Key, Name, Refusal};
use std::alloc::Global;

fn get(alloc: Global, held: &mut Held, key: &[u8]) -> Result<(), Refusal>
    ensures ok { OnOk result (Shows held.old held.new (Stands (meaning held.old.replica).live (plain key.now))) }
    ensures unchanged { OnErr result (held.new ≡ held.old) }
{
    let key = Key::new(alloc, key)?;
    let values = held.replica.get(&key)?;
    held.texts = Texts::Values(values);
    Ok(())
}

/// The values of the key at its empty field become the texts, ascending by bytes.
#[unsafe(no_mangle)]
pub extern "C" fn ginelm_get(alloc: Global, here: &mut Handle, key: &[u8]) -> u32
    ensures none { StaysEmpty here.old.value here.new.value result }
    ensures kept { StaysFull here.old.value here.new.value }
    ensures done { result ≡ 0 → Between here.old.value here.new.value (λ x y. Shows x y (Stands (meaning x.replica).live (plain key.now))) }
    ensures refused { result ≢ 0 → here.new.value ≡ here.old.value }
{
    let Some(mut held) = here.take(alloc) else {
        return EMPTY;
    };
    let answer = told(get(alloc, &mut held, key));
    here.give(held);
    answer
}

fn values_of_key(alloc: Global, held: &mut Held, key: &[u8]) -> Result<(), Refusal>
    ensures ok { OnOk result (Shows held.old held.new (StandsWithin (meaning held.old.replica).live key.now)) }
    ensures unchanged { OnErr result (held.new ≡ held.old) }
{
    let key = Key::new(alloc, key)?;
    let values = held.replica.values_of_key(&key)?;
    held.texts = Texts::Values(values);
    Ok(())
}

/// The values of the key over all its fields become the texts, ascending by bytes.
#[unsafe(no_mangle)]
pub extern "C" fn ginelm_values_of_key(alloc: Global, here: &mut Handle, key: &[u8]) -> u32
    ensures none { StaysEmpty here.old.value here.new.value result }
    ensures kept { StaysFull here.old.value here.new.value }
    ensures done { result ≡ 0 → Between here.old.value here.new.value (λ x y. Shows x y (StandsWithin (meaning x.replica).live key.now)) }
    ensures refused { result ≢ 0 → here.new.value ≡ here.old.value }
{
    let Some(mut held) = here.take(alloc) else {
        return EMPTY;
    };
    let answer = told(values_of_key(alloc, &mut held, key));
    here.give(held);
    answer
}

fn keys(held: &mut Held) -> Result<(), Refusal>
    ensures ok { OnOk result (Shows held.old held.new (HoldsKey (meaning held.old.replica).live)) }
    ensures unchanged { OnErr result (held.new ≡ held.old) }
{
    let keys = held.replica.keys()?;
    held.texts = Texts::Keys(keys);
    Ok(())
}

/// The keys that hold a value at some field become the texts, ascending by bytes.
#[unsafe(no_mangle)]
pub extern "C" fn ginelm_keys(alloc: Global, here: &mut Handle) -> u32
    ensures none { StaysEmpty here.old.value here.new.value result }
    ensures kept { StaysFull here.old.value here.new.value }
    ensures done { result ≡ 0 → Between here.old.value here.new.value (λ x y. Shows x y (HoldsKey (meaning x.replica).live)) }
    ensures refused { result ≢ 0 → here.new.value ≡ here.old.value }
{
    let Some(mut held) = here.take(alloc) else {
        return EMPTY;
    };
    let answer = told(keys(&mut held));
    here.give(held);
    answer
}

fn contains(alloc: Global, held: &Held, key: &[u8], is_there: &mut bool) -> Result<(), Refusal>
    ensures ok { OnOk result (IsTrue is_there.new ↔ HoldsKey (meaning held.now.replica).live key.now) }
    ensures untold { OnErr result (is_there.new ≡ is_there.old) }
{
    let key = Key::new(alloc, key)?;
    *is_there = held.replica.contains(&key);
    Ok(())
}

/// Tells whether the key holds a value at some field.
#[unsafe(no_mangle)]
pub extern "C" fn ginelm_contains(
    alloc: Global,
    here: &mut Handle,
    key: &[u8],
    is_there: &mut bool,
) -> u32
    ensures none { StaysEmpty here.old.value here.new.value result }
    ensures same { here.new.value ≡ here.old.value }
    ensures done { result ≡ 0 → (x : Held) → here.old.value ≡ Some x → (IsTrue is_there.new ↔ HoldsKey (meaning x.replica).live key.now) }
    ensures untold { result ≢ 0 → is_there.new ≡ is_there.old }
{
    let Some(held) = here.take(alloc) else {
        return EMPTY;
    };
    let answer = told(contains(alloc, &held, key, is_there));
    here.give(held);
    answer
}

/// Tells how many keys hold a value at some field.
#[unsafe(no_mangle)]
pub extern "C" fn ginelm_size(alloc: Global, here: &mut Handle, size: &mut u64) -> u32
    ensures none { StaysEmpty here.old.value here.new.value result }
    ensures same { here.new.value ≡ here.old.value }
    ensures told { (x : Held) → here.old.value ≡ Some x → (result ≡ 0)
        × ((listed : List (List ℕ)) × Lists (HoldsKey (meaning x.replica).live) listed × (size.new ≡ length listed)) }
{
    let Some(held) = here.take(alloc) else {
        return EMPTY;
    };
    *size = held.replica.size();
    here.give(held);
    0
}
