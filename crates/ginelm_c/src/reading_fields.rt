// What a replica shows of fields, and of itself.
ghost use Rattle.std.specs.Prelude.{◌≡◌, ◌≢◌, ◌≤◌, ◌↔◌, List, [], ℕ, Option, Some, None, true, OnOk, OnErr, IsTrue, length, take};
ghost use Rattle.causal_context.specs.Context.{has};
ghost use Rattle.op_model.specs.Meaning.{Stands, HoldsField};
ghost use Rattle.op_model.specs.Place.{place_of};
ghost use Rattle.replica_core.specs.Meaning.{meaning};
ghost use Rattle.ginelm_c.specs.Handling.{Between, StaysEmpty, StaysFull};
ghost use Rattle.ginelm_c.specs.Reading.{IsRootDigest, Knows, Shows, ShowsDigest, digest_bytes};
ghost use Rattle.ginelm_c.specs.declared.held.Held.{Held};

use crate::answer::{EMPTY, told};
use crate::handle::Handle;
use crate::held::Held;
use crate::telling::copied;
use crate::texts::Texts;
use dots::{Dot, Field, Key, Name, Refusal};
use std::alloc::Global;

fn get_field(alloc: Global, held: &mut Held, key: &[u8], field: &[u8]) -> Result<(), Refusal>
    ensures ok { OnOk result (Shows held.old held.new (Stands (meaning held.old.replica).live (place_of key.now field.now))) }
    ensures unchanged { OnErr result (held.new ≡ held.old) }
{
    let key = Key::new(alloc, key)?;
    let field = Field::new(alloc, field)?;
    let values = held.replica.get_field(&key, &field)?;
    held.texts = Texts::Values(values);
    Ok(())
}

/// The values of the field of the key become the texts, ascending by bytes.
#[unsafe(no_mangle)]
pub extern "C" fn ginelm_get_field(
    alloc: Global,
    here: &mut Handle,
    key: &[u8],
    field: &[u8],
) -> u32
    ensures none { StaysEmpty here.old.value here.new.value result }
    ensures kept { StaysFull here.old.value here.new.value }
    ensures done { result ≡ 0 → Between here.old.value here.new.value (λ x y. Shows x y (Stands (meaning x.replica).live (place_of key.now field.now))) }
    ensures refused { result ≢ 0 → here.new.value ≡ here.old.value }
{
    let Some(mut held) = here.take(alloc) else {
        return EMPTY;
    };
    let answer = told(get_field(alloc, &mut held, key, field));
    here.give(held);
    answer
}

fn fields(alloc: Global, held: &mut Held, key: &[u8]) -> Result<(), Refusal>
    ensures ok { OnOk result (Shows held.old held.new (HoldsField (meaning held.old.replica).live key.now)) }
    ensures unchanged { OnErr result (held.new ≡ held.old) }
{
    let key = Key::new(alloc, key)?;
    let fields = held.replica.fields(&key)?;
    held.texts = Texts::Fields(fields);
    Ok(())
}

/// The fields of the key that hold a value become the texts, ascending by bytes.
#[unsafe(no_mangle)]
pub extern "C" fn ginelm_fields(alloc: Global, here: &mut Handle, key: &[u8]) -> u32
    ensures none { StaysEmpty here.old.value here.new.value result }
    ensures kept { StaysFull here.old.value here.new.value }
    ensures done { result ≡ 0 → Between here.old.value here.new.value (λ x y. Shows x y (HoldsField (meaning x.replica).live key.now)) }
    ensures refused { result ≢ 0 → here.new.value ≡ here.old.value }
{
    let Some(mut held) = here.take(alloc) else {
        return EMPTY;
    };
    let answer = told(fields(alloc, &mut held, key));
    here.give(held);
    answer
}

// The root digest of its map, if it has a key.
fn root_digest(held: &Held) -> Option<[u8; 32]>
    ensures { IsRootDigest (meaning held.now.replica).live result }
{
    held.replica.digest()
}

// Copies a digest, or no bytes.
pub(crate) fn copied_digest(digest: Option<[u8; 32]>, out: &mut [u8], needed: &mut usize) -> u32
    ensures told { result ≡ 0 → take needed.new out.new ≡ digest_bytes digest }
{
    match digest {
        Some(digest) => copied(&digest, out, needed),
        None => copied(&[], out, needed),
    }
}

fn digest(held: &Held, out: &mut [u8], needed: &mut usize) -> u32
    ensures told { result ≡ 0 → ShowsDigest (meaning held.now.replica).live (take needed.new out.new) }
{
    copied_digest(root_digest(held), out, needed)
}

/// Copies the root digest, as ginelm_text copies a text: 32 bytes, or none where there is no key. Replicas that hold the same have the same.
#[unsafe(no_mangle)]
pub extern "C" fn ginelm_digest(
    alloc: Global,
    here: &mut Handle,
    out: &mut [u8],
    needed: &mut usize,
) -> u32
    ensures none { StaysEmpty here.old.value here.new.value result }
    ensures same { here.new.value ≡ here.old.value }
    ensures told { result ≡ 0 → (x : Held) → here.old.value ≡ Some x → ShowsDigest (meaning x.replica).live (take needed.new out.new) }
{
    let Some(held) = here.take(alloc) else {
        return EMPTY;
    };
    let answer = digest(&held, out, needed);
    here.give(held);
    answer
}

// Whether it knows the write of this name and number; it knows none of the name 0 or the number 0.
fn knows(held: &Held, name: u64, number: u64) -> bool
    ensures { IsTrue result ↔ Knows held.now name number }
{
    let Some(name) = Name::new(name) else {
        return false;
    };
    match Dot::new(name, number) {
        Some(dot) => held.replica.context().contains(dot),
        None => false,
    }
}

/// Tells whether the replica has seen the write of this number of the replica of this name, from 1 on.
#[unsafe(no_mangle)]
pub extern "C" fn ginelm_knows(
    alloc: Global,
    here: &mut Handle,
    name: u64,
    number: u64,
    is_known: &mut bool,
) -> u32
    ensures none { StaysEmpty here.old.value here.new.value result }
    ensures same { here.new.value ≡ here.old.value }
    ensures told { (x : Held) → here.old.value ≡ Some x → (result ≡ 0) × (IsTrue is_known.new ↔ Knows x name number) }
{
    let Some(held) = here.take(alloc) else {
        return EMPTY;
    };
    *is_known = knows(&held, name, number);
    here.give(held);
    0
}
