// Keys that have the empty field alone, and stores of such keys: they are spelled with no field.
ghost use Rattle.std.specs.Prelude.{◌≡◌, ◌↔◌, is_some, IfOk, IfSome, IsSome, IsOkUnless};
ghost use Rattle.std.specs.List.Sorted.{IsStrictlySortedBy};
ghost use Rattle.std.specs.Map.{keys_of};
ghost use Rattle.dots.specs.Bytes.{bytes_cmp};
ghost use Rattle.dot_store.specs.Stores.{at_values, NoKeyIsEmpty};
ghost use Rattle.wire_form.specs.Store.{is_plain_form, is_sole, alone, first_values, sole, AreSole};
ghost use Rattle.wire_form.specs.Unique.{sole_starts, sole_unique};

use crate::spelled::Spelled;
use causal_join::{Fields, OrMapStore};
use dot_store::DotFun;
use dots::{Field, Refusal, Value};
use std::alloc::{Allocator, Global};
use std::marker::Model;

// The fields of a key that has the empty field alone.
#[derive(Drop)]
pub(crate) struct Plain<A: Allocator + Copy = Global> {
    fields: Fields<A>,
}

impl<A: Allocator + Copy> Model for Plain<A> {
    ghost use Rattle.causal_join.specs.OrMap.{FieldsValue};

    ghost Value = { FieldsValue };

    ghost view = { λ plain. plain.fields };
}

impl<A: Allocator + Copy> Plain<A> {
    pub fn into_fields(self) -> Fields<A>
        ensures { result ≡ self }
    {
        self.fields
    }
}

// The fields of a key that has these values at the empty field alone, or None exactly where there is no value.
fn at_empty_field<A: Allocator + Copy>(
    alloc: A,
    values: DotFun<Value<A>, A>,
) -> Result<Option<Fields<A>>, Refusal>
    ensures canonical { IfOk result (λ made. IsSome made
        ↔ (IsStrictlySortedBy bytes_cmp (keys_of (alone values)) × NoKeyIsEmpty at_values (alone values))) }
    ensures fields { IfOk result (λ made. IfSome made (λ fields. fields ≡ alone values)) }
    ensures err { IsOkUnless result Refusal.OutOfMemory }
{
    let mut entries = Vec::with_capacity(alloc, 1)?;
    entries.push((Field::empty(), values))?;
    Ok(Fields::from_entries(entries))
}

impl<A: Allocator + Copy> Spelled<A> for Plain<A> {
    ghost spell = { sole };

    ghost fits = { AreSole };

    fn read(alloc: A, bytes: &[u8]) -> Result<(Plain<A>, &[u8]), Refusal> {
        let (values, rest) = DotFun::read(alloc, bytes)?;
        match at_empty_field(alloc, values)? {
            Some(fields) => Ok((Plain { fields }, rest)),
            None => Err(Refusal::NotAMessage),
        }
    }

    ghost starts = { sole_starts };

    ghost unique = { sole_unique };
}

// The values of the empty field, or None exactly where it is not there alone.
pub(crate) fn values_alone<A: Allocator + Copy>(fields: &Fields<A>) -> Option<&DotFun<Value<A>, A>>
    ensures sole { is_some result ≡ is_sole fields.now }
    ensures values { IfSome result (λ values. values.now ≡ first_values fields.now) }
    ensures ascend { IsStrictlySortedBy bytes_cmp (keys_of fields.now) }
    ensures filled { NoKeyIsEmpty at_values fields.now }
{
    let entries = fields.entries();
    values_in(entries)
}

fn values_in<A: Allocator + Copy>(
    entries: &[(Field<A>, DotFun<Value<A>, A>)],
) -> Option<&DotFun<Value<A>, A>>
    ensures sole { is_some result ≡ is_sole entries.now }
    ensures values { IfSome result (λ values. values.now ≡ first_values entries.now) }
{
    match entries {
        [(field, values)] if field.bytes().is_empty() => Some(values),
        _ => None,
    }
}

fn is_alone<A: Allocator + Copy>(fields: &Fields<A>) -> bool
    ensures { result ≡ is_sole fields.now }
{
    values_alone(fields).is_some()
}

// Whether each key of the store has the empty field alone.
pub(crate) fn is_plain_store<A: Allocator + Copy>(store: &OrMapStore<A>) -> bool
    ensures { result ≡ is_plain_form store.now }
{
    let entries = store.entries();
    for (_, fields) in entries {
        if !is_alone(fields) {
            return false;
        }
    }
    true
}
