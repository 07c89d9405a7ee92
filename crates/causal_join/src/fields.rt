ghost use Rattle.std.specs.Prelude.{◌≡◌, ◌↔◌, Contains, IsSome, IfSome, IsOk, OnOk, OnErr, IsOkUnless, List, ℕ};
ghost use Rattle.std.specs.Option.{option_copied};
ghost use Rattle.std.specs.Ordering.{ord_max};
ghost use Rattle.std.specs.List.Sorted.{IsStrictlySortedBy};
ghost use Rattle.std.specs.Map.{keys_of};
ghost use Rattle.std.specs.Cmp.Lexicographic.{nat_list_cmp_total};
ghost use Rattle.std.proofs.lemmas.Map.Lookups.{exact_bytes};
ghost use Rattle.dots.specs.Bytes.{bytes_cmp};
ghost use Rattle.dots.specs.Dot.{DotValue};
ghost use Rattle.causal_context.specs.Dots.{dot_cmp};
ghost use Rattle.dot_store.specs.Store.{HasNothing, HoldsSame};
ghost use Rattle.dot_store.specs.Stores.{at_values, held_by, with_store, NoKeyIsEmpty, IsCanonicalMap};
ghost use Rattle.dot_store.specs.Greater.{ord_max-comm, ord_max-assoc, ord_max-idem};
ghost use Rattle.causal_join.specs.OrMap.{ValuesValue, fields_at};

use causal_context::Context;
use dot_store::{DotFun, DotMap, DotStore};
use dots::{Dot, Field, Refusal, Value};
use std::alloc::{Allocator, Global};
use std::marker::Model;

/// The fields of a key: each holds the values that stand there, by the dots of their writes. A field with no value is not there.
///
/// It is a `DotMap` from fields to `DotFun`s, under a name of its own: what is proved over it speaks of the name alone.
#[derive(Drop)]
pub struct Fields<A: Allocator + Copy = Global> {
    values: DotMap<Field<A>, DotFun<Value<A>, A>, A>,
}

impl<A: Allocator + Copy> Model for Fields<A> {
    ghost use Rattle.causal_join.specs.OrMap.{FieldsValue};

    ghost Value = { FieldsValue };

    ghost view = { λ f. f.values };
}

impl<A: Allocator + Copy> Fields<A> {
    /// The fields of these entries, or None exactly where they do not ascend, each field once, or one has no value. Takes the vector
    /// over as it is, and no memory, and time in the number of fields.
    pub fn from_entries(entries: Vec<(Field<A>, DotFun<Value<A>, A>), A>) -> Option<Fields<A>>
        ensures canonical { IsSome result
            ↔ (IsStrictlySortedBy bytes_cmp (keys_of entries.items) × NoKeyIsEmpty at_values entries.items) }
        ensures stores { IfSome result (λ fields. fields ≡ entries.items) }
    {
        let values = DotMap::from_entries(entries)?;
        Some(Fields { values })
    }

    /// What stands at the field, which is never nothing. Takes time in the logarithm of the number of fields, and no memory.
    /// None exactly where nothing stands there.
    pub fn get(&self, field: &Field<A>) -> Option<&DotFun<Value<A>, A>>
        ensures held { (place : Unit {0}) (d : DotValue)
            → fields_at self.now (field.now, place) d ≡ held_by at_values (option_copied result) place d }
        ensures filled { IfSome result (λ values. ¬ HasNothing (at_values values.now)) }
    {
        self.values.get(field)
    }

    /// The fields with what stands there, by ascending bytes. None holds nothing. Copies nothing.
    pub fn entries(&self) -> &[(Field<A>, DotFun<Value<A>, A>)]
        ensures rest { result.now ≡ self.now }
        ensures filled { NoKeyIsEmpty at_values result.now }
        ensures held { (field : List ℕ) (values : ValuesValue) → Contains result.now (field, values)
            → (place : Unit {0}) (d : DotValue) → fields_at self.now (field, place) d ≡ at_values values place d }
        ensures only { (field : List ℕ) (place : Unit {0}) (d : DotValue)
            → IsSome (fields_at self.now (field, place) d)
            → (values : ValuesValue) × Contains result.now (field, values) }
        ensures ordered { IsStrictlySortedBy bytes_cmp (keys_of result.now) }
    {
        self.values.entries()
    }

    /// Puts these values at the field, in place of what was there. No values take the field out, which takes no memory. A refused
    /// call leaves the fields as they were. Takes time in the number of greater fields, besides that of a look-up, and memory for
    /// the entry: at times for twice as many as there are.
    /// Its only refusal is OutOfMemory.
    pub fn insert(&mut self, field: Field<A>, values: DotFun<Value<A>, A>) -> Result<(), Refusal>
        ensures ok { OnOk result (HoldsSame (fields_at self.new)
            (with_store at_values bytes_cmp (fields_at self.old) field values)) }
        ensures nothing { HasNothing (at_values values) → IsOk result }
        ensures unchanged { OnErr result (self.new ≡ self.old) }
        ensures err { IsOkUnless result Refusal.OutOfMemory }
    {
        self.values.insert(field, values)
    }
}

impl<A: Allocator + Copy> DotStore<A> for Fields<A> {
    type Place = (Field<A>, ());

    type Held = Value<A>;

    ghost at = { fields_at };

    ghost greater = { ord_max bytes_cmp };

    ghost canonical = { IsCanonicalMap at_values bytes_cmp (λ values. IsStrictlySortedBy dot_cmp (keys_of values)) };

    fn empty(alloc: A) -> Fields<A> {
        Fields {
            values: DotMap::empty(alloc),
        }
    }

    fn is_empty(&self) -> bool {
        self.values.is_empty()
    }

    fn contains(&self, dot: Dot) -> bool {
        self.values.contains(dot)
    }

    fn is_inside(&self, context: &Context<A>) -> bool {
        self.values.is_inside(context)
    }

    fn dots(&self, alloc: A) -> Result<Context<A>, Refusal> {
        self.values.dots(alloc)
    }

    fn join(
        &self,
        alloc: A,
        own: &Context<A>,
        other: &Fields<A>,
        theirs: &Context<A>,
    ) -> Result<Fields<A>, Refusal> {
        let values = self.values.join(alloc, own, &other.values, theirs)?;
        Ok(Fields { values })
    }

    fn join_into(
        &mut self,
        alloc: A,
        own: &Context<A>,
        yours: &Fields<A>,
        theirs: &Context<A>,
        found: &[Dot],
    ) -> Result<(), Refusal> {
        self.values
            .join_into(alloc, own, &yours.values, theirs, found)
    }

    fn copy(&self, alloc: A) -> Result<Fields<A>, Refusal> {
        let values = self.values.copy(alloc)?;
        Ok(Fields { values })
    }

    fn same(&self, other: &Fields<A>) -> bool {
        self.values.same(&other.values)
    }

    ghost greater_comm = { ord_max-comm bytes_cmp nat_list_cmp_total exact_bytes };

    ghost greater_assoc = { ord_max-assoc bytes_cmp nat_list_cmp_total exact_bytes };

    ghost greater_idem = { ord_max-idem bytes_cmp nat_list_cmp_total exact_bytes };
}
