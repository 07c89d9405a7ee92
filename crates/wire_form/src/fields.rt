// The fields of a key as a part of a message.
ghost use Rattle.wire_form.specs.Parts.{fields_bytes, AreFields};
ghost use Rattle.wire_form.specs.Unique.{fields_starts, fields_unique};

use crate::append::{Append, append_items};
use crate::items::read_items;
use crate::spelled::Spelled;
use causal_join::Fields;
use dot_store::DotFun;
use dots::{Field, Refusal, Value};
use std::alloc::Allocator;

impl<A: Allocator + Copy> Spelled<A> for Fields<A> {
    ghost spell = { fields_bytes };

    ghost fits = { AreFields };

    fn read(alloc: A, bytes: &[u8]) -> Result<(Fields<A>, &[u8]), Refusal> {
        let (entries, rest) = read_items::<(Field<A>, DotFun<Value<A>, A>), A>(alloc, bytes)?;
        match Fields::from_entries(entries) {
            Some(fields) => Ok((fields, rest)),
            None => Err(Refusal::NotAMessage),
        }
    }

    ghost starts = { fields_starts };

    ghost unique = { fields_unique };
}

impl<A: Allocator + Copy> Append<A> for Fields<A> {
    fn append_to(&self, out: &mut Vec<u8, A>) -> Result<(), Refusal> {
        append_items(out, self.entries())
    }
}
