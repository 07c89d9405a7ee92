// The values of a field as a part of a message.
ghost use Rattle.wire_form.specs.Parts.{values_bytes, AreValues};
ghost use Rattle.wire_form.specs.Unique.{values_starts, values_unique};

use crate::append::{Append, append_items};
use crate::items::read_items;
use crate::spelled::Spelled;
use dot_store::DotFun;
use dots::{Dot, Refusal, Value};
use std::alloc::Allocator;

impl<A: Allocator + Copy> Spelled<A> for DotFun<Value<A>, A> {
    ghost spell = { values_bytes };

    ghost fits = { AreValues };

    fn read(alloc: A, bytes: &[u8]) -> Result<(DotFun<Value<A>, A>, &[u8]), Refusal> {
        let (entries, rest) = read_items::<(Dot, Value<A>), A>(alloc, bytes)?;
        match DotFun::from_entries(entries) {
            Some(values) => Ok((values, rest)),
            None => Err(Refusal::NotAMessage),
        }
    }

    ghost starts = { values_starts };

    ghost unique = { values_unique };
}

impl<A: Allocator + Copy> Append<A> for DotFun<Value<A>, A> {
    fn append_to(&self, out: &mut Vec<u8, A>) -> Result<(), Refusal> {
        append_items(out, self.entries())
    }
}
