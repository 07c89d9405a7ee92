// The dots of a field with the names of their values, and the fields of a key with their dots, as parts of a page.
ghost use Rattle.wire_form.specs.Page.{names, AreNames, named, AreNamed};
ghost use Rattle.wire_form.specs.UniquePages.{names_starts, names_unique, named_starts, named_unique};

use crate::append::{Append, append_items};
use crate::items::read_items;
use crate::page::{NamedFields, Names};
use crate::spelled::Spelled;
use dot_store::DotFun;
use dots::{Dot, Field, Refusal};
use ordered_list::OrderedList;
use std::alloc::Allocator;

impl<A: Allocator + Copy> Spelled<A> for DotFun<[u8; 32], A> {
    ghost spell = { names };

    ghost fits = { AreNames };

    fn read(alloc: A, bytes: &[u8]) -> Result<(Names<A>, &[u8]), Refusal> {
        let (entries, rest) = read_items::<(Dot, [u8; 32]), A>(alloc, bytes)?;
        match DotFun::from_entries(entries) {
            Some(names) => Ok((names, rest)),
            None => Err(Refusal::NotAMessage),
        }
    }

    ghost starts = { names_starts };

    ghost unique = { names_unique };
}

impl<A: Allocator + Copy> Append<A> for DotFun<[u8; 32], A> {
    fn append_to(&self, out: &mut Vec<u8, A>) -> Result<(), Refusal> {
        append_items(out, self.entries())
    }
}

impl<A: Allocator + Copy> Spelled<A> for OrderedList<Field<A>, DotFun<[u8; 32], A>, A> {
    ghost spell = { named };

    ghost fits = { AreNamed };

    fn read(alloc: A, bytes: &[u8]) -> Result<(NamedFields<A>, &[u8]), Refusal> {
        let (entries, rest) = read_items::<(Field<A>, Names<A>), A>(alloc, bytes)?;
        match OrderedList::from_entries(entries) {
            Some(fields) => Ok((fields, rest)),
            None => Err(Refusal::NotAMessage),
        }
    }

    ghost starts = { named_starts };

    ghost unique = { named_unique };
}

impl<A: Allocator + Copy> Append<A> for OrderedList<Field<A>, DotFun<[u8; 32], A>, A> {
    fn append_to(&self, out: &mut Vec<u8, A>) -> Result<(), Refusal> {
        append_items(out, self.entries())
    }
}
