// Numbers, names and dots as parts.
ghost use Rattle.std.specs.Prelude.{◌≡◌, ◌≤◌, ◌↔◌, IsSome, IfSome, OnOk, IsOkUnless};
ghost use Rattle.wire_form.specs.Spelling.{number, IsNumber};
ghost use Rattle.wire_form.specs.Parts.{IsName, dot_bytes, IsDot};
ghost use Rattle.wire_form.specs.Writing.{Appends};
ghost use Rattle.wire_form.specs.Unique.{number_starts, number_unique, name_starts, name_unique, dot_starts, dot_unique};

use crate::append::Append;
use crate::spelled::Spelled;
use dots::{Dot, Name, Refusal};
use std::alloc::Allocator;

impl<A: Allocator + Copy> Spelled<A> for u64 {
    ghost spell = { number };

    ghost fits = { IsNumber };

    fn read(_alloc: A, bytes: &[u8]) -> Result<(u64, &[u8]), Refusal> {
        if bytes.len() < 8 {
            return Err(Refusal::NotAMessage);
        }
        let (front, rest) = bytes.split_at(8);
        let number = u64::from_be_bytes([
            front[0], front[1], front[2], front[3], front[4], front[5], front[6], front[7],
        ]);
        Ok((number, rest))
    }

    ghost starts = { number_starts };

    ghost unique = { number_unique };
}

impl<A: Allocator + Copy> Append<A> for u64 {
    fn append_to(&self, out: &mut Vec<u8, A>) -> Result<(), Refusal> {
        write_number(out, *self)
    }
}

fn write_number<A: Allocator + Copy>(out: &mut Vec<u8, A>, value: u64) -> Result<(), Refusal>
    ensures ok { OnOk result (Appends number IsNumber out.old.items out.new.items value) }
    ensures err { IsOkUnless result Refusal.OutOfMemory }
{
    out.extend_from_slice(&value.to_be_bytes())?;
    Ok(())
}

impl<A: Allocator + Copy> Spelled<A> for Name {
    ghost spell = { number };

    ghost fits = { IsName };

    fn read(alloc: A, bytes: &[u8]) -> Result<(Name, &[u8]), Refusal> {
        let (number, rest) = u64::read(alloc, bytes)?;
        let Some(name) = Name::new(number) else {
            return Err(Refusal::NotAMessage);
        };
        Ok((name, rest))
    }

    ghost starts = { name_starts };

    ghost unique = { name_unique };
}

impl<A: Allocator + Copy> Append<A> for Name {
    fn append_to(&self, out: &mut Vec<u8, A>) -> Result<(), Refusal> {
        self.number().append_to(out)
    }
}

// The dot of this name and number, or None where either is 0.
fn dot_of(name: u64, number: u64) -> Option<Dot>
    ensures found { IsSome result ↔ ((1 ≤ name) × (1 ≤ number)) }
    ensures value { IfSome result (λ dot. dot ≡ record { name = name; number = number }) }
{
    Dot::new(Name::new(name)?, number)
}

impl<A: Allocator + Copy> Spelled<A> for Dot {
    ghost spell = { dot_bytes };

    ghost fits = { IsDot };

    fn read(alloc: A, bytes: &[u8]) -> Result<(Dot, &[u8]), Refusal> {
        let (name, rest) = u64::read(alloc, bytes)?;
        let (number, rest) = u64::read(alloc, rest)?;
        match dot_of(name, number) {
            Some(dot) => Ok((dot, rest)),
            None => Err(Refusal::NotAMessage),
        }
    }

    ghost starts = { dot_starts };

    ghost unique = { dot_unique };
}

impl<A: Allocator + Copy> Append<A> for Dot {
    fn append_to(&self, out: &mut Vec<u8, A>) -> Result<(), Refusal> {
        self.name().append_to(out)?;
        self.number().append_to(out)
    }
}
