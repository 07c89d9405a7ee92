// Bytes and digests as parts of messages.
ghost use Rattle.wire_form.specs.Spelling.{IsWhole, byte, IsByte};
ghost use Rattle.wire_form.specs.Page.{digest, IsDigest};
ghost use Rattle.wire_form.specs.Reading.{ReadsAll};
ghost use Rattle.wire_form.specs.UniquePages.{byte_starts, byte_unique, digest_starts, digest_unique};

use crate::append::Append;
use crate::spelled::Spelled;
use dots::Refusal;
use std::alloc::Allocator;

impl<A: Allocator + Copy> Spelled<A> for u8 {
    ghost spell = { byte };

    ghost fits = { IsByte };

    fn read(_alloc: A, bytes: &[u8]) -> Result<(u8, &[u8]), Refusal> {
        match bytes.split_first() {
            Some((byte, rest)) => Ok((*byte, rest)),
            None => Err(Refusal::NotAMessage),
        }
    }

    ghost starts = { byte_starts };

    ghost unique = { byte_unique };
}

impl<A: Allocator + Copy> Append<A> for u8 {
    fn append_to(&self, out: &mut Vec<u8, A>) -> Result<(), Refusal> {
        out.push(*self)?;
        Ok(())
    }
}

impl<A: Allocator + Copy> Spelled<A> for [u8; 32] {
    ghost spell = { digest };

    ghost fits = { IsDigest };

    fn read(_alloc: A, bytes: &[u8]) -> Result<([u8; 32], &[u8]), Refusal> {
        match bytes.split_first_chunk::<32>() {
            Some((digest, rest)) => Ok((*digest, rest)),
            None => Err(Refusal::NotAMessage),
        }
    }

    ghost starts = { digest_starts };

    ghost unique = { digest_unique };
}

impl<A: Allocator + Copy> Append<A> for [u8; 32] {
    fn append_to(&self, out: &mut Vec<u8, A>) -> Result<(), Refusal> {
        out.extend_from_slice(self)?;
        Ok(())
    }
}

// The digest that is all the bytes.
pub(crate) fn read_whole_digest(bytes: &[u8]) -> Result<[u8; 32], Refusal>
    ensures { ReadsAll (λ d. d) (IsWhole digest IsDigest bytes.now) result }
{
    match bytes.split_first_chunk::<32>() {
        Some((digest, [])) => Ok(*digest),
        _ => Err(Refusal::NotAMessage),
    }
}
