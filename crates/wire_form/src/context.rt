// The context of a message.
ghost use Rattle.wire_form.specs.Parts.{context, IsContext};
ghost use Rattle.wire_form.specs.Reading.{Reads};

use crate::items::read_items;
use causal_context::Context;
use dots::{Dot, Name, Refusal};
use std::alloc::Allocator;

// The context at the front of the bytes, and the rest of them.
pub(crate) fn read_context<A: Allocator + Copy>(
    alloc: A,
    bytes: &[u8],
) -> Result<(Context<A>, &[u8]), Refusal>
    ensures { Reads (λ r. (r.0, r.1.now)) context IsContext bytes.now result }
{
    let (vector, rest) = read_items::<(Name, u64), A>(alloc, bytes)?;
    let (cloud, rest) = read_items::<Dot, A>(alloc, rest)?;
    match Context::from_parts(vector, cloud) {
        Some(context) => Ok((context, rest)),
        None => Err(Refusal::NotAMessage),
    }
}
