// Counted parts: how many, and then each.
ghost use Rattle.std.specs.Prelude.{◌≡◌, length};
ghost use Rattle.std.specs.List.{flat_map, AllByRecursion};
ghost use Rattle.wire_form.specs.Spelling.{counted, AreCounted};
ghost use Rattle.wire_form.specs.Reading.{Reads};

use crate::spelled::Spelled;
use dots::Refusal;
use std::alloc::Allocator;

// The counted items at the front of the bytes, and the rest of them. The count is compared with the bytes that are left
// before anything grows, as no item is without bytes.
pub(crate) fn read_items<T: Spelled<A>, A: Allocator + Copy>(
    alloc: A,
    bytes: &[u8],
) -> Result<(Vec<T, A>, &[u8]), Refusal>
    ensures { Reads (λ r. (r.0.items, r.1.now)) (counted T.spell) (AreCounted T.fits) bytes.now result }
{
    let (count, rest) = u64::read(alloc, bytes)?;
    if count > rest.len() as u64 {
        return Err(Refusal::NotAMessage);
    }
    read_each(alloc, count, rest)
}

// Up to so many items get their room at once.
const FEW: u64 = 16;

// So many items, one after another.
fn read_each<T: Spelled<A>, A: Allocator + Copy>(
    alloc: A,
    count: u64,
    bytes: &[u8],
) -> Result<(Vec<T, A>, &[u8]), Refusal>
    ensures { Reads (λ r. (r.0.items, r.1.now)) (flat_map T.spell) (λ items. (length items ≡ count) × AllByRecursion T.fits items) bytes.now result }
{
    let mut items = Vec::with_capacity(alloc, count.min(FEW) as usize)?;
    let mut rest = bytes;
    for _ in 0..count {
        let (item, after) = T::read(alloc, rest)?;
        items.push(item)?;
        rest = after;
    }
    Ok((items, rest))
}
