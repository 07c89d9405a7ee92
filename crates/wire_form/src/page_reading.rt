// Pages from all of the bytes that are left in a message.
ghost use Rattle.std.specs.Prelude.{◌∷◌};
ghost use Rattle.std.specs.List.{flat_map, AllByRecursion};
ghost use Rattle.wire_form.specs.Spelling.{IsWhole};
ghost use Rattle.wire_form.specs.Page as form;
ghost use Rattle.wire_form.specs.Reading.{ReadsAll};

use crate::page::{NamedFields, Page};
use crate::spelled::Spelled;
use dots::{Key, Refusal};
use std::alloc::Allocator;

// The page that all the bytes spell, at whatever depth it may stand.
pub(crate) fn read_page<A: Allocator + Copy>(alloc: A, bytes: &[u8]) -> Result<Page<A>, Refusal>
    ensures { ReadsAll form.value_of (IsWhole form.spelled form.ArePartsOf bytes.now) result }
{
    match bytes {
        [0, entry @ ..] => read_one_key(alloc, entry),
        [1, entries @ ..] => read_keys(alloc, entries),
        [2, children @ ..] => read_branch(alloc, children),
        _ => Err(Refusal::NotAMessage),
    }
}

// The page of the one key that all the bytes spell.
fn read_one_key<A: Allocator + Copy>(alloc: A, bytes: &[u8]) -> Result<Page<A>, Refusal>
    ensures { ReadsAll form.value_of (IsWhole form.spelled form.ArePartsOf (0 ∷ bytes.now)) result }
{
    let (entry, rest) = <(Key<A>, NamedFields<A>)>::read(alloc, bytes)?;
    if !rest.is_empty() {
        return Err(Refusal::NotAMessage);
    }
    Ok(Page::OneKey(entry.0, entry.1))
}

// The page of the keys that all the bytes spell.
fn read_keys<A: Allocator + Copy>(alloc: A, bytes: &[u8]) -> Result<Page<A>, Refusal>
    ensures { ReadsAll form.value_of (IsWhole form.spelled form.ArePartsOf (1 ∷ bytes.now)) result }
{
    Ok(Page::Keys(read_to_end(alloc, bytes)?))
}

// The branch of the children that all the bytes spell.
fn read_branch<A: Allocator + Copy>(alloc: A, bytes: &[u8]) -> Result<Page<A>, Refusal>
    ensures { ReadsAll form.value_of (IsWhole form.spelled form.ArePartsOf (2 ∷ bytes.now)) result }
{
    Ok(Page::Branch(read_to_end(alloc, bytes)?))
}

// The items that all the bytes spell, one after another.
fn read_to_end<T: Spelled<A>, A: Allocator + Copy>(
    alloc: A,
    bytes: &[u8],
) -> Result<Vec<T, A>, Refusal>
    ensures { ReadsAll (λ items. items.items) (IsWhole (flat_map T.spell) (AllByRecursion T.fits) bytes.now) result }
{
    let mut items = Vec::new(alloc);
    let mut rest = bytes;
    while !rest.is_empty() {
        let (item, after) = T::read(alloc, rest)?;
        items.push(item)?;
        rest = after;
    }
    Ok(items)
}
