// A part of a message that is written.
ghost use Rattle.std.specs.Prelude.{OnOk, IsOkUnless};
ghost use Rattle.std.specs.List.{flat_map, AllByRecursion};
ghost use Rattle.wire_form.specs.Spelling.{counted, AreCounted};
ghost use Rattle.wire_form.specs.Writing.{Appends};

use crate::spelled::Spelled;
use dots::Refusal;
use std::alloc::Allocator;

// What can be put behind bytes.
pub(crate) trait Append<A: Allocator + Copy>: Spelled<A> {
    // Puts the spelling of the value behind the bytes that are there. Its only refusal is OutOfMemory.
    fn append_to(&self, out: &mut Vec<u8, A>) -> Result<(), Refusal>
        ensures ok { OnOk result (Appends Self.spell Self.fits out.old.items out.new.items self.now) }
        ensures err { IsOkUnless result Refusal.OutOfMemory };
}

// One part after another.
impl<X: Append<A>, Y: Append<A>, A: Allocator + Copy> Append<A> for (X, Y) {
    fn append_to(&self, out: &mut Vec<u8, A>) -> Result<(), Refusal> {
        self.0.append_to(out)?;
        self.1.append_to(out)
    }
}

// How many items, and then each.
pub(crate) fn append_items<T: Append<A>, A: Allocator + Copy>(
    out: &mut Vec<u8, A>,
    items: &[T],
) -> Result<(), Refusal>
    ensures ok { OnOk result (Appends (counted T.spell) (AreCounted T.fits) out.old.items out.new.items items.now) }
    ensures err { IsOkUnless result Refusal.OutOfMemory }
{
    (items.len() as u64).append_to(out)?;
    append_each(out, items)
}

// Each item, one after another.
pub(crate) fn append_each<T: Append<A>, A: Allocator + Copy>(
    out: &mut Vec<u8, A>,
    items: &[T],
) -> Result<(), Refusal>
    ensures ok { OnOk result (Appends (flat_map T.spell) (AllByRecursion T.fits) out.old.items out.new.items items.now) }
    ensures err { IsOkUnless result Refusal.OutOfMemory }
{
    for item in items {
        item.append_to(out)?;
    }
    Ok(())
}
