// A part of a message: a value with one spelling in bytes.
ghost use Rattle.std.specs.Prelude.{◌≡◌, ℕ, ◌<◌, List, ◌++◌, length};
ghost use Rattle.wire_form.specs.Spelling.{pair, IsPair};
ghost use Rattle.wire_form.specs.Reading.{Reads};
ghost use Rattle.wire_form.specs.Unique.{pair_starts, pair_unique};

use dots::Refusal;
use std::alloc::Allocator;

// What can be read from the front of bytes. No spelling is empty, and none begins another, so the bytes that follow do
// not matter.
pub(crate) trait Spelled<A: Allocator + Copy>: Drop {
    ghost spell: { Self → List ℕ };

    ghost fits: { Self → Type 0 };

    // The value at the front of the bytes, and the rest of them. NotAMessage exactly where none stands there, want of
    // memory aside.
    fn read(alloc: A, bytes: &[u8]) -> Result<(Self, &[u8]), Refusal>
        ensures { Reads (λ r. (r.0, r.1.now)) spell fits bytes.now result };

    ghost starts: { (v : Self) → fits v → 0 < length (spell v) };

    ghost unique: { (v w : Self) (a b : List ℕ) → fits v → fits w → spell v ++ a ≡ spell w ++ b → (v ≡ w) × (a ≡ b) };
}

// One part after another.
impl<X: Spelled<A>, Y: Spelled<A>, A: Allocator + Copy> Spelled<A> for (X, Y) {
    ghost spell = { pair X.spell Y.spell };

    ghost fits = { IsPair X.fits Y.fits };

    fn read(alloc: A, bytes: &[u8]) -> Result<((X, Y), &[u8]), Refusal> {
        let (first, rest) = X::read(alloc, bytes)?;
        let (second, rest) = Y::read(alloc, rest)?;
        Ok(((first, second), rest))
    }

    ghost starts = { pair_starts X.spell X.fits Y.spell Y.fits X.starts };

    ghost unique = { pair_unique X.spell X.fits Y.spell Y.fits X.unique Y.unique };
}
