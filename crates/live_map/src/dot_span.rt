// Dots of one name that follow on one another, and the places of an index that are theirs.
ghost use Rattle.std.specs.Prelude.{◌≡◌, ◌≤◌, ℕ, List, Option, IfSome};
ghost use Rattle.std.specs.declared.cmp.Ordering.TheVariants.{Less};
ghost use Rattle.std.specs.BTreeMap.Range.{IsInRange, IsLeBy, IsLtBy};
ghost use Rattle.std.specs.Bound.{IsForward};
ghost use Rattle.causal_context.specs.Dots.{dot_cmp};
ghost use Rattle.dots.specs.Dot.{DotValue};
ghost use Rattle.live_map.specs.Index.{place_cmp, IsInSpan};

use dots::{Dot, Key, Name};
use std::alloc::{Allocator, Global};
use std::ops::Bound;

// The dot of this name and number.
pub(crate) fn dot_at(name: Name, number: u64) -> Dot
    requires { 1 ≤ number }
    ensures { result ≡ record { name = name; number = number } }
{
    Dot::new(name, number).unwrap()
}

// The first dot after those of this name up to this number, or None where there is none.
fn dot_after(name: Name, number: u64) -> Option<Dot>
    ensures { IfSome result (λ after. (d : DotValue) → d.name ≡ name → d.number ≤ number → dot_cmp d after ≡ Less) }
{
    if number < u64::MAX {
        return Dot::new(name, number + 1);
    }
    if name.number() == u64::MAX {
        return None;
    }
    let next = Name::new(name.number() + 1)?;
    Dot::new(next, 1)
}

// The range in which the places lie of the dots from the first one up to this number.
pub(crate) fn range_of<A: Allocator + Copy>(
    first: Dot,
    last: u64,
) -> (Bound<(Dot, Key<A>)>, Bound<(Dot, Key<A>)>)
    requires { first.number ≤ last }
    ensures forward { IsForward (IsLeBy place_cmp) (IsLtBy place_cmp) result.0 result.1 }
    ensures covers { (d : DotValue) (key : List ℕ) → IsInSpan first last d → IsInRange place_cmp result.0 result.1 (d, key) }
{
    let start = Bound::Included((first, Key::empty()));
    match dot_after(first.name(), last) {
        Some(after) => (start, Bound::Excluded((after, Key::empty()))),
        None => (start, Bound::Unbounded),
    }
}
