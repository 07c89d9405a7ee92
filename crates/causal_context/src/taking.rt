// What taking a dot out does to a vector and a cloud.
ghost use Rattle.std.specs.Prelude.{◌≡◌, ◌+◌, ◌&&◌, not, false, IsTrue};
ghost use Rattle.dots.specs.Dot.{DotValue, same_dot};
ghost use Rattle.causal_context.specs.Context.{is_known};
ghost use Rattle.causal_context.specs.Canonical.{IsCanonical};

use crate::vector;
use dots::{Dot, Name};
use ordered_list::{OrderedList, OrderedSet};
use std::alloc::Allocator;

// Takes out a dot that is there, where the one above it is not.
pub(crate) fn take_from<A: Allocator + Copy>(
    vector: &mut OrderedList<Name, u64, A>,
    cloud: &mut OrderedSet<Dot, A>,
    dot: Dot,
)
    requires canonical { IsCanonical (record { vector = vector.old; cloud = cloud.old }) }
    requires there { IsTrue (is_known vector.old cloud.old dot) }
    requires last { is_known vector.old cloud.old (record { name = dot.name; number = dot.number + 1 }) ≡ false }
    ensures taken { (d : DotValue) → is_known vector.new cloud.new d
        ≡ (is_known vector.old cloud.old d && not (same_dot dot d)) }
    ensures canonical { IsCanonical (record { vector = vector.new; cloud = cloud.new }) }
{
    if dot.number() > vector::known_up_to(vector, dot.name()) {
        cloud.remove_between(&dot, &dot);
        return;
    }
    vector::lower(vector, dot);
}
