// The cloud: the dots that stand apart from the vector.
ghost use Rattle.std.specs.Prelude.{◌≡◌, ◌+◌, ◌≤◌, ◌↔◌, ◌&&◌, not, IsTrue};
ghost use Rattle.std.specs.List.Sorted.{IsStrictlySortedBy};
ghost use Rattle.dots.specs.Dot.{DotValue};
ghost use Rattle.causal_context.specs.Dots.{dot_cmp};
ghost use Rattle.causal_context.specs.Context.{in_cloud, IsGreatest};
ghost use Rattle.causal_context.specs.Canonical.{IsApart, IsBounded};
ghost use Rattle.causal_context.specs.Run.{is_in_run, IsRunEnd};

use crate::vector::known_up_to;
use dots::{Dot, Name};
use ordered_list::{OrderedList, OrderedSet};
use std::alloc::Allocator;

// The dot of this name and number.
pub(crate) fn dot_at(name: Name, number: u64) -> Dot
    requires { 1 ≤ number }
    ensures { result ≡ record { name = name; number = number } }
{
    Dot::new(name, number).unwrap()
}

// The greatest number of this name in the cloud, or 0 where it has none.
pub(crate) fn greatest_in<A: Allocator>(cloud: &OrderedSet<Dot, A>, name: Name) -> u64
    requires { IsBounded cloud.now }
    ensures { IsGreatest name (in_cloud cloud.now) result }
{
    let Some(dot) = cloud.last_up_to(&dot_at(name, u64::MAX)) else {
        return 0;
    };
    if dot.name() != name {
        return 0;
    }
    dot.number()
}

// The number up to which the dots of this name above the dot follow on one another.
pub(crate) fn run_end<A: Allocator>(cloud: &OrderedSet<Dot, A>, dot: Dot) -> u64
    requires { IsBounded cloud.now }
    ensures { IsRunEnd (in_cloud cloud.now) dot result }
{
    let mut end = dot.number();
    while end < u64::MAX && cloud.contains(&dot_at(dot.name(), end + 1)) {
        end += 1;
    }
    end
}

// Takes the dots of this name that are above the dot, up to the end, out of the cloud.
pub(crate) fn take_run<A: Allocator + Copy>(cloud: &mut OrderedSet<Dot, A>, dot: Dot, end: u64)
    requires from { dot.number ≤ end }
    requires ordered { IsStrictlySortedBy dot_cmp cloud.old }
    ensures run { (d : DotValue) → in_cloud cloud.new d ≡ (in_cloud cloud.old d && not (is_in_run dot end d)) }
    ensures ordered { IsStrictlySortedBy dot_cmp cloud.new }
{
    if dot.number() < end {
        cloud.remove_between(
            &dot_at(dot.name(), dot.number() + 1),
            &dot_at(dot.name(), end),
        );
    }
}

// Whether each dot of the cloud stands above the entry of its name with a gap between.
pub(crate) fn is_apart<A: Allocator>(
    cloud: &OrderedSet<Dot, A>,
    vector: &OrderedList<Name, u64, A>,
) -> bool
    ensures apart { IsTrue result ↔ IsApart vector.now cloud.now }
    ensures bounded { IsTrue result → IsBounded cloud.now }
{
    for dot in cloud.items() {
        let number = dot.number();
        if number - 1 <= known_up_to(vector, dot.name()) {
            return false;
        }
    }
    true
}
