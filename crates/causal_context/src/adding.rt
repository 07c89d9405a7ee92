// What adding a dot does to a vector and a cloud.
ghost use Rattle.std.specs.Prelude.{◌≡◌, ◌≤◌, ◌+◌, ◌||◌, false, OnOk, OnErr, IsOkUnless};
ghost use Rattle.dots.specs.Dot.{DotValue, same_dot};
ghost use Rattle.causal_context.specs.Context.{is_known, known_up_to};
ghost use Rattle.causal_context.specs.Canonical.{IsCanonical};

use crate::{cloud, vector};
use dots::{Dot, Name, Refusal};
use ordered_list::{OrderedList, OrderedSet};
use std::alloc::Allocator;

// Adds a dot that is not there.
pub(crate) fn add_to<A: Allocator + Copy>(
    vector: &mut OrderedList<Name, u64, A>,
    cloud: &mut OrderedSet<Dot, A>,
    dot: Dot,
) -> Result<(), Refusal>
    requires canonical { IsCanonical (record { vector = vector.old; cloud = cloud.old }) }
    requires absent { is_known vector.old cloud.old dot ≡ false }
    ensures ok { OnOk result ((d : DotValue) → is_known vector.new cloud.new d
        ≡ (same_dot dot d || is_known vector.old cloud.old d)) }
    ensures canonical { IsCanonical (record { vector = vector.new; cloud = cloud.new }) }
    ensures same_vector { OnErr result (vector.new ≡ vector.old) }
    ensures same_cloud { OnErr result (cloud.new ≡ cloud.old) }
    ensures err { IsOkUnless result Refusal.OutOfMemory }
{
    if dot.number() - 1 == vector::known_up_to(vector, dot.name()) {
        return close_gap(vector, cloud, dot);
    }
    cloud.insert(dot)?;
    Ok(())
}

// Raises the entry to the dot just above it, and on over the dots that follow it in the cloud.
fn close_gap<A: Allocator + Copy>(
    vector: &mut OrderedList<Name, u64, A>,
    cloud: &mut OrderedSet<Dot, A>,
    dot: Dot,
) -> Result<(), Refusal>
    requires canonical { IsCanonical (record { vector = vector.old; cloud = cloud.old }) }
    requires next { dot.number ≡ known_up_to vector.old dot.name + 1 }
    ensures ok { OnOk result ((d : DotValue) → is_known vector.new cloud.new d
        ≡ (same_dot dot d || is_known vector.old cloud.old d)) }
    ensures canonical { IsCanonical (record { vector = vector.new; cloud = cloud.new }) }
    ensures same_vector { OnErr result (vector.new ≡ vector.old) }
    ensures same_cloud { OnErr result (cloud.new ≡ cloud.old) }
    ensures err { IsOkUnless result Refusal.OutOfMemory }
{
    let end = cloud::run_end(cloud, dot);
    vector.insert(dot.name(), end)?;
    cloud::take_run(cloud, dot, end);
    Ok(())
}

// Raises the entry to the dot just above it, where the one above that is not there. It needs no memory, as the entry is there.
pub(crate) fn raise<A: Allocator + Copy>(
    vector: &mut OrderedList<Name, u64, A>,
    cloud: &OrderedSet<Dot, A>,
    dot: Dot,
)
    requires canonical { IsCanonical (record { vector = vector.old; cloud = cloud.now }) }
    requires entry { 1 ≤ known_up_to vector.old dot.name }
    requires next { dot.number ≡ known_up_to vector.old dot.name + 1 }
    requires last { is_known vector.old cloud.now (record { name = dot.name; number = dot.number + 1 }) ≡ false }
    ensures ok { (d : DotValue) → is_known vector.new cloud.now d
        ≡ (same_dot dot d || is_known vector.old cloud.now d) }
    ensures canonical { IsCanonical (record { vector = vector.new; cloud = cloud.now }) }
{
    // proof: the clauses speak of the cloud, and nothing else does.
    let _ = cloud;
    let name = dot.name();
    vector.replace(&name, dot.number());
}
