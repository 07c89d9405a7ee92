ghost use Rattle.std.specs.Prelude.{◌≡◌, OnOk, OnErr, IsOkUnless};
ghost use Rattle.causal_join.specs.OrMap.{or_map_state};
ghost use Rattle.op_model.specs.Meaning.{greater};
ghost use Rattle.op_model.specs.State.{Same, join};

use causal_join::OrMap;
use dots::Refusal;
use std::alloc::Allocator;

/// Joins the delta into the group. A refused call leaves the group as it was.
///
/// Its only refusal is OutOfMemory. Takes time in all entries of both, each once, and for a dot that one of them lacks a look in its
/// context; and memory for the joined pair, beside the old one until it is there.
pub fn group<A: Allocator + Copy>(
    alloc: A,
    group: &mut OrMap<A>,
    delta: &OrMap<A>,
) -> Result<(), Refusal>
    ensures ok { OnOk result (Same (or_map_state group.new)
        (join greater (or_map_state group.old) (or_map_state delta.now))) }
    ensures unchanged { OnErr result (group.new ≡ group.old) }
    ensures err { IsOkUnless result Refusal.OutOfMemory }
{
    group.join_into(alloc, delta)
}
