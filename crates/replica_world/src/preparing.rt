// What an event and a crash need of the past.
ghost use Rattle.std.specs.Prelude.{◌≡◌, ◌≤◌, ◌&&◌, ◌+◌, not, nat_lt, filter, Some, IfOk, IfErr, OnOk, IsSome, IsOkUnless};
ghost use Rattle.std.specs.BTreeMap.{get};
ghost use Rattle.std.specs.Ordering.{nat_cmp};
ghost use Rattle.std.specs.Vec.{vec_len, vec_capacity};
ghost use Rattle.replica_core.specs.Meaning.{hash_in, meaning};
ghost use Rattle.replica_world.specs.Happening.{event_value};
ghost use Rattle.replica_world.specs.Held.{is_act};
ghost use Rattle.replica_world.specs.Keeping.{IsRefusedEvent};
ghost use Rattle.replica_world.specs.Kept.{HasPlace, Notes, IsReady, back_in};

use crate::accepted::Accepted;
use crate::event::Event;
use crate::foreseeing::foresee;
use crate::posted::Posted;
use crate::recovery::Recovery;
use crate::saving::{back, keep, make_place};
use dots::{Name, Refusal};
use hash_path::PathHash;
use replica_core::Replica;
use std::alloc::Allocator;
use std::collections::BTreeMap;

// Room for the event in the past, and what its replica is to come back from. Refused as the event is, or for want of memory where that is not.
pub(crate) fn ready<H: PathHash, A: Allocator + Copy>(
    replicas: &BTreeMap<Name, Replica<H, A>, A>,
    posted: &Posted<A>,
    kept: &mut BTreeMap<Name, Recovery<H, A>, A>,
    past: &mut Vec<Accepted<A>, A>,
    event: &Event<A>,
) -> Result<(), Refusal>
    ensures past { past.new.items ≡ past.old.items }
    ensures room { OnOk result (vec_len past.new + 1 ≤ vec_capacity past.new) }
    ensures notes { Notes replicas.now kept.old kept.new }
    ensures ready { OnOk result (IsReady replicas.now kept.new (event_value event.now)) }
    ensures refused { IfErr result (λ refusal. (hash : H) → IsRefusedEvent hash replicas.now posted.now (event_value event.now) refusal) }
{
    match make_ready(replicas, kept, past, event) {
        Ok(()) => Ok(()),
        Err(refusal) => {
            let foreseen = foresee(replicas, posted, event);
            Err(foreseen.unwrap_or(refusal))
        }
    }
}

fn make_ready<H: PathHash, A: Allocator + Copy>(
    replicas: &BTreeMap<Name, Replica<H, A>, A>,
    kept: &mut BTreeMap<Name, Recovery<H, A>, A>,
    past: &mut Vec<Accepted<A>, A>,
    event: &Event<A>,
) -> Result<(), Refusal>
    ensures past { past.new.items ≡ past.old.items }
    ensures room { OnOk result (vec_len past.new + 1 ≤ vec_capacity past.new) }
    ensures notes { Notes replicas.now kept.old kept.new }
    ensures ready { OnOk result (IsReady replicas.now kept.new (event_value event.now)) }
    ensures refused { IsOkUnless result Refusal.OutOfMemory }
{
    past.reserve(1)?;
    match event {
        Event::Node(name) => make_place(kept, *name),
        Event::Call(name, _) | Event::Deliver(_, name) | Event::Restart(name) => {
            keep(replicas, kept, *name)
        }
    }
}

// The replica of this name, which is there, as it comes back from what is kept of it; and room for its restart in the past.
pub(crate) fn recovered<H: PathHash, A: Allocator + Copy>(
    alloc: A,
    hash: H,
    replicas: &BTreeMap<Name, Replica<H, A>, A>,
    kept: &mut BTreeMap<Name, Recovery<H, A>, A>,
    past: &mut Vec<Accepted<A>, A>,
    name: Name,
) -> Result<Replica<H, A>, Refusal>
    requires { IsSome (get nat_cmp replicas.now name) }
    ensures past { past.new.items ≡ past.old.items }
    ensures room { OnOk result (vec_len past.new + 1 ≤ vec_capacity past.new) }
    ensures notes { Notes replicas.now kept.old kept.new }
    ensures place { OnOk result (HasPlace kept.new name) }
    ensures ok { IfOk result (λ back. back_in kept.new name ≡ Some (meaning back)) }
    ensures hash { IfOk result (λ back. hash_in back ≡ hash) }
    ensures refused { IsOkUnless result Refusal.OutOfMemory }
{
    past.reserve(1)?;
    keep(replicas, kept, name)?;
    back(alloc, hash, kept, name)
}

// Takes away what the replica of this name did since it was last saved, which was done so often.
pub(crate) fn take_back<A: Allocator + Copy>(past: &mut Vec<Accepted<A>, A>, name: Name, saves: u64)
    ensures items { past.new.items ≡ filter (λ a. not (is_act name (event_value a.event) && not (nat_lt a.saves saves))) past.old.items }
    ensures capacity { vec_capacity past.new ≡ vec_capacity past.old }
    ensures len { vec_len past.new ≤ vec_len past.old }
{
    past.retain(
        |accepted| -> bool
            ensures { result ≡ not (is_act name (event_value accepted.now.event) && not (nat_lt accepted.now.saves saves)) }
        { !accepted.is_lost(name, saves) },
    );
}
