// The refusal that an event meets whatever memory there is.
ghost use Rattle.std.specs.Prelude.{ℕ, List};
ghost use Rattle.replica_model.specs.Step as step;
ghost use Rattle.replica_model.specs.World as model;
ghost use Rattle.replica_core.specs.Meaning.{meaning};
ghost use Rattle.replica_core.specs.Stepping.{Foretells};
ghost use Rattle.replica_core.specs.Writing.{call_value};
ghost use Rattle.replica_world.specs.Happening.{event_value};
ghost use Rattle.replica_world.specs.Keeping.{ForetellsEvent};

use crate::event::Event;
use crate::happening::has_peer;
use crate::posted::Posted;
use dots::{Name, Refusal};
use hash_path::PathHash;
use replica_core::{Call, Replica};
use std::alloc::Allocator;
use std::collections::BTreeMap;

// The refusal that the event meets whatever memory there is, if it meets one.
pub(crate) fn foresee<H: PathHash, A: Allocator + Copy>(
    replicas: &BTreeMap<Name, Replica<H, A>, A>,
    posted: &Posted<A>,
    event: &Event<A>,
) -> Option<Refusal>
    ensures { (hash : H) → ForetellsEvent hash replicas.now posted.now (event_value event.now) result }
{
    match event {
        Event::Node(name) => foresee_node(replicas, *name),
        Event::Call(name, call) => foresee_call(replicas, *name, call),
        Event::Deliver(number, name) => foresee_delivery(replicas, posted, *number, *name),
        Event::Restart(name) => foresee_restart(replicas, *name),
    }
}

// That of a restart of the replica of this name.
fn foresee_restart<H: PathHash, A: Allocator + Copy>(
    replicas: &BTreeMap<Name, Replica<H, A>, A>,
    name: Name,
) -> Option<Refusal>
    ensures { (hash : H) (messages : List (List ℕ)) → ForetellsEvent hash replicas.now messages (model.At name step.Restart) result }
{
    if replicas.contains_key(&name) {
        return None;
    }
    Some(Refusal::UnknownReplica)
}

// That of a new replica of this name.
fn foresee_node<H: PathHash, A: Allocator + Copy>(
    replicas: &BTreeMap<Name, Replica<H, A>, A>,
    name: Name,
) -> Option<Refusal>
    ensures { (hash : H) (messages : List (List ℕ)) → ForetellsEvent hash replicas.now messages (model.Node name) result }
{
    if replicas.contains_key(&name) {
        return Some(Refusal::NameTaken);
    }
    None
}

// That of a call of the replica of this name.
fn foresee_call<H: PathHash, A: Allocator + Copy>(
    replicas: &BTreeMap<Name, Replica<H, A>, A>,
    name: Name,
    call: &Call<A>,
) -> Option<Refusal>
    ensures { (hash : H) (messages : List (List ℕ)) → ForetellsEvent hash replicas.now messages (model.At name (call_value call.now)) result }
{
    let Some(replica) = replicas.get(&name) else {
        return Some(Refusal::UnknownReplica);
    };
    if !has_peer(replicas, call) {
        return Some(Refusal::UnknownReplica);
    }
    refusal_of(replica, call)
}

// That of a replica's call.
fn refusal_of<H: PathHash, A: Allocator + Copy>(
    replica: &Replica<H, A>,
    call: &Call<A>,
) -> Option<Refusal>
    ensures { Foretells (meaning replica.now) (call_value call.now) result }
{
    match call {
        Call::Put(_, _, _) => replica.put_refusal(),
        Call::Ask(_) => replica.ask_refusal(),
        Call::Remove(_) | Call::RemoveField(_, _) | Call::Clear => None,
        Call::Flush | Call::Retry(_) | Call::Abandon(_) => None,
    }
}

// That of a message delivered to the replica of this name.
fn foresee_delivery<H: PathHash, A: Allocator + Copy>(
    replicas: &BTreeMap<Name, Replica<H, A>, A>,
    posted: &Posted<A>,
    number: u64,
    name: Name,
) -> Option<Refusal>
    ensures { (hash : H) → ForetellsEvent hash replicas.now posted.now (model.Deliver number name) result }
{
    if !replicas.contains_key(&name) {
        return Some(Refusal::UnknownReplica);
    }
    match posted.get(number) {
        Some(_) => None,
        None => Some(Refusal::UnknownMessage),
    }
}
