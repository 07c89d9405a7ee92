// What an event makes of the replicas and the messages of a world.
ghost use Rattle.std.specs.Prelude.{◌≡◌, ◌⊎◌, ℕ, List, Some, None, IfOk, IfErr, OnOk, OnErr, IsSome, IsOkUnless};
ghost use Rattle.std.specs.BTreeMap.{get};
ghost use Rattle.std.specs.Ordering.{nat_cmp};
ghost use Rattle.wire_form.specs.Message.{message_of};
ghost use Rattle.replica_model.specs.Mail.{mail_of};
ghost use Rattle.replica_model.specs.World as model;
ghost use Rattle.replica_core.specs.Meaning.{ReplicaValue};
ghost use Rattle.replica_core.specs.Stepping.{Stays, IsRefused};
ghost use Rattle.replica_core.specs.Writing.{call_value};
ghost use Rattle.replica_world.specs.Happening.{answer_value, event_value};
ghost use Rattle.replica_world.specs.Keeping.{MakesCall, TakesMail, Keeps, Makes, LeavesWorld, IsRefusedEvent};
ghost use Rattle.replica_world.specs.Replaces.{Replaces};
ghost use Rattle.replica_world.specs.Spelled.{Adds};

use crate::answer::Answer;
use crate::calling::make;
use crate::delivering::{read, take};
use crate::event::Event;
use crate::posted::Posted;
use crate::saving::restart_at;
use dots::{Name, Refusal};
use hash_path::PathHash;
use replica_core::{Call, Replica};
use std::alloc::Allocator;
use std::collections::BTreeMap;
use wire_form::Message;

// Makes the event happen. A refused one changes nothing.
pub(crate) fn happen<H: PathHash, A: Allocator + Copy>(
    alloc: A,
    hash: H,
    replicas: &mut BTreeMap<Name, Replica<H, A>, A>,
    posted: &mut Posted<A>,
    event: &Event<A>,
) -> Result<Answer, Refusal>
    ensures ok { IfOk result (λ answer. Makes H.hash_of hash replicas.old posted.old (event_value event.now) (answer_value answer) replicas.new posted.new) }
    ensures adds { OnOk result (Adds posted.old posted.new) }
    ensures refused { IfErr result (IsRefusedEvent hash replicas.old posted.old (event_value event.now)) }
    ensures unchanged { OnErr result (LeavesWorld hash replicas.old posted.old replicas.new posted.new) }
    ensures unposted { OnErr result (posted.new ≡ posted.old) }
{
    match event {
        Event::Node(name) => add(alloc, hash, replicas, *name),
        Event::Call(name, call) => call_at(alloc, replicas, posted, *name, call),
        Event::Deliver(number, name) => deliver_at(alloc, replicas, posted, *number, *name),
        Event::Restart(name) => restart_at(alloc, hash, replicas, *name),
    }
}

// A new replica of this name.
fn add<H: PathHash, A: Allocator + Copy>(
    alloc: A,
    hash: H,
    replicas: &mut BTreeMap<Name, Replica<H, A>, A>,
    name: Name,
) -> Result<Answer, Refusal>
    ensures ok { IfOk result (λ answer. (messages : List (List ℕ)) → Makes H.hash_of hash replicas.old messages (model.Node name) (answer_value answer) replicas.new messages) }
    ensures refused { IfErr result (λ refusal. (messages : List (List ℕ)) → IsRefusedEvent hash replicas.old messages (model.Node name) refusal) }
    ensures unchanged { OnErr result ((messages : List (List ℕ)) → LeavesWorld hash replicas.old messages replicas.new messages) }
{
    if replicas.contains_key(&name) {
        return Err(Refusal::NameTaken);
    }
    match replicas.insert(name, Replica::new(alloc, name, hash)) {
        Ok(was) => {
            drop(was);
            Ok(Answer::Nothing)
        }
        Err(failed) => {
            drop(failed);
            Err(Refusal::OutOfMemory)
        }
    }
}

// A call of the replica of this name.
fn call_at<H: PathHash, A: Allocator + Copy>(
    alloc: A,
    replicas: &mut BTreeMap<Name, Replica<H, A>, A>,
    posted: &mut Posted<A>,
    name: Name,
    call: &Call<A>,
) -> Result<Answer, Refusal>
    ensures ok { IfOk result (λ answer. (hash : H) → Makes H.hash_of hash replicas.old posted.old (model.At name (call_value call.now)) (answer_value answer) replicas.new posted.new) }
    ensures adds { OnOk result (Adds posted.old posted.new) }
    ensures refused { IfErr result (λ refusal. (hash : H) → IsRefusedEvent hash replicas.old posted.old (model.At name (call_value call.now)) refusal) }
    ensures unchanged { OnErr result ((hash : H) → LeavesWorld hash replicas.old posted.old replicas.new posted.new) }
    ensures unposted { OnErr result (posted.new ≡ posted.old) }
{
    if !has_peer(replicas, call) {
        return Err(Refusal::UnknownReplica);
    }
    make_at(alloc, replicas, posted, name, call)
}

// Whether the peer of an ask is there.
pub(crate) fn has_peer<H: PathHash, A: Allocator + Copy>(
    replicas: &BTreeMap<Name, Replica<H, A>, A>,
    call: &Call<A>,
) -> bool
    ensures { (hash : H) (messages : List (List ℕ)) (w : model.World) → Keeps hash replicas.now messages w → result ≡ model.has_peer w (call_value call.now) }
{
    match call {
        Call::Ask(peer) => replicas.contains_key(peer),
        _ => true,
    }
}

// A message delivered to the replica of this name.
fn deliver_at<H: PathHash, A: Allocator + Copy>(
    alloc: A,
    replicas: &mut BTreeMap<Name, Replica<H, A>, A>,
    posted: &mut Posted<A>,
    number: u64,
    name: Name,
) -> Result<Answer, Refusal>
    ensures ok { IfOk result (λ answer. (hash : H) → Makes H.hash_of hash replicas.old posted.old (model.Deliver number name) (answer_value answer) replicas.new posted.new) }
    ensures adds { OnOk result (Adds posted.old posted.new) }
    ensures refused { IfErr result (λ refusal. (hash : H) → IsRefusedEvent hash replicas.old posted.old (model.Deliver number name) refusal) }
    ensures unchanged { OnErr result ((hash : H) → LeavesWorld hash replicas.old posted.old replicas.new posted.new) }
    ensures unposted { OnErr result (posted.new ≡ posted.old) }
{
    if !replicas.contains_key(&name) {
        return Err(Refusal::UnknownReplica);
    }
    let Some(bytes) = posted.get(number) else {
        return Err(Refusal::UnknownMessage);
    };
    let message = match read(alloc, bytes) {
        Ok(message) => message,
        Err(refusal) => return Err(refusal),
    };
    let told = take_at(replicas, posted, name, &message);
    drop(message);
    told
}

// Makes a call of the replica of this name, if it is there.
fn make_at<H: PathHash, A: Allocator + Copy>(
    alloc: A,
    replicas: &mut BTreeMap<Name, Replica<H, A>, A>,
    posted: &mut Posted<A>,
    name: Name,
    call: &Call<A>,
) -> Result<Answer, Refusal>
    ensures ok { IfOk result (λ answer. (before after : ReplicaValue H) × Replaces replicas.old replicas.new name before after
        × MakesCall H.hash_of before after (call_value call.now) (answer_value answer) posted.old posted.new) }
    ensures refused { IfErr result (λ refusal. ((get nat_cmp replicas.old name ≡ None) × (refusal ≡ Refusal.UnknownReplica))
        ⊎ ((before : ReplicaValue H) × (get nat_cmp replicas.old name ≡ Some before) × IsRefused before (call_value call.now) refusal)) }
    ensures unchanged { OnErr result ((replicas.new ≡ replicas.old)
        ⊎ ((before after : ReplicaValue H) × Replaces replicas.old replicas.new name before after × Stays before after)) }
    ensures unposted { OnErr result (posted.new ≡ posted.old) }
{
    match replicas.get_mut(&name) {
        Some(replica) => make(alloc, replica, posted, call),
        None => Err(Refusal::UnknownReplica),
    }
}

// Gives a message to the replica of this name, which is there.
fn take_at<H: PathHash, A: Allocator + Copy>(
    replicas: &mut BTreeMap<Name, Replica<H, A>, A>,
    posted: &mut Posted<A>,
    name: Name,
    message: &Message<A>,
) -> Result<Answer, Refusal>
    requires { IsSome (get nat_cmp replicas.old name) }
    ensures ok { IfOk result (λ answer. (before after : ReplicaValue H) × Replaces replicas.old replicas.new name before after
        × TakesMail H.hash_of before after (mail_of (message_of message.now)) (answer_value answer) posted.old posted.new) }
    ensures refused { IsOkUnless result Refusal.OutOfMemory }
    ensures unchanged { OnErr result ((before after : ReplicaValue H) × Replaces replicas.old replicas.new name before after × Stays before after) }
    ensures unposted { OnErr result (posted.new ≡ posted.old) }
{
    match replicas.get_mut(&name) {
        Some(replica) => take(replica, posted, message),
        None => unreachable!(),
    }
}
