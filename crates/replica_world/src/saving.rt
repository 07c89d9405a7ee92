// What a world keeps of its replicas, and how one comes back from it.
ghost use Rattle.std.specs.Prelude.{◌≡◌, ◌⊎◌, ◌≤◌, ◌+◌, ◌||◌, not, ℕ, length, true, false, Option, Some, None, IfOk, IfErr, OnOk, OnErr, IsSome, IsOkUnless};
ghost use Rattle.std.specs.BTreeMap.{get};
ghost use Rattle.std.specs.Ordering.{nat_cmp};
ghost use Rattle.replica_core.specs.Meaning.{ReplicaValue, hash_in, meaning, waiting_in};
ghost use Rattle.replica_core.specs.Saving.{checkpointed};
ghost use Rattle.replica_core.specs.Stepping.{Stays};
ghost use Rattle.replica_model.specs.Replica.{restarts};
ghost use Rattle.replica_world.specs.Happening.{answer_value, event_value};
ghost use Rattle.replica_model.specs.Crashing.{may_be_lost};
ghost use Rattle.replica_world.specs.Held.{goes_further};
ghost use Rattle.replica_world.specs.Keeping.{Restarts};
ghost use Rattle.replica_world.specs.Replaces.{Replaces};
ghost use Rattle.replica_world.specs.Kept.{saves_in, back_in, HasPlace, SavedOnce, Settles, Notes, checkpoint_at};

use crate::answer::Answer;
use crate::event::Event;
use crate::recovery::Recovery;
use dots::{Name, Refusal};
use hash_path::PathHash;
use replica_core::{Checkpoint, Outcome, Replica};
use std::alloc::Allocator;
use std::collections::BTreeMap;
use std::mem;

// A place for what is kept of the replica of this name. Its only refusal is OutOfMemory, which also comes where the replica was saved 2^64 - 1 times.
pub(crate) fn make_place<H: PathHash, A: Allocator + Copy>(
    kept: &mut BTreeMap<Name, Recovery<H, A>, A>,
    name: Name,
) -> Result<(), Refusal>
    ensures saves { (n : ℕ) → saves_in kept.new n ≡ saves_in kept.old n }
    ensures checkpoints { (n : ℕ) → back_in kept.new n ≡ back_in kept.old n }
    ensures place { OnOk result (HasPlace kept.new name) }
    ensures refused { IsOkUnless result Refusal.OutOfMemory }
{
    if let Some(found) = kept.get(&name) {
        return match found.saves.checked_add(1) {
            Some(_) => Ok(()),
            None => Err(Refusal::OutOfMemory),
        };
    }
    let nothing = Recovery {
        saves: 0,
        checkpoint: None,
    };
    match kept.insert(name, nothing) {
        Ok(was) => {
            drop(was);
            Ok(())
        }
        Err(failed) => {
            drop(failed);
            Err(Refusal::OutOfMemory)
        }
    }
}

// Keeps what the replica of this name is to come back from, where it is there and nothing is kept of it.
pub(crate) fn keep<H: PathHash, A: Allocator + Copy>(
    replicas: &BTreeMap<Name, Replica<H, A>, A>,
    kept: &mut BTreeMap<Name, Recovery<H, A>, A>,
    name: Name,
) -> Result<(), Refusal>
    ensures notes { Notes replicas.now kept.old kept.new }
    ensures place { OnOk result (IsSome (get nat_cmp replicas.now name) → HasPlace kept.new name × IsSome (back_in kept.new name)) }
    ensures refused { IsOkUnless result Refusal.OutOfMemory }
{
    let Some(replica) = replicas.get(&name) else {
        return Ok(());
    };
    make_place(kept, name)?;
    match kept.get_mut(&name) {
        Some(found) => note(replica, found),
        None => unreachable!(),
    }
}

// Keeps what the replica is to come back from, where nothing is kept.
fn note<H: PathHash, A: Allocator + Copy>(
    replica: &Replica<H, A>,
    found: &mut Recovery<H, A>,
) -> Result<(), Refusal>
    ensures saves { found.new.saves ≡ found.old.saves }
    ensures noted { (checkpoint_at found.new.checkpoint ≡ checkpoint_at found.old.checkpoint)
        ⊎ ((checkpoint_at found.old.checkpoint ≡ None) × (checkpoint_at found.new.checkpoint ≡ Some (restarts (meaning replica.now)))) }
    ensures some { OnOk result (IsSome (checkpoint_at found.new.checkpoint)) }
    ensures refused { IsOkUnless result Refusal.OutOfMemory }
{
    if found.checkpoint.is_some() {
        return Ok(());
    }
    let checkpoint = replica.checkpoint()?;
    drop(found.checkpoint.replace(checkpoint));
    Ok(())
}

// That the replica of this name was saved once more. How often it had been.
pub(crate) fn save_once<H: PathHash, A: Allocator + Copy>(
    kept: &mut BTreeMap<Name, Recovery<H, A>, A>,
    name: Name,
) -> u64
    requires { HasPlace kept.old name }
    ensures before { result ≡ saves_in kept.old name }
    ensures once { SavedOnce kept.old kept.new name }
{
    match kept.get_mut(&name) {
        Some(found) => {
            let saves = found.saves;
            found.saves = saves + 1;
            drop(found.checkpoint.take());
            saves
        }
        None => unreachable!(),
    }
}

// How often the replica of the event had been saved. It is saved once more with an event after which it is to be.
pub(crate) fn settle<H: PathHash, A: Allocator + Copy>(
    kept: &mut BTreeMap<Name, Recovery<H, A>, A>,
    name: Name,
    is_saved: bool,
) -> u64
    requires { HasPlace kept.old name }
    ensures before { result ≡ saves_in kept.old name }
    ensures settles { Settles is_saved kept.old kept.new name }
{
    if is_saved {
        return save_once(kept, name);
    }
    match kept.get(&name) {
        Some(found) => found.saves,
        None => unreachable!(),
    }
}

// The answer, and whether it tells that a synchronisation goes further.
pub(crate) fn further(answer: Answer) -> (Answer, bool)
    ensures same { result.0 ≡ answer }
    ensures further { result.1 ≡ goes_further (answer_value answer) }
{
    match answer {
        Answer::Outcome(outcome) => (Answer::Outcome(outcome), outcome == Outcome::Sent),
        other => (other, false),
    }
}

// Whether a replica is saved with an event that was answered so, and sends something or does not.
pub(crate) fn is_to_be_saved<A: Allocator + Copy>(
    event: &Event<A>,
    is_further: bool,
    sends: bool,
) -> bool
    ensures { result ≡ (not (may_be_lost (event_value event.now)) || (sends || is_further)) }
{
    match event {
        Event::Node(_) => true,
        Event::Call(_, _) | Event::Deliver(_, _) | Event::Restart(_) => sends || is_further,
    }
}

// The replica that comes back from this.
fn resumed<H: PathHash, A: Allocator + Copy>(
    alloc: A,
    hash: H,
    checkpoint: &Checkpoint<H, A>,
) -> Result<Replica<H, A>, Refusal>
    ensures ok { IfOk result (λ back. meaning back ≡ checkpointed checkpoint.now) }
    ensures waiting { IfOk result (λ back. length (waiting_in back) ≤ 1) }
    ensures hash { IfOk result (λ back. hash_in back ≡ hash) }
    ensures refused { IsOkUnless result Refusal.OutOfMemory }
{
    let saved = checkpoint.saved(alloc)?;
    Replica::resume(alloc, hash, saved)
}

// The replica that comes back from what is kept of the one of this name.
pub(crate) fn back<H: PathHash, A: Allocator + Copy>(
    alloc: A,
    hash: H,
    kept: &BTreeMap<Name, Recovery<H, A>, A>,
    name: Name,
) -> Result<Replica<H, A>, Refusal>
    requires { IsSome (back_in kept.now name) }
    ensures ok { IfOk result (λ back. back_in kept.now name ≡ Some (meaning back)) }
    ensures hash { IfOk result (λ back. hash_in back ≡ hash) }
    ensures refused { IsOkUnless result Refusal.OutOfMemory }
{
    let Some(found) = kept.get(&name) else {
        unreachable!();
    };
    match &found.checkpoint {
        Some(checkpoint) => resumed(alloc, hash, checkpoint),
        None => unreachable!(),
    }
}

// The replica of this name, saved and back from that.
pub(crate) fn restart_at<H: PathHash, A: Allocator + Copy>(
    alloc: A,
    hash: H,
    replicas: &mut BTreeMap<Name, Replica<H, A>, A>,
    name: Name,
) -> Result<Answer, Refusal>
    ensures ok { IfOk result (λ answer. (answer ≡ Answer.Nothing) × Restarts hash replicas.old replicas.new name) }
    ensures refused { IfErr result (λ refusal. ((refusal ≡ Refusal.UnknownReplica) × (get nat_cmp replicas.old name ≡ None))
        ⊎ ((refusal ≡ Refusal.OutOfMemory) × IsSome (get nat_cmp replicas.old name))) }
    ensures unchanged { OnErr result ((replicas.new ≡ replicas.old)
        ⊎ ((before after : ReplicaValue H) × Replaces replicas.old replicas.new name before after × Stays before after)) }
{
    match replicas.get_mut(&name) {
        Some(replica) => restart(alloc, hash, replica),
        None => Err(Refusal::UnknownReplica),
    }
}

fn restart<H: PathHash, A: Allocator + Copy>(
    alloc: A,
    hash: H,
    replica: &mut Replica<H, A>,
) -> Result<Answer, Refusal>
    ensures ok { IfOk result (λ answer. (answer ≡ Answer.Nothing) × (meaning replica.new ≡ restarts (meaning replica.old)) × (length (waiting_in replica.new) ≤ 1) × (hash_in replica.new ≡ hash)) }
    ensures refused { IsOkUnless result Refusal.OutOfMemory }
    ensures unchanged { OnErr result (Stays replica.old replica.new) }
{
    let checkpoint = replica.checkpoint()?;
    let back = resumed(alloc, hash, &checkpoint);
    drop(checkpoint);
    match back {
        Ok(back) => {
            drop(mem::replace(replica, back));
            Ok(Answer::Nothing)
        }
        Err(refusal) => Err(refusal),
    }
}

// The replica in the place of the one of this name.
pub(crate) fn put_back<H: PathHash, A: Allocator + Copy>(
    replicas: &mut BTreeMap<Name, Replica<H, A>, A>,
    name: Name,
    back: Replica<H, A>,
)
    requires { IsSome (get nat_cmp replicas.old name) }
    ensures { (before : ReplicaValue H) × Replaces replicas.old replicas.new name before back }
{
    match replicas.get_mut(&name) {
        Some(replica) => drop(mem::replace(replica, back)),
        None => unreachable!(),
    }
}
