// What a client reads off the replica itself, by `Client::inspect`: what no root has.
ghost use Rattle.std.specs.Prelude.{◌≡◌, IfOk, IsOkUnless};

use causal_context::Context;
use dots::Refusal;
use hash_path::Fnv1a;
use replica_core::{Checkpoint, Replica};
use shared_object::Look;
use std::alloc::Allocator;
use wire_form::Session;

/// What the node's replica is to come back from, as `Replica::checkpoint`, after all that happened by then: it may be saved by another thread.
/// What is sent that was made or asked for later is sent once that is saved.
///
/// Its only refusal is OutOfMemory. Takes time and memory in the context, and in the number of deltas that were made since the last flush, and
/// the lock as long.
#[derive(Drop)]
pub struct Checkpointing;

impl<A: Allocator + Copy> Look<Replica<Fnv1a, A>> for Checkpointing {
    ghost use Rattle.std.specs.Prelude.{◌≡◌, IfOk, IsOkUnless};
    ghost use Rattle.dots.specs.declared.refusal.Refusal.TheVariants.{OutOfMemory};
    ghost use Rattle.replica_core.specs.Meaning.{meaning};
    ghost use Rattle.replica_core.specs.Saving.{checkpointed};
    ghost use Rattle.replica_model.specs.Replica.{restarts};

    type Found = Result<Checkpoint<Fnv1a, A>, Refusal>;

    ghost finds = { λ look replica found. IfOk found (λ checkpoint. checkpointed checkpoint ≡ restarts (meaning replica)) × IsOkUnless found OutOfMemory };

    fn look(&self, replica: &Replica<Fnv1a, A>) -> Result<Checkpoint<Fnv1a, A>, Refusal> {
        replica.checkpoint()
    }
}

/// Whether something waits to be sent: whether a flush gives a delta. Takes what `Replica::has_unsent` does.
#[derive(Drop)]
pub struct Waiting;

impl<A: Allocator + Copy> Look<Replica<Fnv1a, A>> for Waiting {
    ghost use Rattle.std.specs.Prelude.{◌↔◌, IsTrue};
    ghost use Rattle.replica_core.specs.Meaning.{meaning};
    ghost use Rattle.replica_model.specs.Step.{KnowsNone};

    type Found = bool;

    ghost finds = { λ look replica found. IsTrue found ↔ ¬ KnowsNone (meaning replica).group };

    fn look(&self, replica: &Replica<Fnv1a, A>) -> bool {
        replica.has_unsent()
    }
}

/// The dots that the replica has seen. Its only refusal is OutOfMemory. Takes time and memory in the context.
#[derive(Drop)]
pub struct Knowing<A: Allocator + Copy> {
    /// Where memory for the context is taken.
    pub alloc: A,
}

impl<A: Allocator + Copy> Look<Replica<Fnv1a, A>> for Knowing<A> {
    ghost use Rattle.std.specs.Prelude.{◌≡◌, IfOk, IsOkUnless};
    ghost use Rattle.causal_context.specs.Context.{has};
    ghost use Rattle.dots.specs.declared.refusal.Refusal.TheVariants.{OutOfMemory};
    ghost use Rattle.replica_core.specs.Meaning.{meaning};

    type Found = Result<Context<A>, Refusal>;

    ghost finds = { λ look replica found. IfOk found (λ context. has context ≡ (meaning replica).live.has) × IsOkUnless found OutOfMemory };

    fn look(&self, replica: &Replica<Fnv1a, A>) -> Result<Context<A>, Refusal> {
        replica.context().copy(self.alloc)
    }
}

/// The own synchronisations that are open, at most eight, by number. Its only refusal is OutOfMemory. Takes time and memory in their number.
#[derive(Drop)]
pub struct SessionListing;

impl<A: Allocator + Copy> Look<Replica<Fnv1a, A>> for SessionListing {
    ghost use Rattle.std.specs.Prelude.{◌≡◌, map, IfOk, IsOkUnless};
    ghost use Rattle.dots.specs.declared.refusal.Refusal.TheVariants.{OutOfMemory};
    ghost use Rattle.replica_core.specs.Meaning.{meaning};

    type Found = Result<Vec<Session, A>, Refusal>;

    ghost finds = { λ look replica found. IfOk found (λ v. v.items ≡ map (λ o. o.session) (meaning replica).sessions) × IsOkUnless found OutOfMemory };

    fn look(&self, replica: &Replica<Fnv1a, A>) -> Result<Vec<Session, A>, Refusal> {
        replica.sessions()
    }
}
