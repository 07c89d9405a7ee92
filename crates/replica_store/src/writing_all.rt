// Several own writes at once.
ghost use Rattle.std.specs.Prelude.{◌≡◌, List, map, take, false, Err, IfOk, IfErr, OnOk, IsTrue};
ghost use Rattle.sqlite.specs.State.{HasCleanDisk};
ghost use Rattle.durable_log.specs.Log.{log_state};
ghost use Rattle.replica_model.specs.Mail.{Mail};
ghost use Rattle.replica_core.specs.Meaning.{meaning};
ghost use Rattle.replica_store.specs.Kept.{IsKept, KeepsEither};
ghost use Rattle.replica_store.specs.Refusing.{LeavesAllBy};
ghost use Rattle.replica_store.specs.Store.{AreSent};
ghost use Rattle.replica_core.specs.Writing.{answer_of, call_of};
ghost use Rattle.replica_store.specs.Writes.{MakesAll, WritesAll};

use crate::store::Store;
use crate::store_error::StoreError;
use crate::to_make::ToMake;
use crate::writing::keep_flushed;
use crate::written::Written;
use dots::Refusal;
use hash_path::PathHash;
use replica_core::{Replica, Write, Wrote};
use sqlite::Alter;
use std::alloc::Global;

// Makes the writes, one after the other. One that is refused ends it, and those before it are made.
fn make_all<H: PathHash, W: ToMake>(
    alloc: Global,
    replica: &mut Replica<H>,
    writes: &[W],
) -> Result<Vec<W::Answer>, Refusal>
    ensures { IfOk result (λ answers. MakesAll H.hash_of replica.old replica.new (map W.call writes.now) (map W.answered answers.items)) }
{
    let mut answers = Vec::with_capacity(alloc, writes.len())?;
    for write in writes {
        let answer = write.make(replica)?;
        answers.push(answer)?;
    }
    Ok(answers)
}

impl<S: Alter, H: PathHash> Store<S, H> {
    /// Makes several writes, and returns once all are on the disk: what each is answered, and the one delta that is to be sent. They are kept
    /// in one string, so that a crash leaves all or none.
    ///
    /// An error leaves the store failed, and none of the writes on the disk, or all: that is told by opening it again. Where the replica
    /// refuses one, none is on the disk. Takes what the calls and one flush take, and one write to the disk with a wait for it.
    pub fn write_all(
        &mut self,
        alloc: Global,
        writes: &[Write<'_>],
    ) -> Result<Written<Vec<Wrote>>, StoreError>
        ensures ok { IfOk result (λ written. (out : List Mail) × AreSent written.delta out
            × WritesAll H.hash_of self.old.replica self.new.replica (map call_of writes.now) (map answer_of written.answer.items) out) }
        ensures err { IfErr result (LeavesAllBy self.old self.new) }
        ensures ended { IsTrue self.old.is_failed → (result ≡ Err StoreError.Failed) × (self.new ≡ self.old) }
        ensures kept { HasCleanDisk (log_state S.Store self.new.log) → OnOk result (IsKept (log_state S.Store self.new.log) (meaning self.new.replica)) }
        ensures any_moment { self.old.is_failed ≡ false → HasCleanDisk (log_state S.Store self.new.log) → KeepsEither (log_state S.Store self.new.log) (meaning self.old.replica) (meaning self.new.replica) }
    {
        if self.is_failed {
            return Err(StoreError::Failed);
        }
        // proof: the clause `ready` of `is_failed`.
        let _ = self.log.is_failed();
        let answer = match make_all(alloc, &mut self.replica, writes) {
            Ok(answers) => answers,
            Err(refusal) => {
                self.is_failed = true;
                return Err(StoreError::OfSeveral(refusal));
            }
        };
        match keep_flushed(alloc, &mut self.replica, &mut self.log) {
            Ok(delta) => Ok(Written { answer, delta }),
            Err(error) => {
                drop(answer);
                self.is_failed = true;
                Err(error)
            }
        }
    }
}
