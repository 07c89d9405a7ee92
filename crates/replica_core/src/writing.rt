// The own writes of a replica, as one call.
ghost use Rattle.std.specs.Prelude.{[], IfOk, IfErr, OnErr};
ghost use Rattle.replica_model.specs.Step.{Do};
ghost use Rattle.replica_core.specs.Meaning.{meaning};
ghost use Rattle.replica_core.specs.Stepping.{Foretells, Steps, Stays, IsRefused};
ghost use Rattle.replica_core.specs.Writing.{answer_of, call_of};

use crate::replica::Replica;
use crate::write::Write;
use crate::wrote::Wrote;
use dots::Refusal;
use hash_path::PathHash;
use std::alloc::Allocator;

impl<H: PathHash, A: Allocator + Copy> Replica<H, A> {
    /// The refusal that a write would meet whatever memory there is, if it meets one: that of `put_refusal`, and of what is no put none.
    pub fn write_refusal(&self, write: &Write<'_, A>) -> Option<Refusal>
        ensures { Foretells (meaning self.now) (call_of write.now) result }
    {
        match write {
            Write::Put(_, _, _) => self.put_refusal(),
            Write::Remove(_) | Write::RemoveField(_, _) | Write::Clear => None,
        }
    }

    /// Makes this write, as the call that has its name does: it takes what that takes, and is refused as that is.
    pub fn write(&mut self, write: &Write<'_, A>) -> Result<Wrote, Refusal>
        ensures ok { IfOk result (λ wrote. Steps H.hash_of self.old self.new (Do (call_of write.now)) (answer_of wrote) []) }
        ensures refused { IfErr result (IsRefused self.old (call_of write.now)) }
        ensures unchanged { OnErr result (Stays self.old self.new) }
    {
        match write {
            Write::Put(key, field, value) => match self.put_field(key, field, value) {
                Ok(dot) => Ok(Wrote::Made(dot)),
                Err(refusal) => Err(refusal),
            },
            Write::Remove(key) => {
                let number = self.remove(key)?;
                Ok(Wrote::Counted(number))
            }
            Write::RemoveField(key, field) => {
                let number = self.remove_field(key, field)?;
                Ok(Wrote::Counted(number))
            }
            Write::Clear => {
                let number = self.clear()?;
                Ok(Wrote::Counted(number))
            }
        }
    }
}
