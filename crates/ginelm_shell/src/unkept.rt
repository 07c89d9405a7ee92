// A replica that is kept in no file.
use crate::fault::Fault;
use crate::keeper::Keeper;
use ginelm::{Letter, Name, Replica, TakeError, Taken, Write, Wrote, take};
use replica_store::Written;
use std::alloc::Global;

impl Keeper for Replica {
    fn replica(&self) -> &Replica {
        self
    }

    fn has_failed(&self) -> bool {
        false
    }

    fn make(&mut self, _alloc: Global, write: &Write<'_>) -> Result<Written<Wrote>, Fault> {
        let answer = self.write(write)?;
        Ok(Written {
            answer,
            delta: None,
        })
    }

    fn make_all(
        &mut self,
        _alloc: Global,
        _writes: &[Write<'_>],
    ) -> Result<Written<Vec<Wrote>>, Fault> {
        Err(Fault::Unkept)
    }

    fn unsent(&mut self, most: Option<u64>) -> Result<Option<Letter>, Fault> {
        match most {
            Some(most) => Ok(self.flush_at_most(most)?),
            None => Ok(self.flush_bytes()?),
        }
    }

    fn synchronise(&mut self, _alloc: Global, peer: Name) -> Result<(u64, Letter), Fault> {
        Ok(self.ask_bytes(peer)?)
    }

    fn receive(&mut self, alloc: Global, bytes: &[u8]) -> Result<Taken, Fault> {
        match take(alloc, self, bytes) {
            Ok(taken) => Ok(taken),
            Err(TakeError::LostMemory) => Err(Fault::Lost),
            Err(TakeError::Refused(refusal)) => Err(Fault::Refused(refusal)),
        }
    }

    fn give_up(&mut self, _alloc: Global, number: u64) -> Result<bool, Fault> {
        Ok(self.abandon(number))
    }

    fn tidy(&mut self, _alloc: Global) -> Result<(), Fault> {
        Err(Fault::Unkept)
    }
}
