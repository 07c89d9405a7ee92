use crate::fault::Fault;
use ginelm::{Letter, Name, Replica, Taken, Write, Wrote};
use replica_store::Written;
use std::alloc::Global;

/// What the calls ask of a replica, wherever it is kept. The shell knows it by this trait alone, so that no proof looks into a store.
pub(crate) trait Keeper {
    /// The replica, to be read.
    fn replica(&self) -> &Replica;

    /// Whether it takes no more calls, as what it is kept in failed.
    fn has_failed(&self) -> bool;

    /// Makes a write: what it is answered, and the message that is to be sent to everyone before that is told.
    fn make(&mut self, alloc: Global, write: &Write<'_>) -> Result<Written<Wrote>, Fault>;

    /// Makes several writes, which are kept together: what each is answered, and the one message for all.
    fn make_all(
        &mut self,
        alloc: Global,
        writes: &[Write<'_>],
    ) -> Result<Written<Vec<Wrote>>, Fault>;

    /// What was written, and is still to be sent: all of it, or the first of it that has at most so many bytes.
    fn unsent(&mut self, most: Option<u64>) -> Result<Option<Letter>, Fault>;

    /// Opens a synchronisation with this peer: its number, and what is to be sent for it.
    fn synchronise(&mut self, alloc: Global, peer: Name) -> Result<(u64, Letter), Fault>;

    /// Takes a message in, unless it tells of a lost memory: what came of it, and what is to be sent for it.
    fn receive(&mut self, alloc: Global, bytes: &[u8]) -> Result<Taken, Fault>;

    /// Gives the own synchronisation of this number up. Whether it was open.
    fn give_up(&mut self, alloc: Global, number: u64) -> Result<bool, Fault>;

    /// Keeps it anew, in few strings.
    fn tidy(&mut self, alloc: Global) -> Result<(), Fault>;
}
