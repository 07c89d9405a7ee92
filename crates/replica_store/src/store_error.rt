use dots::{Name, Refusal};
use durable_log::LogError;
use thiserror::Error;

/// Why a call of a store was refused.
#[derive(Clone, Copy, Debug, PartialEq, Eq, Error)]
pub enum StoreError {
    /// The replica refused it, and nothing changed.
    #[error("{0}")]
    Refused(Refusal),
    /// The replica refused one of several writes, none of which was kept, and the store failed.
    #[error("{0}")]
    OfSeveral(Refusal),
    /// The log failed, and the store with it.
    #[error("{0}")]
    Log(LogError),
    /// No memory was left to keep what the replica had done, and the store failed.
    #[error("out of memory")]
    OutOfMemory,
    /// An earlier call failed. What is kept is told by opening it again.
    #[error("the store failed earlier")]
    Failed,
    /// The file keeps the replica of this name, and another was named.
    #[error("the file keeps replica {0}")]
    OtherName(Name),
    /// A message knows a write of the replica's name that the replica does not know: the file is not the newest of its name.
    #[error("the memory of this name is lost")]
    LostMemory,
    /// The strings of the file keep no replica.
    #[error("the file keeps no replica")]
    NotAReplica,
}
