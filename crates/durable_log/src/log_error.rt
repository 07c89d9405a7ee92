use thiserror::Error;

/// Why a call of a log was refused.
#[derive(Clone, Copy, Debug, PartialEq, Eq, Error)]
pub enum LogError {
    /// Another handle has the file open.
    #[error("the log is open elsewhere")]
    InUse,
    /// The file is a database, and its tables are not those of a log.
    #[error("the file holds no log")]
    NotALog,
    /// An earlier call failed. What is in the file is told by opening it again.
    #[error("the log failed earlier")]
    Failed,
    /// No memory was left.
    #[error("out of memory")]
    OutOfMemory,
    /// The database failed.
    #[error("{0}")]
    Database(sqlite::Error),
}
