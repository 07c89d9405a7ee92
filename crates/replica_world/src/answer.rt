use dots::Dot;
use replica_core::Outcome;

/// What an event was answered.
#[derive(Clone, Copy, Debug, PartialEq, Eq)]
pub enum Answer {
    /// Nothing: of a new replica, and of a flush.
    Nothing,
    /// The dot of a put.
    Dot(Dot),
    /// How many writes a remove or a clear observed.
    Count(u64),
    /// The number of the synchronisation that was opened.
    Number(u64),
    /// What came of a delivery, or of a retry.
    Outcome(Outcome),
    /// Whether there was a synchronisation to abandon.
    Closed(bool),
}
