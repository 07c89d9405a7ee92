use crate::answer::Answer;
use std::ops::Range;

/// What came of an event that a world accepted.
#[derive(Clone, Debug, Drop, PartialEq, Eq)]
pub struct Told {
    /// What it was answered.
    pub answer: Answer,
    /// The numbers of the messages that it made, which may be none.
    pub made: Range<u64>,
}
