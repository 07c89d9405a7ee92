// The map for programs in other languages: a handle on a replica, one on a snapshot of what it held, and a function for each call of them.
// Each answers 0 where it was done, and else why it was not: the number of a `Refusal`, or one of the numbers of `answer`. A refused call
// changes nothing. One call at a time is made with a handle, which may go to another thread between two of them.
#![tactic(auto)]

mod answer;
mod bringing;
mod changing;
mod guarding;
mod handle;
mod held;
mod loose;
mod making;
mod named;
mod reading;
mod reading_fields;
mod saving;
mod sending;
mod snapshot;
mod snapshot_handle;
mod snapshot_reading;
mod snapshot_reading_fields;
mod snapshot_taking;
mod snapshot_telling;
mod synchronising;
mod telling;
mod texts;
mod writing;
