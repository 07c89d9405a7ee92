// The machine that carries out each line of a trace, in a world of replicas, and the maps that were kept.
// Offered to the crate that reads the lines and writes the answers.
#![tactic(auto)]

mod laws;
mod machine;
mod pin;
mod reading;
mod teller;
mod telling;
mod texts;

pub use laws::{a_line_has_one_answer, reads_tell_what_was_seen, writes_are_told_by_what_was_seen};
pub use machine::Machine;
