// Causal contexts: which dots a replica has seen.
// Offered to the crates above: a context is its set of dots, kept as a version vector and a cloud in one form.
#![tactic(auto)]

mod adding;
mod cloud;
mod context;
mod growth;
mod laws;
mod taking;
mod vector;

pub use context::Context;
pub use growth::Growth;
pub use laws::{equal_sets_are_one, equality_is_that_of_sets};
