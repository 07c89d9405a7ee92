//! The keys at which two snapshots of a map differ, found by their digests.
#![tactic(auto)]

mod gathering;
mod searching;

pub use searching::changes;
