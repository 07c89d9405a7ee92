//! A log of byte strings in a SQLite file: each is on the disk before it is acknowledged.
#![tactic(auto)]

mod log;
mod log_error;
mod statements;
mod table;

pub use log::Log;
pub use log_error::LogError;
