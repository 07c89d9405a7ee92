// The operations of a replica on its live pair, what is read of its store, and groups of the deltas that it made.
// Offered to the crates above: each delta is the state of the set of the one operation that was made, and what is read is
// just what stands. No call but `clear` and `keys` goes through the map.
#![tactic(auto)]

mod base;
mod erasures;
mod grouping;
mod joining;
mod live_or_map;
mod merging;
mod mutators;
mod outgoing;
mod reading;
mod standing;

pub use erasures::{clear, remove, remove_field};
pub use grouping::group;
pub use live_or_map::{LiveOrMap, LiveStore};
pub use mutators::{put, put_field};
pub use outgoing::Outgoing;
pub use reading::{fields, keys, size, values, values_of_key};
pub use standing::{fields_of, values_at};
