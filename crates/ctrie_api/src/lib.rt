// Maps with snapshots: the calls of Workiva's package trie/ctrie, over the trie with generations.
// Offered to the crates above: the calls of a finite map, and that in a run of tries a write changes its own map alone.
#![tactic(auto)]

mod act;
mod ctrie;
mod tries;
mod write;

pub use act::Act;
pub use ctrie::Ctrie;
pub use gen_trie::NoSummary;
pub use tries::Tries;
