// The live pair of a replica: a store kept as a trie, its context, and an index of where dots stand, so that a delta is
// joined in at the cost of what it touches.
// Offered to the crates above: the pair means what the join of all that was joined into it means.
#![tactic(auto, unfolding(crate::specs::Index::names))]

mod again;
mod bringing;
mod closing;
mod dot_span;
mod index;
mod keyed;
mod live;
mod new_key;
mod one_key;
mod prepared;
mod touched;
mod touching;
mod unknown;

pub use live::Live;
pub use prepared::Prepared;
