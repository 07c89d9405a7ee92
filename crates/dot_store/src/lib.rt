// Dot stores: sets of dots, maps from dots to values, and maps from keys to dot stores, at any nesting.
// Offered to the crates above: a store is what it holds at each place and dot, and the join of two stores under
// their contexts is the causal join, pointwise.
#![tactic(auto, unfolding(crate::specs::Stores::at_dots, crate::specs::Stores::at_values, crate::specs::Stores::at_stores))]

mod dot_fun;
mod dot_map;
mod dot_set;
mod kept;
mod one_key;
mod put;
mod store;

pub use dot_fun::DotFun;
pub use dot_map::DotMap;
pub use dot_set::DotSet;
pub use kept::Kept;
pub use store::DotStore;
