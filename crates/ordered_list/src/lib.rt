// Ordered lists: maps and sets of few items, as vectors in the order of their keys.
// Offered to the crates above: a list is its entries, which ascend, and a look-up is that of std's words.
#![tactic(auto)]

mod item_merge;
mod merge;
mod ordered_list;
mod ordered_set;

pub use merge::Merge;
pub use ordered_list::{OrderedList, is_ascending};
pub use ordered_set::OrderedSet;
