// A trie with generations: a finite map from keys to values whose snapshots cost a few reference counts.
// Offered to the crates above: the calls of a finite map. A frozen map stays what it was, whatever is written afterwards.
#![tactic(auto)]

mod change;
mod changing;
mod children;
mod copied;
mod entry;
mod frozen;
mod iter;
mod listing;
mod no_summary;
mod node;
mod put;
mod root;
mod sealing;
mod seeking;
mod summary;
mod summing;
mod take;
mod trie;
mod written;

pub use change::Change;
pub use children::Children;
pub use entry::Entry;
pub use frozen::Frozen;
pub use iter::Iter;
pub use no_summary::NoSummary;
pub use summary::Summary;
pub use trie::GenTrie;
pub use written::Written;
