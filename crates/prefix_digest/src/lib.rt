// Pages and digests of a map's snapshot, by which two replicas find out where they differ.
// Offered to the crates above: the page at a prefix is told by the entries alone, its digest is its SHA-256, and the values
// that it names are given to who lacks them.
#![tactic(auto)]

mod feeding;
mod laws;
mod naming;
mod page_feeding;
mod pages;
mod sha_summary;
mod told;
mod values;

pub use laws::{a_state_has_one_map, same_operations_have_same_digests};
pub use naming::value_digest;
pub use page_feeding::digest_of;
pub use pages::{FrozenMap, check, digest, page, page_value};
pub use sha_summary::ShaSummary;
pub use values::values_for;
