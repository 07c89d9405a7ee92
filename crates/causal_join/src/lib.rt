// Causal pairs: a dot store with the causal context under which it stands, and the pair of this project, `OrMap`.
// Offered to the crates above: the join of pairs is commutative, associative and idempotent, for any store.
#![tactic(auto)]

mod causal;
mod fields;
mod laws;
mod or_map;

pub use causal::Causal;
pub use fields::Fields;
pub use laws::{join_is_associative, join_is_commutative, join_is_idempotent};
pub use or_map::{OrMap, OrMapStore};
