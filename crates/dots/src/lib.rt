// Names, dots, keys, fields, values and refusals: the plain values that the replicated map is made of.
// Offered to the crates above: lawful equality and order of these values, and that `bytes` is what came in.
#![tactic(auto)]

mod dot;
mod kind;
mod name;
mod printed;
mod refusal;
mod store;
mod text;

pub use dot::Dot;
pub use kind::{Field, FieldKind, Key, KeyKind, Value, ValueKind};
pub use name::Name;
pub use refusal::Refusal;
pub use text::Text;
