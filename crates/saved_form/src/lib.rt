// What is kept of a replica over a restart, as bytes in one canonical spelling.
// Offered to the crates above: what was encoded is decoded as what it was, and nothing else is decoded.
#![tactic(auto)]

mod decoding;
mod encoding;
mod laws;
mod parts;
mod saved;

pub use decoding::decode_saved;
pub use encoding::encode_saved;
pub use laws::{bytes_spell_one_save, what_was_saved_has_one_spelling};
pub use saved::Saved;
