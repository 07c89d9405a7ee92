// Messages as bytes, in one canonical spelling.
// Offered to the crates above: what is encoded spells the message, and what is decoded is what the bytes spell.
#![tactic(auto)]

mod append;
mod context;
mod decoding;
mod digest;
mod encoding;
mod fields;
mod items;
mod laws;
mod message;
mod names;
mod number;
mod page;
mod page_reading;
mod page_writing;
mod plain;
mod prefix;
mod sent_page;
mod sent_reading;
mod session;
mod session_reading;
mod session_writing;
mod spelled;
mod standing;
mod store;
mod text;
mod values;

pub use decoding::decode;
pub use encoding::{encode, encode_delta};
pub use laws::{a_message_has_one_spelling, bytes_spell_one_delta, bytes_spell_one_message};
pub use message::Message;
pub use page::{NamedFields, Names, Page};
pub use sent_page::SentPage;
pub use session::Session;
