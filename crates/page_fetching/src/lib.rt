// What an asker makes of a page that it takes: its names become values again, and what is built is changed at the keys of the page.
// Offered to the crates above: a session that fetches, whose steps are those of the definitions in sync_model, and what it has built.
#![tactic(auto)]

mod asking;
mod built;
mod clearing;
mod draft;
mod fetching;
mod filling;
mod fitting;
mod known;
mod prefixes;
mod putting;
mod taken;
mod taking;
mod waiting;

pub use built::{Built, KeySet};
pub use fetching::Fetching;
pub use taken::Taken;
