// The definitions of a synchronisation by pages, and their laws. No product code.
// Offered to the crates above: what an asker does with the pages that it takes, and that it comes to hold what its peer held.
#![tactic(auto)]

mod examples;
mod laws;
mod sessions;

pub use examples::what_was_seen_to_end_is_left_out;
pub use laws::{openings_fit, pages_are_fetched, pages_fit, what_was_built_is_what_the_peer_had};
pub use sessions::{
    a_session_goes_on, a_session_opens, a_session_that_ends_adds_what_its_peer_had_seen,
};
