// The laws of a replica by itself, to which messages come from anywhere: of what it has seen, its sessions, its snapshots and its limits they say what those
// of worlds say, but for what a peer did. No product code.
// Offered to the crates above: that these laws hold.
#![tactic(auto)]

mod cutting;
mod headline;
mod seen;
mod sessions;
mod snapshots;
mod standing;

pub use cutting::cuts_are_flushes_that_came_earlier;
pub use headline::{
    replicas_alone_that_have_seen_the_same_hold_the_same,
    what_a_replica_alone_does_not_take_may_say_anything,
};
pub use seen::{
    an_ended_session_of_a_replica_alone_adds_what_was_opened,
    other_deeds_of_a_replica_alone_add_what_they_bring,
};
pub use sessions::{
    sessions_of_a_replica_alone_ask_for_what_differs,
    sessions_of_a_replica_alone_take_no_other_pages,
    sessions_of_a_replica_alone_take_what_they_wait_for,
};
pub use snapshots::snapshots_of_a_replica_alone_are_what_it_was;
pub use standing::{
    deeds_of_a_replica_alone_are_one, each_deed_befalls_or_is_refused,
    messages_with_bytes_are_finite, replicas_alone_stay_within_limits,
};
