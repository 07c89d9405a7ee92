// The definitions of one replica's step and of worlds of replicas, and their laws. No product code.
// Offered to the crates above: what a replica and a world have to do, and what holds over all lists of events.
#![tactic(auto)]

mod examples;
mod headline;
mod replica_alone;
mod sessions;
mod steps;
mod worlds;

pub use examples::{a_delivery_is_seen, a_synchronisation_adds_what_was_seen};
pub use headline::{
    calls_are_told_by_what_was_seen, replicas_hold_what_they_have_seen,
    what_has_seen_the_same_holds_the_same,
};
pub use replica_alone::{
    a_session_of_a_replica_alone_has_one_opening,
    a_session_of_a_replica_alone_joins_what_its_opening_shows,
    sessions_of_a_replica_alone_are_of_asks,
};
pub use sessions::{
    a_session_has_one_ask, a_session_that_ends_joins_what_its_peer_had, openings_are_of_snapshots,
    sessions_are_of_asks_and_snapshots, sessions_ask_for_what_differs,
    sessions_take_no_other_pages, sessions_take_what_they_wait_for,
    snapshots_are_for_what_askers_knew,
};
pub use steps::{
    a_replica_alone_holds_what_it_has_seen, histories_are_one, steps_are_one,
    steps_leave_other_sessions,
};
pub use worlds::{
    accounts_are_told, crashes_take_back, each_event_happens_or_is_refused, events_leave_all_else,
    replicas_stay_within_limits, worlds_are_one, worlds_are_sound,
};
