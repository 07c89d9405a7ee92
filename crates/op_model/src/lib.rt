// The definitions in which the map's promises are said, and their laws. No product code.
// Offered to the crates above: the vocabulary of states, operations and worlds, and as laws that the join of states is
// the state of the union, that no dot is ever used twice, and that each event keeps what a pair means.
#![tactic(auto)]

mod examples;
mod sets;
mod states;
mod worlds;

pub use examples::{
    a_clear_and_a_group, a_put_overwrites_both, a_remove_overtakes_its_put,
    concurrent_puts_are_both_kept, fields_are_removed, fields_in_a_world, fields_show,
    messages_carry, reuse_is_seen, sets_know, sets_make, sets_show, states_show,
};
pub use sets::{
    made_at_a_state, same_operations, standing, states_join, states_of_operations, what_is_shown,
};
pub use states::{
    bytes_are_in_order, greater_is_lawful, join_is_associative, join_is_commutative,
    join_is_idempotent, join_is_later, join_is_read_at_places,
};
pub use worlds::{
    clears, delivers, events_elsewhere, field_removes, flushes, ids_are_fresh, learns_a_set,
    messages_stay, moves_are_sound, nodes, puts, removes, replicas_show, same_pairs_mean_the_same,
};
