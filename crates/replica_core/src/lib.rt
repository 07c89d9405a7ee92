// One replica of the map, for a program that holds one: what it writes, sends and takes in, its synchronisations, and what it shows.
// Offered to the crates above: each call leaves the state and gives the reply of the step of one replica.
#![tactic(auto)]

mod asking;
mod bringing;
mod call;
mod carrying;
mod checkpoint;
mod cutting;
mod delivered;
mod delivering;
mod guarding;
mod laws;
mod letter;
mod letters;
mod operations;
mod outcome;
mod reading;
mod replica;
mod saving;
mod sessions;
mod taken;
mod turning;
mod write;
mod writing;
mod wrote;

pub use call::Call;
pub use checkpoint::Checkpoint;
pub use delivered::Delivered;
pub use laws::{
    a_replica_alone_shows_what_it_has_seen, no_message_of_a_world_tells_of_a_lost_memory,
    sessions_are_found_as_told, sessions_change_in_place, sessions_turn_as_told,
    snapshots_answer_as_told, what_is_built_is_known,
};
pub use letter::Letter;
pub use outcome::Outcome;
pub use replica::Replica;
pub use taken::Taken;
pub use write::Write;
pub use wrote::Wrote;
