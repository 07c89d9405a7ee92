// The two ends of a synchronisation by pages.
// Offered to the crates above: what the answering end answers is told by the snapshots that it keeps, and is taken by who asked.
#![tactic(auto)]

mod answerer;
mod asker;
mod keeping;
mod laws;
mod opened;
mod outbox;
mod snapshot;
mod stage;
mod step;
mod turn;
mod turning;
mod unposted;

pub use answerer::Answerer;
pub use asker::Asker;
pub use laws::{
    asks_are_taken, few_stay, hashes_stay, hellos_are_kept, hellos_are_taken, repeats_move_nothing,
};
pub use opened::Opened;
pub use outbox::Outbox;
pub use snapshot::FieldStore;
pub use step::Step;
pub use turn::Turn;
pub use unposted::Unposted;
