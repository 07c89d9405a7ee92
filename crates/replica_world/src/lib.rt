// A world of replicas and of the messages between them.
// Offered to the crates above: each event makes of the world what the model of worlds says.
#![tactic(auto)]

mod accepted;
mod answer;
mod calling;
mod delivering;
mod event;
mod foreseeing;
mod happening;
mod laws;
mod posted;
mod preparing;
mod reading;
mod recovery;
mod saving;
mod told;
mod world;

pub use accepted::Accepted;
pub use answer::Answer;
pub use event::Event;
pub use laws::{replicas_show_what_they_have_seen, what_is_held_survives};
pub use told::Told;
pub use world::World;
