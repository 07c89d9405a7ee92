// An object of one thread that many clients share: those that write take turns, and those that read enter a published root of it and wait
// for nobody.
// Offered to the crates above: there is one history of the accepted calls; each call is answered as the object of one thread answers after
// a front of it, which begins with all that the client saw, learnt or wrote; and of a client's place it has just the calls that it made.
#![tactic(auto)]

mod awaiting;
mod client;
mod finishing;
mod gate;
mod guarded;
mod look;
mod lying;
mod object;
mod owner;
mod placed;
mod returned;
mod shared;
mod snapshot;
mod update;

pub use client::Client;
pub use finishing::{Finished, Unfinished};
pub use gate::{Gate, NoGate, Point};
pub use look::Look;
pub use object::Object;
pub use owner::Owner;
pub use placed::Placed;
pub use returned::Returned;
pub use shared::Shared;
pub use snapshot::Snapshot;
pub use update::Update;
