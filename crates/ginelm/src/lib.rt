// Ginelm: a map that many replicas hold, each of which writes when it likes. What they exchange may be lost, come twice and come in any
// order: replicas that have seen the same operations hold the same, and each key then holds the values of the writes that no operation has
// observed, which are several where replicas wrote without knowing of each other. It is the observed-remove map of multi-value registers
// of Almeida, Shoker and Baquero, "Delta State Replicated Data Types" (2018).
// This crate is what a program imports. Each call's contract stands at the call, in the crate that has it. What allocates takes the allocator
// first and answers a `Result`. A refused call changes nothing.
#![tactic(auto)]

// How a program uses it:
//
// let name = Name::new(1).context("a name is a number from 1 on")?;   // no other replica has it
// let mut basket = Replica::new(rt.alloc(), name, Fnv1a);
//
// let milk = Key::new(rt.alloc(), b"milk")?;
// basket.put(&milk, &Value::new(rt.alloc(), b"2")?)?;
// let values = basket.get(&milk)?;                                     // all that stand there
//
// if let Some(letter) = basket.flush_bytes()? {                        // what was written since the last flush
//     send(letter.to, &letter.bytes);                                  // to everyone, in whatever way
// }
// while let Some(letter) = basket.flush_at_most(1_000_000)? {          // the same in parts, where a message may be so long at most
//     send(letter.to, &letter.bytes);
// }
//
// let taken = take(rt.alloc(), &mut basket, received)?;                // of any replica, of any kind
// for letter in &taken.letters {
//     send(letter.to, &letter.bytes);                                  // to that replica
// }
//
// let (number, letter) = basket.ask_bytes(peer)?;                      // all that a peer has seen, where messages were lost
//
// basket.seal()?;                                                      // so that the next line costs what changed, and not the map
// let now = basket.snapshot()?;
// for key in &changes(rt.alloc(), &before, &now)? {                    // the keys at which two snapshots differ
//     show(key);
// }
//
// store.write(&encode_saved(rt.alloc(), basket.checkpoint()?.saved(rt.alloc())?)?);  // before what was written is sent
// let basket = Replica::resume(rt.alloc(), Fnv1a, decode_saved(rt.alloc(), &store.read())?)?;
mod guarded;
mod take_error;

pub use crate::guarded::take;
pub use crate::take_error::TakeError;
pub use delta_ops::{fields, keys, size, values, values_of_key};
pub use dots::{Dot, Field, Key, Name, Refusal, Value};
pub use hash_path::{Fnv1a, PathHash};
pub use map_changes::changes;
pub use prefix_digest::FrozenMap;
pub use replica_core::{Checkpoint, Delivered, Letter, Outcome, Replica, Taken, Write, Wrote};
pub use saved_form::{Saved, decode_saved, encode_saved};
pub use sync_protocol::FieldStore;
pub use wire_form::{Message, Session, decode, encode};
