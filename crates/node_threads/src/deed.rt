use replica_core::Call;
use std::alloc::{Allocator, Global};
use wire_form::Message;

/// A call of a client that may change the replica, as it stands in a history. Histories are told in contracts alone, and no value of it is made.
pub enum Deed<A: Allocator + Copy = Global> {
    /// A call of the replica was made.
    Call(Call<A>),
    /// A message was taken in.
    Deliver(Message<A>),
}
