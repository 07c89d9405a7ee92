use crate::deed::Deed;
use shared_object::Placed;
use std::alloc::{Allocator, Global};
use std::collections::LinkedList;

/// An event of a node's history: calls of the client at a place that were made at once, one after the other. It is one but for a batch.
pub struct NodeEvent<A: Allocator + Copy = Global> {
    /// The place.
    pub place: usize,
    /// The calls.
    pub deeds: LinkedList<Deed<A>>,
}

impl<A: Allocator + Copy> Placed for NodeEvent<A> {
    ghost place = { λ entry. entry.place };
}
