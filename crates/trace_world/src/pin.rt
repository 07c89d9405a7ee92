use crate::teller::Teller;
use delta_ops::LiveStore;
use dots::Name;
use hash_path::Fnv1a;
use prefix_digest::ShaSummary;
use std::alloc::{Allocator, Global};
use std::snapshot::Snapshot;

/// A map that is kept as it was: it shares its nodes with the replica's.
#[derive(Drop)]
pub(crate) struct Pin<A: Allocator + Copy = Global> {
    /// Whose map it is.
    pub name: Name,
    /// What was held then: for clauses alone.
    pub past: Snapshot<Teller<A>>,
    /// What the replica held.
    pub store: LiveStore<ShaSummary, Fnv1a, A>,
}
