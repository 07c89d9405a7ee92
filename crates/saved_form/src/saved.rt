use causal_join::OrMap;
use dots::Name;
use std::alloc::{Allocator, Global};

/// What is kept of a replica over a restart: what it needs to come back under its name.
///
/// Its own synchronisations that are open, and the snapshots that it keeps for those of others, are no part of it.
#[derive(Drop)]
pub struct Saved<A: Allocator + Copy = Global> {
    /// Its name.
    pub name: Name,
    /// The number of its last own synchronisation, or 0 where it opened none.
    pub opened: u64,
    /// What it holds, with the dots that it knows.
    pub live: OrMap<A>,
    /// What it made since it last sent.
    pub group: OrMap<A>,
}
