use causal_context::Context;
use hash_path::PathHash;
use page_fetching::Built;
use prefix_digest::FrozenMap;
use std::alloc::{Allocator, Global};

/// What a session that is done gives: the opened map and the dots that the opening knows, to be joined into what the asker holds by
/// then. It is told by what differs from a map that the asker held: at a key that was not touched the two are the same.
#[derive(Drop)]
pub struct Opened<H: PathHash, A: Allocator + Copy = Global> {
    /// The map that it was built from: the own one when the session was asked, or the empty one where the peer had no key.
    pub base: FrozenMap<H, A>,
    /// The dots that had been seen with that map.
    pub seen: Context<A>,
    /// What was built, with the keys that were touched.
    pub built: Built<H, A>,
    /// The dots that the opening knows.
    pub context: Context<A>,
}
