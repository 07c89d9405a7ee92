use hash_path::PathHash;
use replica_core::Checkpoint;
use std::alloc::Allocator;

// What is kept of a replica of a world for when it crashes.
#[derive(Drop)]
pub(crate) struct Recovery<H: PathHash, A: Allocator + Copy> {
    // How often it was saved.
    pub(crate) saves: u64,
    // What it is to come back from, where it did something since it was last saved; else it is as it was then.
    pub(crate) checkpoint: Option<Checkpoint<H, A>>,
}
