use dots::Refusal;
use replica_core::Wrote;
use std::alloc::{Allocator, Global};

/// What a batch was answered.
#[derive(Drop)]
pub struct Written<A: Allocator = Global> {
    /// What the writes were answered that were made: the first ones of the batch, and where no refusal stands here all.
    pub wrote: Vec<Wrote, A>,
    /// What the next one was refused with. It changed nothing, and those after it were not tried.
    pub refusal: Option<Refusal>,
}
