use crate::asker::Asker;
use crate::step::Step;
use hash_path::PathHash;
use std::alloc::{Allocator, Global};

/// A message taken by an asker: the asker after it, and what the message came to. The asker that took it stays as it is.
#[derive(Drop)]
pub struct Turn<H: PathHash, A: Allocator + Copy = Global> {
    /// The asker after the message.
    pub next: Asker<H, A>,
    /// What the message came to.
    pub step: Step<A>,
}
