use causal_context::Context;
use hash_path::PathHash;
use page_fetching::{Built, Fetching};
use std::alloc::{Allocator, Global};

// How far a session is at its asker.
#[derive(Drop)]
pub(crate) enum Stage<H: PathHash, A: Allocator + Copy = Global> {
    // It asked.
    Asked,
    // It accepted an opening, which knows these dots, and fetches.
    Fetching(Context<A>, Fetching<H, A>),
    // All is there, under these dots.
    Complete(Context<A>, Built<H, A>),
    // The answerer does not keep the session.
    Over,
}
