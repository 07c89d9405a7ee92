use crate::fetching::Fetching;
use hash_path::{PathHash, Prefix};
use std::alloc::{Allocator, Global};

/// What a page comes to at an asker.
#[derive(Drop)]
pub enum Taken<H: PathHash, A: Allocator + Copy = Global> {
    /// Its prefix is not waited for.
    Ignored,
    /// It is not the page that was promised, or it does not fit.
    Mismatch,
    /// It was taken: what the asker has then, and the prefixes that have to be asked for.
    Took(Fetching<H, A>, Vec<Prefix, A>),
}
