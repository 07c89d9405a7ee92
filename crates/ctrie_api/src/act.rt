use dots::Key;
use std::alloc::{Allocator, Global};

/// An act at one of several tries, which is meant by its index: the first that was made has the index 0.
#[derive(Drop)]
pub enum Act<V, A: Allocator = Global> {
    /// A value put at a key.
    Insert(usize, Key<A>, V),
    /// A key taken out.
    Remove(usize, Key<A>),
    /// All keys taken out.
    Clear(usize),
    /// A snapshot taken, which becomes the last of the tries.
    Snapshot(usize),
    /// A read-only snapshot taken, which becomes the last of the tries.
    ReadOnlySnapshot(usize),
}
