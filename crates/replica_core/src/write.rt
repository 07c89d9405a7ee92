use dots::{Field, Key, Value};
use std::alloc::{Allocator, Global};

/// A write of a replica, with what it is made with: each is the call of `Replica` that has its name.
#[derive(Clone, Copy, Drop)]
pub enum Write<'a, A: Allocator + Copy = Global> {
    /// A value is written on a field of a key, as `Replica::put_field`.
    Put(&'a Key<A>, &'a Field<A>, &'a Value<A>),
    /// A key is taken away with all its fields, as `Replica::remove`.
    Remove(&'a Key<A>),
    /// A field of a key is taken away, as `Replica::remove_field`.
    RemoveField(&'a Key<A>, &'a Field<A>),
    /// All keys are taken away, as `Replica::clear`.
    Clear,
}
