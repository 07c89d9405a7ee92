use dots::{Field, Key, Name, Value};
use std::alloc::{Allocator, Global};

/// A call of a replica that may change it or send something, as worlds and histories keep it: each is the call of `Replica` that has its name, and a
/// put that of `put_field`.
#[derive(Drop)]
pub enum Call<A: Allocator + Copy = Global> {
    /// A value put on a field of a key.
    Put(Key<A>, Field<A>, Value<A>),
    /// A key taken away with all its fields.
    Remove(Key<A>),
    /// A field of a key taken away.
    RemoveField(Key<A>, Field<A>),
    /// All keys taken away.
    Clear,
    /// What was made since the last flush, sent.
    Flush,
    /// A synchronisation opened with this peer.
    Ask(Name),
    /// What is to be sent again for the own synchronisation of this number.
    Retry(u64),
    /// The own synchronisation of this number given up.
    Abandon(u64),
}
