use crate::causal::Causal;
use crate::fields::Fields;
use dot_store::DotMap;
use dots::Key;
use std::alloc::Global;

/// The store of the observed-remove map: each field of each key holds the values that stand there, by the dots of their
/// writes. A field with no value, and a key with no field, is not there.
pub type OrMapStore<A = Global> = DotMap<Key<A>, Fields<A>, A>;

/// The store with its causal context: what a replica, a delta or a message holds.
pub type OrMap<A = Global> = Causal<OrMapStore<A>, A>;
