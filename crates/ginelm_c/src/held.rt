use crate::texts::Texts;
use hash_path::Fnv1a;
use prefix_digest::FrozenMap;
use replica_core::Replica;

/// What stands behind a handle: a replica, what its last call gave that gives texts, and the map as it was when its changes were last told,
/// which is empty at first.
#[derive(Drop)]
pub struct Held {
    pub(crate) replica: Replica,
    pub(crate) texts: Texts,
    pub(crate) watched: FrozenMap<Fnv1a>,
}
