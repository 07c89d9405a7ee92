use crate::texts::Texts;
use hash_path::Fnv1a;
use sync_protocol::FieldStore;

/// What stands behind the handle of a snapshot: what a replica held as it was, and what its last call gave that gives texts.
#[derive(Drop)]
pub struct Snapshot {
    pub(crate) store: FieldStore<Fnv1a>,
    pub(crate) texts: Texts,
}
