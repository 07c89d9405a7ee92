/// What a write is answered, once it is on the disk.
#[derive(Drop)]
pub struct Written<T> {
    /// What the replica answered.
    pub answer: T,
    /// The bytes of the delta that is to be sent to the other replicas, or None where nothing was made.
    pub delta: Option<Vec<u8>>,
}
