// How many messages did not go out.
#[derive(Clone, Copy, Drop)]
pub(crate) struct Missed {
    // Those that the post did not send.
    pub(crate) unsent: u64,
    // Those for which there was no memory.
    pub(crate) lost: u64,
}
