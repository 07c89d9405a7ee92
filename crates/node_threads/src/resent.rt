/// What became of synchronisations that were to send again, and of what else a node sends by itself. No number goes past 2^64 - 1.
#[derive(Clone, Copy, Debug, PartialEq, Eq)]
pub struct Resent {
    /// Those that were refused, for want of memory or of a number for one more event.
    pub refused: u64,
    /// Messages that the post did not send.
    pub unsent: u64,
    /// Messages for which there was no memory.
    pub lost: u64,
}
