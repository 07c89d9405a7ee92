use crate::resent::Resent;
use crate::serving::Served;

/// What became of what came in to a node that is served by a timed post, and of what it sent by itself. No number goes past 2^64 - 1.
#[derive(Clone, Copy, Debug, PartialEq, Eq)]
pub struct TimedServed {
    /// What became of what came in, and of the replies.
    pub served: Served,
    /// What became of synchronisations that were to send again, and of flushes, whose deltas were to be sent to all: a delta that one replica or
    /// several missed counts as one that the post did not send. Where there is no memory to tell which synchronisations are open, one is refused.
    pub sent: Resent,
}
