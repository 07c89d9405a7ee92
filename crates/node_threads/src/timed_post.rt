ghost use Rattle.std.specs.Prelude.{◌≡◌, ◌↔◌, false, IsTrue};

use crate::post::Post;
use std::sync::Wait;

/// A post that is due from time to time, and by which all replicas that it knows are reached at once: `TimedChannels`, or what else carries bytes.
/// `Post::receive` gives nothing where it is due, and where it is over.
pub trait TimedPost: Post {
    ghost use Rattle.std.specs.Prelude.{ℕ, List};

    // It is to be served no longer.
    ghost over: { Self → Type 0 };

    // From the first state of it to the second, these bytes were sent to each replica that it knows.
    ghost spreads: { Self → Self → List ℕ → Type 0 };

    // From the first state to the second, they were not sent to each.
    ghost misses: { Self → Self → Type 0 };

    /// Whether it is to be served no longer.
    fn is_over(&self) -> bool
        ensures told { IsTrue result ↔ over self.now };

    /// Sends these bytes to each replica that it knows, for which it may wait. Whether they could be sent to each: not where there is no memory that
    /// it needs for it.
    fn spread<T: Wait>(&mut self, rt: &T, bytes: &[u8]) -> bool
        ensures sent { IsTrue result → spreads self.old self.new bytes.now }
        ensures missed { result ≡ false → misses self.old self.new };
}
