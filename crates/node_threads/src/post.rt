ghost use Rattle.std.specs.Prelude.{◌≡◌, false, IsTrue, IsNone, IfSome};

use dots::Name;
use std::sync::Wait;

/// How a node that is served gets what is sent to it, and sends what it answers: `Channels`, or what else carries bytes.
// What comes in is of the global memory, as the toolchain makes no proof of an impl of such a trait for every allocator.
pub trait Post {
    ghost use Rattle.std.specs.Prelude.{ℕ, List};

    // From the first state of it to the second, these bytes came in.
    ghost receives: { Self → Self → List ℕ → Type 0 };

    // From the first state to the second, these bytes were sent to the replica of this name.
    ghost sends: { Self → Self → ℕ → List ℕ → Type 0 };

    // From the first state to the second, nothing came in and nothing was sent.
    ghost rests: { Self → Self → Type 0 };

    // From the first state to the second, nothing was sent, and nothing comes in any more, or a `TimedPost` is due.
    ghost ends: { Self → Self → Type 0 };

    /// The bytes that come in next, for which it may wait. None where it is to be served no longer, and of a `TimedPost` also where it is due.
    fn receive<T: Wait>(&mut self, rt: &T) -> Option<Vec<u8>>
        ensures received { IfSome result (λ bytes. receives self.old self.new bytes.items) }
        ensures ended { IsNone result → ends self.old self.new };

    /// Sends these bytes to a replica, for which it may wait. Whether they could be sent: not where there is no memory that it needs for it.
    fn send<T: Wait>(&mut self, rt: &T, to: Name, bytes: &[u8]) -> bool
        ensures sent { IsTrue result → sends self.old self.new to bytes.now }
        ensures unsent { result ≡ false → rests self.old self.new };
}
