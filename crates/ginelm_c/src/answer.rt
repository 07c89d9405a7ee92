// The numbers that calls answer.
ghost use Rattle.std.specs.Prelude.{◌≡◌, ◌<◌, IfOk, IfErr, IsOk};
ghost use Rattle.dots.specs.Refusal.{number_of};

use dots::Refusal;

/// The handle holds no replica.
pub(crate) const EMPTY: u32 = 14;

/// The handle holds a replica already.
pub(crate) const FULL: u32 = 15;

/// A replica's name is 0.
pub(crate) const NO_NAME: u32 = 16;

/// The room is too short for the text.
pub(crate) const SHORT: u32 = 17;

/// There is no text at that place.
pub(crate) const NO_TEXT: u32 = 18;

/// The message knows a write of the replica's name that the replica does not know.
pub(crate) const LOST_MEMORY: u32 = 19;

// 0 where it was done, or the number of the refusal.
pub(crate) fn told(done: Result<(), Refusal>) -> u32
    ensures done { IfOk done (λ _. result ≡ 0) }
    ensures zero { result ≡ 0 → IsOk done }
    ensures refused { IfErr done (λ refusal. result ≡ number_of refusal) }
    ensures apart { result < 14 }
{
    match done {
        Ok(()) => 0,
        Err(refusal) => u32::from(refusal.number()),
    }
}
