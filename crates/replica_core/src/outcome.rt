/// What came of a message that a replica was given, or of a synchronisation that it was to send again.
#[derive(Clone, Copy, Debug, PartialEq, Eq)]
pub enum Outcome {
    /// A delta was joined in.
    Joined,
    /// It was taken, and the replies are to be sent.
    Sent,
    /// A synchronisation ended, and what its peer had when it opened was joined in.
    Done,
    /// Nothing was waiting for it.
    Ignored,
    /// It is not what was promised, or it does not fit.
    Mismatch,
    /// A synchronisation ended and adds nothing: the peer does not keep it any more.
    Gone,
}
