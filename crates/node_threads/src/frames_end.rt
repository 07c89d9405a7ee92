use dots::Refusal;

/// How frames end.
#[derive(Clone, Copy, Debug, PartialEq, Eq, Drop)]
pub enum FramesEnd {
    /// Nothing comes any more.
    Over,
    /// TooLong where a frame came that is longer than is taken in, OutOfMemory where there was none for it, Input where the input failed or
    /// ended within a frame, and Output where the output failed.
    Refused(Refusal),
}
