use dots::Dot;

/// What a write was answered.
#[derive(Clone, Copy, Debug, PartialEq, Eq, Drop)]
pub enum Wrote {
    /// The dot of a put.
    Made(Dot),
    /// How many writes a remove or a clear observed.
    Counted(u64),
}
