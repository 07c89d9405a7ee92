/// Where a call that writes is.
#[derive(Clone, Copy, Debug, PartialEq, Eq)]
pub enum Point {
    /// The lock is not taken yet.
    Before,
    /// The lock is held, and nothing is published yet.
    Locked,
}

/// What each call that writes passes on its way: a place to watch or to hold it in a test.
pub trait Gate {
    /// A call has come so far. It goes on once this returns, and at `Locked` all others that write wait for
    /// that.
    fn pass(&self, at: Point);
}

/// A gate that lets every call through.
#[derive(Clone, Copy, Drop)]
pub struct NoGate;

impl Gate for NoGate {
    fn pass(&self, _at: Point) {}
}
