/// Says which event a value is about, for the value that a publish is passed.
pub trait About<X, E> {
    // The event.
    ghost event: { X → E };
}

/// A value that is the event.
pub struct Itself;

impl<E> About<E, E> for Itself {
    ghost event = { λ x. x };
}
