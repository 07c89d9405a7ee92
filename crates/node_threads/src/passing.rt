// Why what came in is passed over.
#[derive(Clone, Copy, Drop)]
pub(crate) enum Passing {
    // No message spells it.
    NoMessage,
    // There is no memory to read it or to take it in, or no number for one more event.
    Refused,
}
