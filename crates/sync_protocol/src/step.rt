use std::alloc::{Allocator, Global};
use wire_form::Message;

/// What a message comes to at an asker.
#[derive(Drop)]
pub enum Step<A: Allocator + Copy = Global> {
    /// These messages are to be sent.
    Sent(Vec<Message<A>, A>),
    /// All is there: `result` gives it.
    Done,
    /// The message was not waited for.
    Ignored,
    /// It is not what was promised, or it does not fit.
    Mismatch,
    /// The answerer does not keep the session, which ended with nothing.
    Gone,
}
