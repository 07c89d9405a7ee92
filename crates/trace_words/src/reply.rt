use dots::Refusal;
use std::alloc::{Allocator, Global};

/// What a line of a trace is answered.
#[derive(Drop)]
pub enum Reply<A: Allocator = Global> {
    /// Nothing: the line is empty.
    Silent,
    /// A line of text, without its end.
    Told(Vec<u8, A>),
    /// A fault, which ends the trace.
    Faulted(Refusal),
}
