ghost use Rattle.std.specs.Prelude.{◌≡◌, [], None};

use crate::letter::Letter;
use crate::outcome::Outcome;
use std::alloc::{Allocator, Global};
use wire_form::Session;

/// What came of the bytes of a message, and the letters that are to be sent for it.
#[derive(Drop)]
pub struct Taken<A: Allocator + Copy = Global> {
    /// What came of it.
    pub outcome: Outcome,
    /// The synchronisation that the message named, or None for a delta, which names none.
    pub session: Option<Session>,
    /// The letters that are to be sent, in this order.
    pub letters: Vec<Letter<A>, A>,
}

impl<A: Allocator + Copy> Taken<A> {
    // What came of a delta. Takes no memory.
    pub(crate) fn joined(alloc: A) -> Taken<A>
        ensures outcome { result.outcome ≡ Outcome.Joined }
        ensures session { result.session ≡ None }
        ensures letters { result.letters.items ≡ [] }
    {
        Taken {
            outcome: Outcome::Joined,
            session: None,
            letters: Vec::new(alloc),
        }
    }
}
