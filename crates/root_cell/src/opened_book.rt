ghost use Rattle.std.specs.Prelude.{◌≡◌, []};

use crate::book::Counted;
use logbook::{Pen, Seen, Start, Word};
use std::marker::Model;

/// The book of a cell that is still to be made, which has no Brand yet. Contracts see which book it is, and its list of events.
#[derive(Drop)]
pub struct OpenedBook<E> {
    pub(crate) head: Word<E, u64, Counted>,
    pub(crate) spare: Pen,
    pub(crate) seen: Seen<E, u64, Counted>,
}

impl<E> Model for OpenedBook<E> {
    ghost use Rattle.std.specs.Prelude.{◌≡◌, [], List};
    ghost use Rattle.logbook.specs.Pages.{Book};
    ghost use Rattle.root_cell.specs.Book.{head_of, spare_nib};

    ghost Value = { Book × List E };

    ghost view = { λ o. (o.seen.book, o.seen.log) };

    ghost invariant = { λ o. (o.seen.log ≡ []) × (o.head ≡ head_of o.seen.book) × (o.spare.book ≡ o.seen.book) × (o.spare.nib ≡ spare_nib) };
}

impl<E> OpenedBook<E> {
    /// A new book. It takes no memory, and whoever makes a cell of it picks the Brand by it.
    pub fn new() -> OpenedBook<E>
        ensures { result.1 ≡ [] }
    {
        let (seen, mut first, spare) = Seen::open(Start::alone(), 0, 0);
        OpenedBook {
            head: Word::tracked(0, &mut first),
            spare,
            seen,
        }
    }
}
