ghost use Rattle.std.specs.Prelude.{◌≡◌};
ghost use Rattle.root_cell.specs.Book.{spare_nib};

use crate::brand::Brand;
use logbook::Pen;
use std::marker::{Model, PhantomData};

/// The title to a cell, of which there is one. `Cell::new` gives it out, and nothing else makes one: so what is done against a title alone
/// is done by whoever was given it. It takes no memory.
#[derive(Drop)]
pub struct Title<R, E, J: Brand<R, E>> {
    pen: Pen,
    of: PhantomData<(R, E, J)>,
}

impl<R, E, J: Brand<R, E>> Model for Title<R, E, J> {
    ghost use Rattle.std.specs.Prelude.{◌≡◌};
    ghost use Rattle.logbook.specs.Pages.{Book};
    ghost use Rattle.root_cell.specs.Book.{spare_nib};

    ghost Value = { Book };

    ghost view = { λ t. t.pen.book };

    // The one right to the second word of the cell's book.
    ghost invariant = { λ t. (t.pen.book ≡ J.book) × (t.pen.nib ≡ spare_nib) };
}

impl<R, E, J: Brand<R, E>> Title<R, E, J> {
    /// The title that stands for this right.
    pub(crate) fn new(pen: Pen) -> Title<R, E, J>
        requires book { pen.book ≡ J.book }
        requires right { pen.nib ≡ spare_nib }
        ensures { result ≡ J.book }
    {
        Title {
            pen,
            of: PhantomData,
        }
    }
}
