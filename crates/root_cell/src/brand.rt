use std::marker;

/// Names a cell, and says which roots stand for which events. The caller picks it, once its cell is `OpenedBook`, and it is a
/// parameter of all that belongs to the cell: so a Note of one cell is not learnt at another.
pub trait Brand<R, E> {
    ghost use Rattle.std.specs.Prelude.{List};
    ghost use Rattle.logbook.specs.Pages.{Book};

    // The book of the cell's events.
    ghost book: { Book };

    // The root stands for the list of events.
    ghost stands: { R → List E → Type 0 };
}

/// What a call passes that picks the two itself.
impl<R, E> Brand<R, E> for marker::Brand {
    ghost book = { record { number = 0; log_name = 0; cells_name = 0 } };

    ghost stands = { λ root events. Unit {0} };
}
