// The rule of a cell's book, and the one step that adds to its list of events.
use crate::about::About;
use logbook::{Gain, Plain, Play, Rule};
use std::marker::PhantomData;

/// The rule of a cell's book: its first word is the number of its events.
pub struct Counted;

impl<E> Rule<E, u64> for Counted {
    ghost use Rattle.std.specs.Prelude.{[]};
    ghost use base.Fml.{ftrue};
    ghost use Rattle.root_cell.specs.Book.{IsCounted};

    ghost holds = { λ cells log. IsCounted cells log };

    ghost first = { [] };

    ghost hinted = { λ n log. Unit {0} };

    ghost shows = { λ log. [] };

    ghost keeps = { λ names log. ftrue };

    ghost moves = { λ ask before after answer. Unit {0} };
}

/// A step on the book trades nothing.
pub struct Nothing;

impl<E> Gain<E, u64> for Nothing {
    ghost use base.Fml.{ftrue};

    ghost after = { λ names about answer. ftrue };
}

/// The step that adds the event that a value is about.
pub struct Adding<M> {
    of: PhantomData<M>,
}

impl<E, M> Play<E, u64> for Adding<M> {
    ghost use Rattle.root_cell.specs.Book.{AddsEvent};

    ghost then = { AddsEvent };
}

impl<X, E, M: About<X, E>> Plain<X, E, u64> for Adding<M> {
    ghost use Rattle.std.specs.Prelude.{None};

    ghost ask = { λ about. M.event about };

    ghost state = { λ about. None };
}
