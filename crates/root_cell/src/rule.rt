use crate::brand::Brand;
use crate::published::Published;
use crossbeam_utils::rule::{Outcome, Protocol};
use std::alloc::Allocator;
use std::collections::LinkedList;
use std::marker::PhantomData;

/// The rule of a cell with this Brand: the root that is published stands for the front that it goes out for, and no seat has seen more of
/// the copies than this front. A seat's view is the front that it entered last, or published; no value of it is made.
pub struct Ruled<J> {
    of: PhantomData<J>,
}

impl<R: Drop, E, J: Brand<R, E>, A: Allocator> Protocol<Published<R, E, A>, LinkedList<E>>
    for Ruled<J> {
    ghost use Rattle.std.specs.Prelude.{[]};
    ghost use Rattle.root_cell.specs.Rule.{Holds};

    ghost holds = { Holds J.book J.stands };

    ghost first = { [] };
}

/// An enter or a publish, by what it shows.
pub struct Showing<J> {
    of: PhantomData<J>,
}

impl<R: Drop, E, J: Brand<R, E>, A: Allocator> Outcome<Published<R, E, A>, LinkedList<E>>
    for Showing<J> {
    ghost use Rattle.root_cell.specs.Rule.{Shows};

    ghost then = { Shows J.book J.stands };
}
