ghost use Rattle.std.specs.Prelude.{◌≡◌, ◌≤◌, [], replicate, drop, IfOk, IfErr, OnOk};
ghost use Rattle.dots.specs.declared.refusal.Refusal.TheVariants.{OutOfMemory};
ghost use Rattle.root_cell.specs.Rule.{StandsIn};

use crate::brand::Brand;
use crate::desk::{Desk, make_room};
use crate::front::Front;
use crate::opened_book::OpenedBook;
use crate::published::Published;
use crate::rule::Ruled;
use crate::title::Title;
use crate::view::View;
use crate::writer::Writer;
use dots::Refusal;
use left_right::reader::Factory;
use left_right::writer;
use std::alloc::{Allocator, Global};
use std::collections::LinkedList;
use std::marker::PhantomData;
use std::sync::{Arc, Wait};

/// What a cell is made of: its Writer, its Views and its Title.
pub type Parts<R, E, J, A = Global> = (
    Writer<R, E, J, A>,
    Vec<View<R, E, J, A>, A>,
    Title<R, E, J>,
);

/// A cell, under its Brand. No value of it is made: what stands for a cell are its one Writer, its Views and its one Title.
pub struct Cell<R, E, J: Brand<R, E>, A: Allocator = Global> {
    of: PhantomData<(R, E, J, A)>,
}

impl<R: Drop, E, J: Brand<R, E>, A: Allocator + Copy> Cell<R, E, J, A> {
    /// Makes a cell of an opened book: its Writer, one View for each place, and its Title. Writer and Views have the empty front, for which the
    /// root has to stand. It may wait, for a Writer that it has to end where it is refused. Takes memory for the root, for each place,
    /// and for a log of a few entries, which stays; and time in the places.
    /// Its only refusal is OutOfMemory.
    pub fn new<W: Wait>(
        rt: &W,
        alloc: A,
        opened: OpenedBook<E>,
        places: usize,
        root: R,
    ) -> Result<Parts<R, E, J, A>, Refusal>
        requires places { (1 ≤ places) × (places ≤ 64) }
        requires book { opened.0 ≡ J.book }
        requires stands { J.stands root [] }
        ensures writer { IfOk result (λ r. r.0 ≡ []) }
        ensures views { IfOk result (λ r. r.1.items ≡ replicate places []) }
        ensures err { IfErr result (λ e. e ≡ OutOfMemory) }
    {
        let OpenedBook { head, spare, seen } = opened;
        let front: Front<R, E, J> = Front::new(0, &seen);
        let first = Published::new(Arc::new(alloc, root)?, 0, seen);
        let laid = lay_out(rt, alloc, &first, &front, places);
        drop(first);
        match laid {
            Ok((desk, views)) => {
                let writer = Writer::new(alloc, desk, head, front);
                Ok((writer, views, Title::new(spare)))
            }
            Err(refusal) => {
                drop(spare);
                drop(head);
                drop(front);
                Err(refusal)
            }
        }
    }
}

// The two copies of what is published first, and the Views.
fn lay_out<R: Drop, E, J: Brand<R, E>, A: Allocator + Copy, W: Wait>(
    rt: &W,
    alloc: A,
    first: &Published<R, E, A>,
    front: &Front<R, E, J>,
    places: usize,
) -> Result<(Desk<R, E, J, A>, Vec<View<R, E, J, A>, A>), Refusal>
    requires places { (1 ≤ places) × (places ≤ 64) }
    requires first { StandsIn J.book J.stands first.now }
    requires front { front.now ≡ [] }
    ensures desk { IfOk result (λ r. r.0.desk.shown.value ≡ first.now) }
    ensures settled { IfOk result (λ r. drop r.0.behind r.0.log.items ≡ []) }
    ensures views { IfOk result (λ r. r.1.items ≡ replicate places []) }
    ensures err { IfErr result (λ e. e ≡ OutOfMemory) }
{
    let desk: Desk<R, E, J, A> = writer::Writer::new(
        alloc,
        first.again()?,
        first.again()?,
        places,
    )?;
    match furnish(rt, alloc, desk, first, front, places) {
        (desk, Ok(views)) => Ok((desk, views)),
        (desk, Err(refusal)) => {
            drop(desk.take(rt));
            Err(refusal)
        }
    }
}

// Room for what is published later, and the Views.
fn furnish<R: Drop, E, J: Brand<R, E>, A: Allocator + Copy, W: Wait>(
    rt: &W,
    alloc: A,
    desk: Desk<R, E, J, A>,
    first: &Published<R, E, A>,
    front: &Front<R, E, J>,
    places: usize,
) -> (Desk<R, E, J, A>, Result<Vec<View<R, E, J, A>, A>, Refusal>)
    requires first { StandsIn J.book J.stands first.now }
    requires shown { desk.desk.shown.value ≡ first.now }
    requires front { front.now ≡ [] }
    ensures desk { OnOk result.1 (result.0.desk.shown.value ≡ first.now) }
    ensures settled { OnOk result.1 (drop result.0.behind result.0.log.items ≡ []) }
    ensures views { IfOk result.1 (λ v. v.items ≡ replicate places []) }
    ensures err { IfErr result.1 (λ e. e ≡ OutOfMemory) }
{
    let (desk, once) = make_room(rt, desk, first);
    if once.is_err() {
        return (desk, Err(Refusal::OutOfMemory));
    }
    // The log of the second has two entries at once, as that of each later publish.
    let (desk, twice) = make_room(rt, desk, first);
    if twice.is_err() {
        return (desk, Err(Refusal::OutOfMemory));
    }
    let views = seats(alloc, desk.factory(), front, places);
    (desk, views)
}

// One View for each place.
fn seats<R: Drop, E, J: Brand<R, E>, A: Allocator + Copy>(
    alloc: A,
    factory: &Factory<Published<R, E, A>, LinkedList<E>, Ruled<J>, A>,
    front: &Front<R, E, J>,
    places: usize,
) -> Result<Vec<View<R, E, J, A>, A>, Refusal>
    requires { front.now ≡ [] }
    ensures views { IfOk result (λ v. v.items ≡ replicate places []) }
    ensures err { IfErr result (λ e. e ≡ OutOfMemory) }
{
    let mut views = Vec::new(alloc);
    for _ in 0..places {
        views.push(View::new(factory.reader()?, front.again()))?;
    }
    Ok(views)
}
