// The two copies of a cell, of which readers read one, and what a publish does to them and to the cell's list of events.
ghost use Rattle.std.specs.Prelude.{◌≡◌, ◌-◌, ◌<◌, ◌^◌, ◌++◌, ◌∷◌, [], length, drop, IfOk, IfErr, OnOk, OnErr};
ghost use mathlib.Core.List.{IsPrefix};
ghost use Rattle.root_cell.specs.Book.{head_of};
ghost use Rattle.root_cell.specs.Rule.{StandsIn, due};

use crate::about::About;
use crate::book::Counted;
use crate::brand::Brand;
use crate::front::Front;
use crate::published::Published;
use crate::rule::{Ruled, Showing};
use left_right::writer::Writer;
use logbook::Word;
use std::alloc::{AllocError, Allocator};
use std::collections::LinkedList;
use std::sync::Wait;
use std::thread;

/// The two copies, with the log of what one of them lacks.
pub type Desk<R, E, J, A> = Writer<
    Published<R, E, A>,
    Published<R, E, A>,
    LinkedList<E>,
    Ruled<J>,
    A,
>;

/// Adds the event that a value is about to the list, and answers the front that it ends. It tries until it is done: the front that is
/// passed is the whole list, as only the one Writer adds to it, so the first try does it.
pub fn add<R, E, J: Brand<R, E>, X, M: About<X, E>, W: Wait>(
    rt: &W,
    front: &Front<R, E, J>,
    head: &Word<E, u64, Counted>,
    about: &X,
) -> Front<R, E, J>
    requires head { head.now ≡ head_of J.book }
    requires room { length front.now < 2 ^ 64 - 1 }
    ensures { result ≡ front.now ++ (M.event about.now) ∷ [] }
{
    for _ in rt.forever() {
        let mut longer = front.again();
        if longer.add::<X, M>(head, about) {
            return longer;
        }
    }
    unreachable!()
}

/// Publishes a root with its front. It tries until it is done: its event stands in the list. A cell is made with room for it.
pub fn put_out<R: Drop, E, J: Brand<R, E>, A: Allocator, W: Wait>(
    rt: &W,
    desk: Desk<R, E, J, A>,
    published: Published<R, E, A>,
) -> Desk<R, E, J, A>
    requires stands { StandsIn J.book J.stands published }
    requires longer { IsPrefix desk.desk.shown.value.1 published.1 }
    ensures shown { result.desk.shown.value ≡ published }
    ensures settled { drop result.behind result.log.items ≡ [] }
{
    show(rt, lay(rt, desk, published))
}

// Puts it behind all that pends.
fn lay<R: Drop, E, J: Brand<R, E>, A: Allocator, W: Wait>(
    rt: &W,
    desk: Desk<R, E, J, A>,
    published: Published<R, E, A>,
) -> Desk<R, E, J, A>
    ensures due { due result.desk.shown.value (drop result.behind result.log.items) ≡ published }
    ensures shown { result.desk.shown.value ≡ desk.desk.shown.value }
{
    let (mut desk, mut waiting) = (desk, published);
    for _ in rt.forever() {
        match lay_once(desk, waiting) {
            Ok(laid) => return laid,
            Err(back) => (desk, waiting) = back,
        }
        thread::yield_now();
    }
    unreachable!()
}

// Puts it behind all that pends, where there is room.
fn lay_once<R: Drop, E, J: Brand<R, E>, A: Allocator>(
    desk: Desk<R, E, J, A>,
    published: Published<R, E, A>,
) -> Result<Desk<R, E, J, A>, (Desk<R, E, J, A>, Published<R, E, A>)>
    ensures due { IfOk result (λ d. due d.desk.shown.value (drop d.behind d.log.items) ≡ published) }
    ensures shown { IfOk result (λ d. d.desk.shown.value ≡ desk.desk.shown.value) }
    ensures back { IfErr result (λ b. (b.0.desk.shown.value ≡ desk.desk.shown.value) × (b.1 ≡ published)) }
{
    let mut desk = desk;
    match desk.append(published) {
        Ok(()) => Ok(desk),
        Err(back) => Err((desk, back)),
    }
}

// Publishes all that pends.
fn show<R: Drop, E, J: Brand<R, E>, A: Allocator, W: Wait>(
    rt: &W,
    desk: Desk<R, E, J, A>,
) -> Desk<R, E, J, A>
    requires stands { StandsIn J.book J.stands (due desk.desk.shown.value (drop desk.behind desk.log.items)) }
    requires longer { IsPrefix desk.desk.shown.value.1 (due desk.desk.shown.value (drop desk.behind desk.log.items)).1 }
    ensures shown { result.desk.shown.value ≡ due desk.desk.shown.value (drop desk.behind desk.log.items) }
    ensures settled { drop result.behind result.log.items ≡ [] }
{
    let mut desk = desk;
    for _ in rt.forever() {
        let (next, answer) = show_once(rt, desk);
        if answer.is_ok() {
            return next;
        }
        desk = next;
        thread::yield_now();
    }
    unreachable!()
}

// Publishes all that pends, or leaves it pending.
fn show_once<R: Drop, E, J: Brand<R, E>, A: Allocator, W: Wait>(
    rt: &W,
    desk: Desk<R, E, J, A>,
) -> (Desk<R, E, J, A>, Result<(), AllocError>)
    requires stands { StandsIn J.book J.stands (due desk.desk.shown.value (drop desk.behind desk.log.items)) }
    requires longer { IsPrefix desk.desk.shown.value.1 (due desk.desk.shown.value (drop desk.behind desk.log.items)).1 }
    ensures ok { OnOk result.1 (result.0.desk.shown.value ≡ due desk.desk.shown.value (drop desk.behind desk.log.items)) }
    ensures settled { OnOk result.1 (drop result.0.behind result.0.log.items ≡ []) }
    ensures shown { OnErr result.1 (result.0.desk.shown.value ≡ desk.desk.shown.value) }
    ensures due { OnErr result.1 (due result.0.desk.shown.value (drop result.0.behind result.0.log.items) ≡ due desk.desk.shown.value (drop desk.behind desk.log.items)) }
{
    desk.publish_as::<Showing<J>, W>(rt)
}

/// Publishes once more what is published, which makes room in the log for what comes later.
pub fn make_room<R: Drop, E, J: Brand<R, E>, A: Allocator, W: Wait>(
    rt: &W,
    desk: Desk<R, E, J, A>,
    first: &Published<R, E, A>,
) -> (Desk<R, E, J, A>, Result<(), AllocError>)
    requires stands { StandsIn J.book J.stands first.now }
    requires shown { desk.desk.shown.value ≡ first.now }
    ensures shown { OnOk result.1 (result.0.desk.shown.value ≡ first.now) }
    ensures settled { OnOk result.1 (drop result.0.behind result.0.log.items ≡ []) }
{
    let Ok(again) = first.again() else {
        return (desk, Err(AllocError));
    };
    match lay_once(desk, again) {
        Ok(desk) => show_once(rt, desk),
        Err((desk, again)) => {
            drop(again);
            (desk, Err(AllocError))
        }
    }
}
