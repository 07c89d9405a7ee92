// Roots of 64 bits, each the sum of the events that it stands for.
ghost use Rattle.std.specs.Prelude.{◌≡◌, ℕ, List, sum};

mod beside;
mod refused;

use root_cell::{About, Brand, Cell, Itself, Note, OpenedBook, View, Writer};
use std::alloc::{Allocator, Global};
use std::marker;
use std::process::Abort;
use std::sync::Wait;

type Seen<J, A = Global> = View<u64, u64, J, A>;

// A sale is about its amount, the second of its numbers.
struct Amount;

impl About<(u64, u64), u64> for Amount {
    ghost event = { λ sale. sale.1 };
}

// Enters, and answers the View with the root and its number of events.
fn look<J: Brand<u64, u64>, A: Allocator>(
    rt: &impl Abort,
    view: Seen<J, A>,
) -> (Seen<J, A>, u64, u64) {
    let Ok(entered) = view.enter() else {
        panic!(rt; "the Writer has not ended")
    };
    let (root, events) = (*entered.root(), entered.events());
    (entered.leave(), root, events)
}

// The same, and whether these are the root and the number of events.
fn sees<J: Brand<u64, u64>, A: Allocator>(
    rt: &impl Abort,
    view: Seen<J, A>,
    root: u64,
    events: u64,
) -> (Seen<J, A>, bool) {
    let (view, found, count) = look(rt, view);
    (view, found == root && count == events)
}

// The View of a cell of one.
fn only<J: Brand<u64, u64>, A: Allocator>(
    rt: &impl Abort,
    mut views: Vec<Seen<J, A>, A>,
) -> Seen<J, A> {
    views.pop().expect(rt, "one")
}

// The Views of a cell of two.
fn both<J: Brand<u64, u64>>(rt: &impl Abort, mut views: Vec<Seen<J>>) -> (Seen<J>, Seen<J>) {
    let second = views.pop().expect(rt, "two");
    (views.pop().expect(rt, "two"), second)
}

#[test]
fn each_view_enters_the_root_that_was_published_last(rt: HostRuntime) {
    assert!(rt; publish_twice::<marker::Brand, _>(&rt, rt.alloc(), OpenedBook::new()));
}

// Whether the second view, which did not enter, is behind the first one and the Writer, and the early note tells it nothing.
fn are_compared<J: Brand<u64, u64>>(
    writer: &Writer<u64, u64, J>,
    early: &Note<u64, u64, J>,
    first: &Seen<J>,
    second: &Seen<J>,
) -> bool {
    let is_behind = second.is_behind(first);
    let is_not = first.is_behind(second);
    let is_ahead = writer.is_ahead_of(second);
    let is_late = early.is_ahead_of(second);
    is_behind && !is_not && is_ahead && !is_late
}

// Whether the view, which is not entered any more, stays outside.
fn has_ended<J: Brand<u64, u64>>(view: Seen<J>) -> bool {
    match view.enter() {
        Ok(entered) => {
            entered.leave();
            false
        }
        Err(_view) => true,
    }
}

// Whether each view sees what was published last, the one that learnt of the first root and did not enter it too, and none enters after
// the end.
fn publish_twice<J: Brand<u64, u64>, R: Wait + Abort>(
    rt: &R,
    alloc: Global,
    opened: OpenedBook<u64>,
) -> bool
    requires book { opened.0 ≡ J.book }
    requires law { (root : ℕ) (events : List ℕ) → root ≡ sum events → J.stands root events }
{
    let (writer, views, _title) = Cell::<u64, u64, J>::new(rt, alloc, opened, 2, 0).expect(
        rt, "memory",
    );
    let (first, mut second) = both(rt, views);
    let early = writer.tell();
    let (writer, one) = writer.publish::<(u64, u64), Amount, R>(rt, 5, &(9, 5));
    assert!(rt; one.is_ok());
    let (first, is_five) = sees(rt, first, 5, 1);
    let is_compared = are_compared(&writer, &early, &first, &second);
    second.learn(writer.tell());
    let (writer, two) = writer.publish::<u64, Itself, R>(rt, 12, &7);
    let (first, is_twelve) = sees(rt, first, 12, 2);
    let (_second, is_again) = sees(rt, second, 12, 2);
    let is_last = *writer.end(rt) == 12;
    is_five & is_compared & two.is_ok() & is_twelve & is_again & is_last & has_ended(first)
}
