// Readers beside the Writer, each in a thread of its own.
ghost use Rattle.std.specs.Prelude.{◌≡◌, ◌+◌, ◌<◌, ℕ, List, [], ◌∷◌, ◌++◌, sum};

use super::{look, only};
use root_cell::{Brand, Cell, Itself, Note, OpenedBook, View, Writer};
use std::alloc::Global;
use std::process::Abort;
use std::sync::atomic::AtomicU64;
use std::sync::atomic::Ordering::SeqCst;
use std::sync::{Mutex, Wait};
use std::thread::Threads;
use std::{marker, thread};

// How often a thread looks for what another one does.
const TURNS: u64 = 10_000_000;

// A Writer that ends where it is dropped, so that a thread can take it.
struct Ending<'a, J: Brand<u64, u64>, R: Wait> {
    writer: Writer<u64, u64, J>,
    rt: &'a R,
}

impl<'a, J: Brand<u64, u64>, R: Wait> Ending<'a, J, R> {
    fn apart(self) -> (Writer<u64, u64, J>, &'a R)
        ensures { result.0 ≡ self.entry.writer }
    {
        let Self { writer, rt } = self;
        (writer, rt)
    }
}

impl<'a, J: Brand<u64, u64>, R: Wait> Drop for Ending<'a, J, R> {
    fn drop(self) {
        let Self { writer, rt } = self;
        writer.end(rt);
    }
}

#[test]
fn a_held_view_keeps_its_root_and_the_publish_ends_once_it_left(rt: HostRuntime) {
    held::<marker::Brand, _>(&rt, rt.alloc(), OpenedBook::new());
}

fn held<J: Brand<u64, u64> + Send + Sync, R: Threads + Wait + Abort + Sync>(
    rt: &R,
    alloc: Global,
    opened: OpenedBook<u64>,
)
    requires book { opened.0 ≡ J.book }
    requires law { (root : ℕ) (events : List ℕ) → root ≡ sum events → J.stands root events }
{
    let (writer, views, _title) = Cell::<u64, u64, J>::new(rt, alloc, opened, 1, 0).expect(
        rt, "memory",
    );
    let view = only(rt, views);
    let writer = Ending { writer, rt };
    let (entered, published) = (AtomicU64::new(0), AtomicU64::new(0));
    let ((view, held_root, seen), _writer) = thread::join(
        rt,
        || hold(rt, view, &entered, &published),
        || -> Ending<'_, J, R>
            requires { (writer.writer ≡ []) × ((root : ℕ) (events : List ℕ) → root ≡ sum events → J.stands root events) }
        { publish_thrice(writer, &entered, &published) },
    );
    let (_view, root, events) = look(rt, view);
    // The first publish waits for nobody, the second for the View that is inside.
    assert!(rt; (held_root, seen, root, events) == (0, 1, 6, 3));
}

// Waits until the number is above 0, for a while.
fn wait_for(number: &AtomicU64) {
    for _ in 0..TURNS {
        if number.load(SeqCst) > 0 {
            return;
        }
        thread::yield_now();
    }
}

// Enters, waits until one publish has ended, stays a while, and leaves. Answers the root, and how many publishes had ended by then.
fn hold<J: Brand<u64, u64>>(
    rt: &impl Abort,
    view: View<u64, u64, J>,
    inside: &AtomicU64,
    published: &AtomicU64,
) -> (View<u64, u64, J>, u64, u64) {
    let Ok(entered) = view.enter() else {
        panic!(rt; "the Writer has not ended")
    };
    inside.store(1, SeqCst);
    wait_for(published);
    for _ in 0..1000 {
        thread::yield_now();
    }
    let (root, seen) = (*entered.root(), published.load(SeqCst));
    (entered.leave(), root, seen)
}

// Once the View is inside, publishes the sums of 1, of 1 and 2, and of 1, 2 and 3, and tells after each that it has ended.
fn publish_thrice<'a, J: Brand<u64, u64>, R: Wait + Abort>(
    writer: Ending<'a, J, R>,
    inside: &AtomicU64,
    published: &AtomicU64,
) -> Ending<'a, J, R>
    requires empty { writer.writer ≡ [] }
    requires law { (root : ℕ) (events : List ℕ) → root ≡ sum events → J.stands root events }
{
    let (writer, rt) = writer.apart();
    wait_for(inside);
    let (writer, answer) = writer.publish::<u64, Itself, R>(rt, 1, &1);
    assert!(rt; answer.is_ok());
    published.store(1, SeqCst);
    let (writer, answer) = writer.publish::<u64, Itself, R>(rt, 3, &2);
    assert!(rt; answer.is_ok());
    published.store(2, SeqCst);
    let (writer, answer) = writer.publish::<u64, Itself, R>(rt, 6, &3);
    assert!(rt; answer.is_ok());
    Ending { writer, rt }
}

#[test]
fn reads_beside_publishes_are_whole_and_have_all_that_was_learnt(rt: HostRuntime) {
    race::<marker::Brand, _>(&rt, rt.alloc(), OpenedBook::new());
}

fn race<J: Brand<u64, u64> + Send + Sync, R: Threads + Wait + Abort + Sync>(
    rt: &R,
    alloc: Global,
    opened: OpenedBook<u64>,
)
    requires book { opened.0 ≡ J.book }
    requires law { (root : ℕ) (events : List ℕ) → root ≡ sum events → J.stands root events }
{
    let (writer, views, _title) = Cell::<u64, u64, J>::new(rt, alloc, opened, 1, 0).expect(
        rt, "memory",
    );
    let view = only(rt, views);
    let writer = Ending { writer, rt };
    let told = Mutex::new(None);
    let ((view, wrong), _writer) = thread::join(
        rt,
        || read_often(rt, view, &told),
        || -> Ending<'_, J, R>
            requires { (writer.writer ≡ []) × ((root : ℕ) (events : List ℕ) → root ≡ sum events → J.stands root events) }
        { publish_often(writer, &told) },
    );
    assert_eq!(rt; wrong, 0);
    let (_view, root, events) = look(rt, view);
    assert_eq!(rt; (root, events), (3000, 1000));
}

// Learns each Note that comes, and counts the reads whose root is not three times its number of events, or that went back.
fn read_often<J: Brand<u64, u64>, R: Wait + Abort>(
    rt: &R,
    view: View<u64, u64, J>,
    told: &Mutex<Option<Note<u64, u64, J>>>,
) -> (View<u64, u64, J>, u64) {
    let (mut view, mut last, mut wrong) = (view, 0, 0u64);
    for _ in 0..10_000 {
        if let Some(note) = told.lock(rt).take() {
            view.learn(note);
        }
        let (next, root, events) = look(rt, view);
        if root != events.wrapping_mul(3) || events < last {
            wrong = wrong.wrapping_add(1);
        }
        (view, last) = (next, events);
    }
    (view, wrong)
}

// Leaves a Note for the other thread, in place of one that it has not taken.
fn hand_on<J: Brand<u64, u64>, R: Wait>(
    rt: &R,
    told: &Mutex<Option<Note<u64, u64, J>>>,
    note: Note<u64, u64, J>,
) {
    *told.lock(rt) = Some(note);
}

// A thousand events, each of which is a 3, and after each a Note of it.
fn publish_often<'a, J: Brand<u64, u64>, R: Wait + Abort>(
    writer: Ending<'a, J, R>,
    told: &Mutex<Option<Note<u64, u64, J>>>,
) -> Ending<'a, J, R>
    requires empty { writer.writer ≡ [] }
    requires law { (root : ℕ) (events : List ℕ) → root ≡ sum events → J.stands root events }
{
    let (mut writer, rt) = writer.apart();
    for turn in 0..1000u64 {
        let (next, answer) = writer.publish::<u64, Itself, R>(rt, 3 * turn + 3, &3);
        assert!(rt; answer.is_ok());
        hand_on(rt, told, next.tell());
        writer = next;
    }
    Ending { writer, rt }
}
