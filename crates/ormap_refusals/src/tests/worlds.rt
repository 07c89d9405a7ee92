// Events of a world, and what is read there.
use crate::made::name;
use crate::tests::reads::{What, read};
use crate::trial::{Trial, is_as_often, refusals, wanted};
use dots::{Field, Key, Refusal, Value};
use hash_path::Fnv1a;
use linked_list_allocator::LocalHeap;
use replica_core::Call;
use replica_world::{Event, World};
use std::alloc::{Allocator, Global};
use std::panic::Expect;
use std::process::Abort;

pub(crate) type Worlds<A> = World<Fnv1a, A>;

// What happens in a world.
#[derive(Clone, Copy)]
enum Act {
    Node(u64),
    Put(&'static [u8]),
    // The key is of the bytes of the number.
    PutNumber(u64),
    PutField,
    Remove,
    RemoveField,
    Clear,
    Flush,
    Ask,
    Retry,
    Abandon,
    Deliver(u64),
}

// What is tried.
#[derive(Clone, Copy)]
enum Task {
    Happen(Act),
    Read(What),
    Save,
    Crash,
}

// The event, of the replica 1, or 2 where a message comes.
fn event<A: Allocator + Copy>(rt: &impl Abort, heap: A, act: Act) -> Result<Event<A>, Refusal> {
    let one = name(rt, 1);
    match act {
        Act::Node(number) => Ok(Event::Node(name(rt, number))),
        Act::Put(key) => Ok(Event::Call(one, put(heap, key)?)),
        Act::PutNumber(number) => Ok(Event::Call(one, put(heap, &number.to_be_bytes())?)),
        Act::PutField => Ok(Event::Call(one, put_field(heap)?)),
        Act::Remove => Ok(Event::Call(one, Call::Remove(seventh(heap)?))),
        Act::RemoveField => Ok(Event::Call(one, remove_field(heap)?)),
        Act::Clear => Ok(Event::Call(one, Call::Clear)),
        Act::Flush => Ok(Event::Call(one, Call::Flush)),
        Act::Ask => Ok(Event::Call(one, Call::Ask(name(rt, 2)))),
        Act::Retry => Ok(Event::Call(one, Call::Retry(1))),
        Act::Abandon => Ok(Event::Call(one, Call::Abandon(1))),
        Act::Deliver(number) => Ok(Event::Deliver(number, name(rt, 2))),
    }
}

fn put<A: Allocator + Copy>(heap: A, key: &[u8]) -> Result<Call<A>, Refusal> {
    let key = Key::new(heap, key)?;
    let value = Value::new(heap, b"v")?;
    Ok(Call::Put(key, Field::empty(), value))
}

// One of the forty keys.
pub(crate) fn seventh<A: Allocator + Copy>(heap: A) -> Result<Key<A>, Refusal> {
    Key::new(heap, &7u64.to_be_bytes())
}

fn put_field<A: Allocator + Copy>(heap: A) -> Result<Call<A>, Refusal> {
    let (key, field) = (seventh(heap)?, Field::new(heap, b"f")?);
    Ok(Call::Put(key, field, Value::empty()))
}

fn remove_field<A: Allocator + Copy>(heap: A) -> Result<Call<A>, Refusal> {
    Ok(Call::RemoveField(seventh(heap)?, Field::empty()))
}

// How many events there were, and whether a fourth message is there.
fn count<A: Allocator + Copy>(world: &Worlds<A>) -> (usize, bool) {
    (world.past().len(), world.message(4).is_some())
}

// An event of a world in which so much had happened.
#[derive(Drop)]
struct Happening<'r, A: Allocator + Copy, P: Abort> {
    rt: &'r P,
    heap: A,
    world: &'r mut Worlds<A>,
    before: (usize, bool),
    task: Task,
}

impl<'r, A: Allocator + Copy, P: Abort> Trial for Happening<'r, A, P> {
    fn attempt(&mut self) -> Result<(), Refusal> {
        match self.task {
            Task::Happen(act) => happens(self.rt, self.heap, self.world, act),
            Task::Read(what) => read(self.heap, self.world, what),
            Task::Save => self.world.save(name(self.rt, 1)),
            Task::Crash => crash(self.rt, self.world),
        }
    }

    fn is_as_before(&mut self) -> bool {
        count(self.world) == self.before
    }
}

// Has the event happen. There is one more then.
fn happens<A: Allocator + Copy>(
    rt: &impl Abort,
    heap: A,
    world: &mut Worlds<A>,
    act: Act,
) -> Result<(), Refusal> {
    let before = count(world).0;
    let event = event(rt, heap, act)?;
    world.event(event)?;
    wanted(before.checked_add(1) == Some(count(world).0))
}

// Crashes the replica 1, whose last put is gone then: a restart stands for it.
fn crash<A: Allocator + Copy>(rt: &impl Abort, world: &mut Worlds<A>) -> Result<(), Refusal> {
    let before = count(world);
    world.crash(name(rt, 1))?;
    wanted(count(world) == before)?;
    wanted(world.size_at(name(rt, 1)) == Ok(41))
}

// Has the event happen, with memory enough.
fn happen<A: Allocator + Copy>(rt: &impl Abort, heap: A, world: &mut Worlds<A>, act: Act) {
    let event = event(rt, heap, act).expect(rt, "memory");
    let _ = world.event(event).expect(rt, "an event");
}

// What happens first: 1 and 2 become replicas, and 1 asks 2 by message 1, puts forty keys and sends them in message 2, puts one more and sends it
// in message 3, and then puts another.
fn begun_by(number: u64) -> Act {
    match number {
        0 => Act::Node(1),
        1 => Act::Node(2),
        2 => Act::Ask,
        43 | 45 => Act::Flush,
        44 => Act::Put(b"one"),
        46 => Act::Put(b"two"),
        _ => Act::PutNumber(number),
    }
}

// Has all of it happen.
fn begin<A: Allocator + Copy>(rt: &impl Abort, heap: A, world: &mut Worlds<A>) {
    for number in 0..47u64 {
        happen(rt, heap, world, begun_by(number));
    }
}

// How often the event or the read is refused in this small heap, of which the world has its memory.
fn tried<A: Allocator + Copy>(
    rt: &impl Abort,
    alloc: Global,
    small: &LocalHeap,
    heap: A,
    world: &mut Worlds<A>,
    task: Task,
) -> usize {
    let before = count(world);
    let mut happening = Happening {
        rt,
        heap,
        world,
        before,
        task,
    };
    refusals(rt, alloc, small, 64, &mut happening)
}

// The same in a new world, after all that.
fn tried_anew<A: Allocator + Copy>(
    rt: &impl Abort,
    alloc: Global,
    small: &LocalHeap,
    heap: A,
    task: Task,
) -> usize {
    let mut world = World::new(heap, Fnv1a);
    begin(rt, heap, &mut world);
    tried(rt, alloc, small, heap, &mut world, task)
}

// The same in a heap of its own, which is empty in the end.
fn tried_in_a_heap(rt: &impl Abort, alloc: Global, task: Task) -> usize {
    let heap = LocalHeap::new(alloc, 400_000).expect(rt, "memory");
    let count = tried_anew(rt, alloc, &heap, &heap, task);
    assert!(rt; heap.used() == 0);
    count
}

// What is tried, in words and as a task, and how often it is refused at least. None is what takes no memory.
type Row = (&'static str, Task, Option<usize>);

const EVENTS: &[Row] = &[
    ("a new replica", Task::Happen(Act::Node(3)), Some(0)),
    ("a put", Task::Happen(Act::Put(b"one")), Some(4)),
    ("a flush", Task::Happen(Act::Flush), Some(4)),
    ("an ask", Task::Happen(Act::Ask), Some(4)),
    (
        "a delivery of forty keys",
        Task::Happen(Act::Deliver(2)),
        Some(40),
    ),
];

// As each test has a minute, the other events have one of their own.
const OTHERS: &[Row] = &[
    ("a put of a field", Task::Happen(Act::PutField), Some(4)),
    ("a remove", Task::Happen(Act::Remove), Some(4)),
    (
        "a remove of a field",
        Task::Happen(Act::RemoveField),
        Some(4),
    ),
    ("a retry", Task::Happen(Act::Retry), Some(1)),
    ("an abandon", Task::Happen(Act::Abandon), Some(0)),
    (
        "a hello that is answered",
        Task::Happen(Act::Deliver(1)),
        Some(4),
    ),
    ("a clear", Task::Happen(Act::Clear), Some(40)),
    ("a save", Task::Save, Some(0)),
    ("a crash", Task::Crash, Some(40)),
];

const READS: &[Row] = &[
    ("a get", Task::Read(What::Get), Some(1)),
    ("a get of a field", Task::Read(What::GetField), Some(1)),
    ("the values of a key", Task::Read(What::Values), Some(1)),
    ("a list of fields", Task::Read(What::Fields), Some(1)),
    ("a list of keys", Task::Read(What::Keys), Some(4)),
    ("a message", Task::Read(What::Message), Some(40)),
    ("what takes no memory", Task::Read(What::Others), None),
];

// Each of these is refused, changes nothing then, and is made later.
fn are_tried(rt: &impl Abort, alloc: Global, rows: &[Row]) {
    for (what, task, least) in rows {
        let count = tried_in_a_heap(rt, alloc, *task);
        assert!(rt; is_as_often(count, *least), "{what}");
    }
}

#[test]
fn a_refused_event_changes_nothing_and_happens_later(rt: HostRuntime) {
    are_tried(&rt, rt.alloc(), EVENTS);
}

#[test]
fn other_refused_events_change_nothing_and_happen_later(rt: HostRuntime) {
    are_tried(&rt, rt.alloc(), OTHERS);
}

#[test]
fn a_refused_read_of_a_world_is_made_later(rt: HostRuntime) {
    are_tried(&rt, rt.alloc(), READS);
}
