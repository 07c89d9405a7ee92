// The calls and looks of a client of a node.
ghost use Rattle.std.specs.Prelude.{◌≡◌};
ghost use Rattle.replica_core.specs.Meaning.{meaning};

use crate::made::{Here, flushed, opened, paged, put, replica, what_shows};
use crate::nodes::{Caller, One, Seen, Shared, ended, next, node};
use crate::trial::{Trial, is_as_often, is_there, refusals, wanted};
use dots::{Field, Key, Name, Refusal, Value};
use hash_path::Fnv1a;
use linked_list_allocator::LocalHeap;
use node_threads::{
    Abandoning, Asking, Batching, Checkpointing, Delivering, FieldListing, Flushing, Getting,
    KeyListing, Knowing, Naming, NodeEvent, Retrying, Root, SessionListing, Sharing, Sizing,
    Writing, Written,
};
use replica_core::{Delivered, Outcome, Replica, Write, Wrote};
use root_cell::OpenedBook;
use shared_object::Look;
use std::alloc::{Allocator, Global};
use std::panic::Expect;
use std::process::Abort;
use std::sync::Wait;
use std::{marker, mem};
use wire_form::Message;

// What is called or looked at, at a node of the replica 1, which has put v on a and on b, and has opened the synchronisation 1 with 2.
#[derive(Clone, Copy)]
enum Act {
    Put,
    Remove,
    RemoveField,
    Clear,
    Flush,
    Ask,
    Retry,
    Abandon,
    // The message comes to this.
    Deliver(Kind, Outcome),
    Batch,
    Get,
    Fields,
    Keys,
    Sessions,
    Know,
    Save,
    // What takes no memory.
    See,
}

// A message of the replica 2, which has put w on c.
#[derive(Clone, Copy)]
enum Kind {
    Delta,
    // What it opens with for the synchronisation.
    Opening,
    // What it answers who asks then.
    Page,
}

// Such a call of the client, who saw this before.
#[derive(Drop)]
struct Calling<'r, C: Caller, R: Wait> {
    rt: &'r R,
    heap: C::Heap,
    client: &'r mut C,
    message: &'r Message<C::Heap>,
    before: Seen,
    act: Act,
}

impl<'r, C: Caller, R: Wait> Trial for Calling<'r, C, R> {
    fn attempt(&mut self) -> Result<(), Refusal> {
        let (rt, heap) = (self.rt, self.heap);
        match self.act {
            Act::Put => put_more(rt, heap, self.client),
            Act::Remove => remove(rt, heap, self.client),
            Act::RemoveField => remove_field(rt, heap, self.client),
            Act::Clear => clear(rt, heap, self.client),
            Act::Flush => flush(rt, heap, self.client),
            Act::Ask => ask(rt, heap, self.client),
            Act::Retry => retry(rt, heap, self.client),
            Act::Abandon => abandon(rt, heap, self.client),
            Act::Deliver(_, outcome) => deliver(rt, heap, self.client, self.message, outcome),
            Act::Batch => batch(rt, heap, self.client, &mut self.before),
            Act::Get | Act::Fields => read(heap, self.client, self.act, 1),
            Act::Keys => read(heap, self.client, self.act, 2),
            Act::Sessions | Act::Know | Act::Save => inspect(rt, heap, self.client, self.act),
            Act::See => see(rt, self.client, self.before),
        }
    }

    fn is_as_before(&mut self) -> bool {
        self.client.see(self.rt) == Ok(self.before)
    }
}

// One of the two keys.
fn key_a<A: Allocator + Copy>(heap: A) -> Result<Key<A>, Refusal> {
    Key::new(heap, b"a")
}

// Puts a value on a field of it.
fn put_more<C: Caller, R: Wait>(rt: &R, heap: C::Heap, client: &mut C) -> Result<(), Refusal> {
    let (key, field) = (key_a(heap)?, Field::new(heap, b"f")?);
    let value = Value::empty();
    write(rt, heap, client, Write::Put(&key, &field, &value), 3)
}

// Makes a write, which is answered this number.
fn write<C: Caller, R: Wait>(
    rt: &R,
    heap: C::Heap,
    client: &mut C,
    write: Write<C::Heap>,
    number: u64,
) -> Result<(), Refusal> {
    let wrote = client.call(rt, &Writing { alloc: heap, write })?;
    wanted(number_of(wrote) == number)
}

// The number that a write is answered: that of its dot, or of those that it observed.
fn number_of(wrote: Wrote) -> u64 {
    match wrote {
        Wrote::Made(dot) => dot.number(),
        Wrote::Counted(number) => number,
    }
}

// Removes it.
fn remove<C: Caller, R: Wait>(rt: &R, heap: C::Heap, client: &mut C) -> Result<(), Refusal> {
    let key = key_a(heap)?;
    write(rt, heap, client, Write::Remove(&key), 1)
}

// Removes its one field.
fn remove_field<C: Caller, R: Wait>(rt: &R, heap: C::Heap, client: &mut C) -> Result<(), Refusal> {
    let key = key_a(heap)?;
    write(
        rt,
        heap,
        client,
        Write::RemoveField(&key, &Field::empty()),
        1,
    )
}

// Removes all that stands there.
fn clear<C: Caller, R: Wait>(rt: &R, heap: C::Heap, client: &mut C) -> Result<(), Refusal> {
    let clearing = Writing {
        alloc: heap,
        write: Write::Clear,
    };
    let wrote = client.call(rt, &clearing)?;
    wanted(number_of(wrote) == 2)
}

fn flush<C: Caller, R: Wait>(rt: &R, heap: C::Heap, client: &mut C) -> Result<(), Refusal> {
    let sent = client.call(rt, &Flushing { alloc: heap });
    is_there(sent)
}

// The next one has the number 2, however often one was refused before.
fn ask<C: Caller, R: Wait>(rt: &R, heap: C::Heap, client: &mut C) -> Result<(), Refusal> {
    let asking = Asking {
        alloc: heap,
        peer: Name::new(2).ok_or(Refusal::BadLine)?,
    };
    let asked = client.call(rt, &asking);
    has_number(asked, 2)
}

// Whether what was opened has this number.
fn has_number<X: Drop>(asked: Result<(u64, X), Refusal>, number: u64) -> Result<(), Refusal> {
    let (found, hello) = asked?;
    drop(hello);
    wanted(found == number)
}

fn retry<C: Caller, R: Wait>(rt: &R, heap: C::Heap, client: &mut C) -> Result<(), Refusal> {
    let retrying = Retrying {
        alloc: heap,
        number: 1,
    };
    let told = client.call(rt, &retrying)?;
    comes_to(told, Outcome::Sent)
}

fn abandon<C: Caller, R: Wait>(rt: &R, heap: C::Heap, client: &mut C) -> Result<(), Refusal> {
    let abandoning = Abandoning {
        alloc: heap,
        number: 1,
    };
    wanted(client.call(rt, &abandoning)?)
}

fn deliver<C: Caller, R: Wait>(
    rt: &R,
    heap: C::Heap,
    client: &mut C,
    message: &Message<C::Heap>,
    outcome: Outcome,
) -> Result<(), Refusal> {
    let delivering = Delivering {
        alloc: heap,
        message,
    };
    let told = client.call(rt, &delivering)?;
    comes_to(told, outcome)
}

// Whether this is what comes of it, with a reply where something is sent.
fn comes_to<A: Allocator + Copy>(told: Delivered<A>, outcome: Outcome) -> Result<(), Refusal> {
    let (came, replies) = (told.outcome, told.replies.len());
    drop(told);
    wanted(came == outcome && (replies == 1) == (outcome == Outcome::Sent))
}

// Puts a value on a field of a, and one on d. Where one is refused, those before it are made, and it is tried as refused.
fn batch<C: Caller, R: Wait>(
    rt: &R,
    heap: C::Heap,
    client: &mut C,
    before: &mut Seen,
) -> Result<(), Refusal> {
    let (key, other) = (key_a(heap)?, Key::new(heap, b"d")?);
    let (field, value) = (Field::new(heap, b"f")?, Value::empty());
    let writes = [
        Write::Put(&key, &field, &value),
        Write::Put(&other, &field, &value),
    ];
    batch_of(rt, heap, client, &writes, before)
}

fn batch_of<C: Caller, R: Wait>(
    rt: &R,
    heap: C::Heap,
    client: &mut C,
    writes: &[Write<C::Heap>],
    before: &mut Seen,
) -> Result<(), Refusal> {
    let batching = Batching {
        alloc: heap,
        writes,
    };
    let written = client.call(rt, &batching)?;
    let after = client.see(rt)?;
    let was = mem::replace(before, after);
    is_as_told(&written, was, after)
}

// Whether the replica is as the batch tells: each write that was made has a dot, and the second one a key.
fn is_as_told<A: Allocator>(
    written: &Written<A>,
    before: Seen,
    after: Seen,
) -> Result<(), Refusal> {
    let made = written.wrote.len() as u64;
    let dots = before.shown.one.checked_add(made);
    let keys = if made == 2 { 3 } else { 2 };
    wanted(dots == Some(after.shown.one) && after.shown.size == keys)?;
    wanted(before.events.checked_add(1) == Some(after.events))?;
    match written.refusal {
        Some(refusal) => Err(refusal),
        None => wanted(made == 2),
    }
}

// What is read of what is published, and how much is found: the values and the fields of a, and the keys.
#[derive(Drop)]
struct Reading<A: Allocator + Copy> {
    heap: A,
    act: Act,
}

impl<A: Allocator + Copy> Look<Root<A>> for Reading<A> {
    type Found = Result<usize, Refusal>;

    ghost finds = { λ look root found. Unit {0} };

    fn look(&self, root: &Root<A>) -> Result<usize, Refusal> {
        let heap = self.heap;
        match self.act {
            Act::Get => values(heap, root),
            Act::Fields => fields(heap, root),
            _ => length(KeyListing { alloc: heap }.look(root)),
        }
    }
}

fn values<A: Allocator + Copy>(heap: A, root: &Root<A>) -> Result<usize, Refusal> {
    let key = key_a(heap)?;
    let getting = Getting {
        alloc: heap,
        key: &key,
        field: &Field::empty(),
    };
    length(getting.look(root))
}

fn fields<A: Allocator + Copy>(heap: A, root: &Root<A>) -> Result<usize, Refusal> {
    let key = key_a(heap)?;
    let listing = FieldListing {
        alloc: heap,
        key: &key,
    };
    length(listing.look(root))
}

fn length<X: Drop, A: Allocator>(found: Result<Vec<X, A>, Refusal>) -> Result<usize, Refusal> {
    let found = found?;
    Ok(found.len())
}

// Reads of what is published, where so much is to be found.
fn read<C: Caller>(heap: C::Heap, client: &mut C, act: Act, count: usize) -> Result<(), Refusal> {
    let told = client.find(&Reading { heap, act })?;
    wanted(told? == count)
}

// What is looked at of the replica, which shows this: the synchronisation that is open, the dots of the two writes, or what is saved of it, which comes
// back and shows the same.
#[derive(Drop)]
struct Inspecting<A: Allocator + Copy> {
    heap: A,
    act: Act,
}

impl<A: Allocator + Copy> Look<Here<A>> for Inspecting<A> {
    type Found = Result<(), Refusal>;

    ghost finds = { λ look replica found. Unit {0} };

    fn look(&self, replica: &Here<A>) -> Result<(), Refusal> {
        match self.act {
            Act::Sessions => wanted(length(SessionListing.look(replica))? == 1),
            Act::Know => know(self.heap, replica),
            _ => save(self.heap, replica),
        }
    }
}

fn know<A: Allocator + Copy>(heap: A, replica: &Here<A>) -> Result<(), Refusal> {
    let known = Knowing { alloc: heap }.look(replica)?;
    let dots = known.entry(replica.name());
    wanted(dots == 2)
}

fn save<A: Allocator + Copy>(heap: A, replica: &Here<A>) -> Result<(), Refusal> {
    let checkpoint = Checkpointing.look(replica)?;
    let saved = checkpoint.saved(heap);
    drop(checkpoint);
    let again = Replica::resume(heap, Fnv1a, saved?)?;
    let shown = what_shows(&again);
    drop(again);
    wanted(shown == what_shows(replica))
}

// Looks at the replica itself.
fn inspect<C: Caller, R: Wait>(
    rt: &R,
    heap: C::Heap,
    client: &mut C,
    act: Act,
) -> Result<(), Refusal> {
    client.inspect(rt, &Inspecting { heap, act })
}

// Looks at what takes no memory, and at a snapshot.
fn see<C: Caller, R: Wait>(rt: &R, client: &mut C, before: Seen) -> Result<(), Refusal> {
    let snapshot = client.find(&Sharing)??;
    let size = Sizing.look(&snapshot);
    drop(snapshot);
    let now = client.see(rt)?;
    wanted(now == before && size == 2)
}

// Where none is taken in, it is there what the synchronisation opens with.
fn kind_of(act: Act) -> Kind {
    match act {
        Act::Deliver(kind, _) => kind,
        _ => Kind::Opening,
    }
}

// The message, for the replica 1.
fn message<A: Allocator + Copy>(
    rt: &impl Abort,
    alloc: Global,
    here: &mut Here<A>,
    peer: &mut Here<A>,
    kind: Kind,
) -> Box<Message<A>> {
    match kind {
        Kind::Delta => flushed(rt, alloc, peer),
        Kind::Opening => reply(rt, alloc, opened(rt, alloc, here, peer, 2)),
        Kind::Page => reply(rt, alloc, paged(rt, alloc, here, peer)),
    }
}

// The last reply.
fn reply<A: Allocator + Copy>(
    rt: &impl Abort,
    alloc: Global,
    told: Delivered<A>,
) -> Box<Message<A>> {
    let mut told = told;
    let reply = told.replies.pop().expect(rt, "a reply");
    Box::new(alloc, reply).expect(rt, "memory")
}

// How often the call is refused, and how many events the client has seen before it is made.
fn tried_by<C: Caller, R: Wait + Abort>(
    rt: &R,
    alloc: Global,
    small: &LocalHeap,
    heap: C::Heap,
    client: &mut C,
    message: &Message<C::Heap>,
    act: Act,
) -> (usize, u64) {
    let before = client.see(rt).expect(rt, "a root");
    let mut calling = Calling {
        rt,
        heap,
        client,
        message,
        before,
        act,
    };
    let count = refusals(rt, alloc, small, 8, &mut calling);
    (count, calling.before.events)
}

// The same of the client of a node, in a function of its own as that is dear to prove.
fn tried_by_one<K: Naming, R: Wait + Abort + Drop, A: Allocator + Copy>(
    rt: &R,
    alloc: Global,
    small: &LocalHeap,
    heap: A,
    client: &mut One<K, R, A>,
    message: &Message<A>,
    act: Act,
) -> (usize, u64) {
    tried_by(rt, alloc, small, heap, client, message, act)
}

// The same by the client of a node of this replica, which has so many events more in the end.
fn tried_at_this_node<K: Naming, R: Wait + Abort + Copy + Drop, A: Allocator + Copy>(
    rt: R,
    alloc: Global,
    small: &LocalHeap,
    heap: A,
    book: OpenedBook<NodeEvent<A>>,
    here: Here<A>,
    message: &Message<A>,
    act: Act,
    events: u64,
) -> usize
    requires book { book.0 ≡ K.book }
    requires first { meaning here ≡ K.first }
{
    let made: Result<Shared<K, R, A>, Here<A>> = node(rt, heap, book, here);
    let mut node = made.ok().expect(&rt, "memory");
    let mut client = next(&mut node).expect(&rt, "a place");
    let (count, before) = tried_by_one(&rt, alloc, small, heap, &mut client, message, act);
    let told = ended(&rt, heap, node, client).expect(&rt, "all clients");
    assert!(rt; before.checked_add(events) == Some(told));
    count
}

// The same by the client of a new node.
fn tried<R: Wait + Abort + Copy + Drop, A: Allocator + Copy>(
    rt: R,
    alloc: Global,
    small: &LocalHeap,
    heap: A,
    act: Act,
    events: u64,
) -> usize {
    let mut here = replica(&rt, alloc, heap, 1);
    let mut peer = replica(&rt, alloc, heap, 2);
    put(heap, &mut *here, b"a", b"v").expect(&rt, "a put");
    put(heap, &mut *here, b"b", b"v").expect(&rt, "a put");
    put(heap, &mut *peer, b"c", b"w").expect(&rt, "a put");
    let message = message(&rt, alloc, &mut *here, &mut *peer, kind_of(act));
    let copy = here.copy().expect(&rt, "memory");
    tried_at_this_node::<marker::Brand, R, A>(
        rt,
        alloc,
        small,
        heap,
        OpenedBook::new(),
        copy,
        &*message,
        act,
        events,
    )
}

// The same in a heap of its own, which is empty in the end.
fn tried_in_a_heap<R: Wait + Abort + Copy + Drop>(
    rt: R,
    alloc: Global,
    act: Act,
    events: u64,
) -> usize {
    let heap = LocalHeap::new(alloc, 40_000).expect(&rt, "memory");
    let count = tried(rt, alloc, &heap, &heap, act, events);
    assert!(rt; heap.used() == 0);
    count
}

// What is called, the call, of how many events it is, and how often it is refused at least. None is what takes no memory.
type Row = (&'static str, Act, u64, Option<usize>);

const ROWS: &[Row] = &[
    ("a put", Act::Put, 1, Some(4)),
    ("a remove", Act::Remove, 1, Some(4)),
    ("a remove of a field", Act::RemoveField, 1, Some(4)),
    ("a clear", Act::Clear, 1, Some(4)),
    ("a flush", Act::Flush, 1, Some(4)),
    ("an ask", Act::Ask, 1, Some(4)),
    ("a retry", Act::Retry, 1, Some(4)),
    ("an abandon", Act::Abandon, 1, Some(4)),
    (
        "a delta is taken in",
        Act::Deliver(Kind::Delta, Outcome::Joined),
        1,
        Some(4),
    ),
    (
        "an opening is accepted",
        Act::Deliver(Kind::Opening, Outcome::Sent),
        1,
        Some(4),
    ),
    (
        "a page ends the synchronisation",
        Act::Deliver(Kind::Page, Outcome::Done),
        1,
        Some(4),
    ),
    // The events of the batch are seen before it is whole.
    ("a batch", Act::Batch, 0, Some(4)),
    ("a get", Act::Get, 0, Some(2)),
    ("a list of fields", Act::Fields, 0, Some(2)),
    ("a list of keys", Act::Keys, 0, Some(2)),
    ("a list of synchronisations", Act::Sessions, 0, Some(1)),
    ("the dots that are known", Act::Know, 0, Some(1)),
    ("a save", Act::Save, 0, Some(4)),
    ("other looks", Act::See, 0, None),
];

#[test]
fn a_refused_call_of_a_client_changes_nothing_and_is_made_again(rt: HostRuntime) {
    for (what, act, events, least) in ROWS {
        let count = tried_in_a_heap(rt, rt.alloc(), *act, *events);
        assert!(rt; is_as_often(count, *least), "{what}");
    }
}
