// Nodes that are made, whose clients are all handed out and call, and that end.
ghost use Rattle.std.specs.Prelude.{◌≡◌, ◌≤◌};
ghost use Rattle.replica_model.specs.Replica.{fresh};

use crate::caller::{Caller, Calling};
use crate::tests::batch::write_at_once;
use crate::tests::beside::{Holding, both_put_often, write_while_read};
use crate::tests::kept::put_and_keep;
use crate::tests::meanwhile::synchronise;
use crate::tests::resumed::put_and_save;
use crate::tests::running::run_writers;
use crate::tests::served::{Ends, Outside, exchange, serve_alone};
use crate::tests::sessions::{call_twelve_times, write_fields};
use crate::tests::slow::put_while_looked;
use crate::tests::timed::serve_timed_alone;
use dots::{Name, Refusal};
use hash_path::Fnv1a;
use node_threads::{
    Channels, Client, Lock, Named, Naming, Node, NodeEvent, Post, Served, TimedServed, new_node,
};
use replica_core::Replica;
use root_cell::OpenedBook;
use saved_form::Saved;
use shared_object::{Gate, NoGate, Unfinished};
use std::alloc::Global;
use std::marker;
use std::panic::Expect;
use std::process::Abort;
use std::sync::Wait;
use std::sync::atomic::AtomicU64;
use std::thread::Threads;
use std::time::Clock;

type Shared<K, G, R> = Node<K, Lock<K, G, R>>;

type Clients<K, G, R> = Vec<Client<K, Lock<K, G, R>>>;

type Back<K, G, R> = Unfinished<Named<K>, Lock<K, G, R>>;

// How many calls there were, how many keys the replica of a node holds that is handed all its clients, and how far it knows the replicas 1
// and 2.
pub(crate) type Last = (u64, u64, u64, u64);

// The name of this number, which is not 0.
pub(crate) fn name(rt: &impl Abort, number: u64) -> Name
    ensures { result ≡ number }
{
    Name::new(number).expect(rt, "a name")
}

// A node of the replica of this name, which is not 0.
fn made<K: Naming, G: Gate + Drop, R: Wait + Abort + Copy + Drop>(
    rt: R,
    alloc: Global,
    opened: OpenedBook<NodeEvent>,
    number: u64,
    places: usize,
    gate: G,
) -> Shared<K, G, R>
    requires places { (1 ≤ places) × (places ≤ 64) }
    requires book { opened.0 ≡ K.book }
    requires first { K.first ≡ fresh number }
{
    let own = name(&rt, number);
    let made = new_node(&rt, alloc, opened, own, places, gate, rt);
    made.expect(&rt, "a node")
}

// What the node answers who asks for a client.
fn next<K: Naming, G: Gate + Drop, R: Wait + Drop>(
    node: &mut Shared<K, G, R>,
) -> Result<Client<K, Lock<K, G, R>>, Refusal> {
    node.client()
}

// As many clients as the node has places. Then it has none left.
fn all_clients<K: Naming, G: Gate + Drop, R: Wait + Abort + Drop>(
    rt: &R,
    alloc: Global,
    node: &mut Shared<K, G, R>,
    places: usize,
) -> Clients<K, G, R> {
    let mut clients = Vec::new(alloc);
    for _ in 0..places {
        clients
            .push(next(node).expect(rt, "a place"))
            .expect(rt, "memory");
    }
    expect_full(rt, node);
    clients
}

// No place of the node is free.
fn expect_full<K: Naming, G: Gate + Drop, R: Wait + Abort + Drop>(
    rt: &R,
    node: &mut Shared<K, G, R>,
) {
    let refusal = next(node).err();
    assert!(rt; refusal == Some(Refusal::NoPlace));
}

// How far a replica knows that of this name, which is not 0.
fn known(rt: &impl Abort, here: &Replica, number: u64) -> u64 {
    here.context().entry(name(rt, number))
}

// What is there in the end.
fn told(rt: &impl Abort, operations: u64, here: &Replica) -> Last {
    (
        operations,
        here.size(),
        known(rt, here, 1),
        known(rt, here, 2),
    )
}

// What comes back of a node that is handed in with one client too few, and with that client then.
fn back<K: Naming, G: Gate + Drop, R: Wait + Abort + Drop>(
    rt: &R,
    node: Shared<K, G, R>,
    clients: Clients<K, G, R>,
) -> Back<K, G, R> {
    let mut clients = clients;
    let last = clients.pop().expect(rt, "a client");
    let back = node.finish(rt, clients);
    let mut back = back.err().expect(rt, "one client too few");
    back.clients.push(last).expect(rt, "memory");
    back
}

// What is there in the end of a node that is handed in with all its clients.
fn ended<K: Naming, G: Gate + Drop, R: Wait + Abort + Drop>(
    rt: &R,
    node: Shared<K, G, R>,
    clients: Clients<K, G, R>,
) -> Last {
    let finished = node.finish(rt, clients).ok().expect(rt, "all clients");
    told(rt, finished.operations, &finished.object)
}

// The same of one that is handed in with one client too few before: then nothing comes out.
fn finished<K: Naming, G: Gate + Drop, R: Wait + Abort + Drop>(
    rt: &R,
    node: Shared<K, G, R>,
    clients: Clients<K, G, R>,
) -> Last {
    let back = back(rt, node, clients);
    ended(rt, back.owner, back.clients)
}

// What the one client of a node calls.
#[derive(Drop)]
pub(crate) enum Calls<P: Drop> {
    Twelve,
    Snapshots,
    // Three of fields.
    Fields,
    // By which post, and what is counted.
    Serving(P, Served),
}

// What the two clients of a node call.
#[derive(Clone, Copy, Drop)]
pub(crate) enum BesideCalls<'a> {
    Writing,
    // By what the gate is set.
    Reading(&'a AtomicU64),
    // What tells how far both are.
    Looking(&'a AtomicU64),
}

// What the clients of two nodes call.
#[derive(Drop)]
pub(crate) enum SharedCalls<P: Drop, Q: Drop, O: Drop> {
    Synchronisation,
    // By the posts of the two, and from outside.
    Exchange(P, Q, O),
}

// The clients are seen as no more than their traits, as a check of what holds a client grows with the depth of its type.
fn call<C: Caller + Calling, P: Post + Copy + Drop, R: Wait + Abort>(
    rt: &R,
    alloc: Global,
    clients: &mut [C],
    calls: &Calls<P>,
) {
    match calls {
        Calls::Twelve => call_twelve_times(rt, alloc, clients),
        Calls::Snapshots => put_and_keep(rt, alloc, clients),
        Calls::Fields => write_fields(rt, alloc, clients),
        Calls::Serving(post, all) => serve_alone(rt, alloc, clients, post, *all),
    }
}

fn call_beside<K: Naming + Send + Sync, R: Threads + Wait + Abort + Copy + Drop + Send + Sync>(
    rt: &R,
    alloc: Global,
    clients: &mut [Client<K, Lock<K, Holding, R>>],
    calls: BesideCalls,
) {
    match calls {
        BesideCalls::Writing => both_put_often(rt, alloc, clients),
        BesideCalls::Reading(state) => write_while_read(rt, alloc, clients, state),
        BesideCalls::Looking(state) => put_while_looked(rt, alloc, clients, state),
    }
}

fn call_both<
    C: Caller + Send,
    D: Caller + Send,
    P: Post + Copy + Drop + Sync,
    Q: Post + Copy + Drop + Sync,
    O: Outside + Drop + Sync,
    R: Threads + Wait + Abort + Sync,
>(rt: &R, alloc: Global, clients: &mut [C], peers: &mut [D], calls: &SharedCalls<P, Q, O>) {
    match calls {
        SharedCalls::Synchronisation => synchronise(rt, alloc, clients, peers),
        SharedCalls::Exchange(post, peer_post, outside) => {
            exchange(rt, alloc, clients, peers, post, peer_post, outside)
        }
    }
}

// Has the one client of a new node, of the replica 1, make these calls: what is there in the end.
fn alone_at_this_node<K: Naming, P: Post + Copy + Drop, R: Wait + Abort + Copy + Drop>(
    rt: R,
    alloc: Global,
    opened: OpenedBook<NodeEvent>,
    calls: &Calls<P>,
) -> Last
    requires book { opened.0 ≡ K.book }
    requires first { K.first ≡ fresh 1 }
{
    let mut node: Shared<K, NoGate, R> = made(rt, alloc, opened, 1, 1, NoGate);
    let mut clients = all_clients(&rt, alloc, &mut node, 1);
    call(&rt, alloc, &mut clients, calls);
    finished(&rt, node, clients)
}

// Has the one client of a new node, of the replica 1, write at once: what is there in the end.
fn batched_at_this_node<K: Naming, R: Wait + Abort + Copy + Drop>(
    rt: R,
    alloc: Global,
    opened: OpenedBook<NodeEvent>,
) -> Last
    requires book { opened.0 ≡ K.book }
    requires first { K.first ≡ fresh 1 }
{
    let mut node: Shared<K, NoGate, R> = made(rt, alloc, opened, 1, 1, NoGate);
    let mut clients = all_clients(&rt, alloc, &mut node, 1);
    write_at_once(&rt, alloc, &mut clients);
    ended(&rt, node, clients)
}

// Has the one client of a new node, of the replica 1, put twice, save the replica, and put again: what was saved.
fn saved_at_this_node<K: Naming, R: Wait + Abort + Copy + Drop>(
    rt: R,
    alloc: Global,
    opened: OpenedBook<NodeEvent>,
) -> Saved
    requires book { opened.0 ≡ K.book }
    requires first { K.first ≡ fresh 1 }
{
    let mut node: Shared<K, NoGate, R> = made(rt, alloc, opened, 1, 1, NoGate);
    let mut clients = all_clients(&rt, alloc, &mut node, 1);
    let saved = put_and_save(&rt, alloc, &mut clients);
    let last = ended(&rt, node, clients);
    assert!(rt; last == (3, 2, 3, 0));
    saved
}

// Has the one client of a new node, of the replica 1, serve it by a timed post which sends or does not, and which counts this: what is there in the end.
fn timed_at_this_node<K: Naming, R: Wait + Abort + Copy + Drop>(
    rt: R,
    alloc: Global,
    opened: OpenedBook<NodeEvent>,
    is_sending: bool,
    all: TimedServed,
) -> Last
    requires book { opened.0 ≡ K.book }
    requires first { K.first ≡ fresh 1 }
{
    let mut node: Shared<K, NoGate, R> = made(rt, alloc, opened, 1, 1, NoGate);
    let mut clients = all_clients(&rt, alloc, &mut node, 1);
    serve_timed_alone(&rt, alloc, &mut clients, is_sending, all);
    ended(&rt, node, clients)
}

// Has the five clients of a new node, of the replica 1, run it: what is there in the end.
fn running_at_this_node<
    K: Naming + Send + Sync,
    R: Threads + Wait + Abort + Clock + Copy + Drop + Send + Sync,
>(rt: R, alloc: Global, opened: OpenedBook<NodeEvent>) -> Last
    requires book { opened.0 ≡ K.book }
    requires first { K.first ≡ fresh 1 }
{
    let mut node: Shared<K, NoGate, R> = made(rt, alloc, opened, 1, 5, NoGate);
    let mut clients = all_clients(&rt, alloc, &mut node, 5);
    run_writers(&rt, alloc, &mut clients);
    ended(&rt, node, clients)
}

// Has the two clients of a new node, of the replica 1, make these calls, which pass this gate: what is there in the end.
fn beside_at_this_node<
    K: Naming + Send + Sync,
    R: Threads + Wait + Abort + Copy + Drop + Send + Sync,
>(rt: R, alloc: Global, opened: OpenedBook<NodeEvent>, gate: Holding, calls: BesideCalls) -> Last
    requires book { opened.0 ≡ K.book }
    requires first { K.first ≡ fresh 1 }
{
    let mut node: Shared<K, Holding, R> = made(rt, alloc, opened, 1, 2, gate);
    let mut clients = all_clients(&rt, alloc, &mut node, 2);
    call_beside(&rt, alloc, &mut clients, calls);
    finished(&rt, node, clients)
}

// Has these clients, and those of a new node of the replica 2, make these calls: what is there in the end of the new node.
fn with_this_node<
    C: Caller + Send,
    L: Naming + Send + Sync,
    P: Post + Copy + Drop + Sync,
    Q: Post + Copy + Drop + Sync,
    O: Outside + Drop + Sync,
    R: Threads + Wait + Abort + Copy + Drop + Send + Sync,
>(
    rt: R,
    alloc: Global,
    clients: &mut [C],
    opened: OpenedBook<NodeEvent>,
    places: usize,
    calls: &SharedCalls<P, Q, O>,
) -> Last
    requires places { (1 ≤ places) × (places ≤ 64) }
    requires book { opened.0 ≡ L.book }
    requires first { L.first ≡ fresh 2 }
{
    let mut node: Shared<L, NoGate, R> = made(rt, alloc, opened, 2, places, NoGate);
    let mut peers = all_clients(&rt, alloc, &mut node, places);
    call_both(&rt, alloc, clients, &mut peers, calls);
    finished(&rt, node, peers)
}

// Has the clients of two new nodes, of the replicas 1 and 2, make these calls: what is there in the end of each.
fn at_these_nodes<
    K: Naming + Send + Sync,
    L: Naming + Send + Sync,
    P: Post + Copy + Drop + Sync,
    Q: Post + Copy + Drop + Sync,
    O: Outside + Drop + Sync,
    R: Threads + Wait + Abort + Copy + Drop + Send + Sync,
>(
    rt: R,
    alloc: Global,
    first: OpenedBook<NodeEvent>,
    second: OpenedBook<NodeEvent>,
    places: usize,
    peer_places: usize,
    calls: &SharedCalls<P, Q, O>,
) -> (Last, Last)
    requires places { (1 ≤ places) × (places ≤ 64) }
    requires peer_places { (1 ≤ peer_places) × (peer_places ≤ 64) }
    requires first { first.0 ≡ K.book }
    requires second { second.0 ≡ L.book }
    requires one { K.first ≡ fresh 1 }
    requires two { L.first ≡ fresh 2 }
{
    let mut node: Shared<K, NoGate, R> = made(rt, alloc, first, 1, places, NoGate);
    let mut clients = all_clients(&rt, alloc, &mut node, places);
    let peer_last = with_this_node::<_, L, _, _, _, _>(
        rt,
        alloc,
        &mut clients,
        second,
        peer_places,
        calls,
    );
    (finished(&rt, node, clients), peer_last)
}

// Has the one client of a new node make these calls: what is there in the end.
pub(crate) fn alone<R: Wait + Abort + Copy + Drop>(
    rt: R,
    alloc: Global,
    calls: &Calls<Channels>,
) -> Last {
    alone_at_this_node::<marker::Brand, _, _>(rt, alloc, OpenedBook::new(), calls)
}

// Has the one client of a new node write at once: what is there in the end.
pub(crate) fn batched<R: Wait + Abort + Copy + Drop>(rt: R, alloc: Global) -> Last {
    batched_at_this_node::<marker::Brand, _>(rt, alloc, OpenedBook::new())
}

// Has the one client of a new node save its replica: what is there of the replica that comes back from it.
pub(crate) fn resumed<R: Wait + Abort + Copy + Drop>(rt: R, alloc: Global) -> Last {
    let saved = saved_at_this_node::<marker::Brand, _>(rt, alloc, OpenedBook::new());
    let replica = Replica::resume(alloc, Fnv1a, saved).expect(&rt, "memory");
    told(&rt, 0, &replica)
}

// Has the one client of a new node serve it by a timed post: what is there in the end.
pub(crate) fn timed<R: Wait + Abort + Copy + Drop>(
    rt: R,
    alloc: Global,
    is_sending: bool,
    all: TimedServed,
) -> Last {
    timed_at_this_node::<marker::Brand, _>(rt, alloc, OpenedBook::new(), is_sending, all)
}

// Has the clients of a new node run it: what is there in the end.
pub(crate) fn running<R: Threads + Wait + Abort + Clock + Copy + Drop + Send + Sync>(
    rt: R,
    alloc: Global,
) -> Last {
    running_at_this_node::<marker::Brand, _>(rt, alloc, OpenedBook::new())
}

// The same of the two clients of a new node, which pass this gate.
pub(crate) fn beside<R: Threads + Wait + Abort + Copy + Drop + Send + Sync>(
    rt: R,
    alloc: Global,
    gate: Holding,
    calls: BesideCalls,
) -> Last {
    beside_at_this_node::<marker::Brand, _>(rt, alloc, OpenedBook::new(), gate, calls)
}

// The same of two nodes.
pub(crate) fn at_two_nodes<R: Threads + Wait + Abort + Copy + Drop + Send + Sync>(
    rt: R,
    alloc: Global,
    places: usize,
    peer_places: usize,
    calls: &SharedCalls<Channels, Channels, Ends>,
) -> (Last, Last)
    requires places { (1 ≤ places) × (places ≤ 64) }
    requires peer_places { (1 ≤ peer_places) × (peer_places ≤ 64) }
{
    let (first, second) = (OpenedBook::new(), OpenedBook::new());
    at_these_nodes::<marker::Brand, marker::Brand, _, _, _, _>(
        rt,
        alloc,
        first,
        second,
        places,
        peer_places,
        calls,
    )
}
