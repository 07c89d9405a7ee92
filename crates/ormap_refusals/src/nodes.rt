// Nodes in a heap, each with one client.
ghost use Rattle.std.specs.Prelude.{◌≡◌};
ghost use Rattle.replica_core.specs.Meaning.{meaning};

use crate::made::{Here, Shown, what_shows};
use dots::Refusal;
use node_threads::{
    Client, Digesting, Lock, Named, Naming, Node, NodeEvent, Root, Sizing, node_of,
};
use root_cell::{Brand, OpenedBook};
use shared_object::{Finished, Look, NoGate, Object, Owner, Placed, Update};
use std::alloc::Allocator;
use std::sync::Wait;

pub(crate) type Shared<K, R, A> = Node<K, Lock<K, NoGate, R, A>, A>;

pub(crate) type One<K, R, A> = Client<K, Lock<K, NoGate, R, A>, A>;

// What the clients of an object share that pass no gate.
type Free<J, R, A> = shared_object::Shared<J, NoGate, R, A>;

// A node of this replica with two places, or the replica again.
pub(crate) fn node<K: Naming, R: Wait + Copy + Drop, A: Allocator + Copy>(
    rt: R,
    heap: A,
    opened: OpenedBook<NodeEvent<A>>,
    here: Here<A>,
) -> Result<Shared<K, R, A>, Here<A>>
    requires book { opened.0 ≡ K.book }
    requires first { meaning here ≡ K.first }
{
    node_of(&rt, heap, opened, here, 2, NoGate, rt)
}

// What the node answers who asks for a client. This and what follows is of any object, as a check of what holds a client grows with the depth of
// its type.
pub(crate) fn next<J: Object, S: Drop, A: Allocator + Copy>(
    node: &mut Owner<J, S, A>,
) -> Result<shared_object::Client<J, S, A>, Refusal> {
    node.client()
}

// What a call is answered. The receipt is let go.
pub(crate) fn called<J: Object, R: Wait + Drop, A: Allocator + Copy, T: Wait, U: Update<J, A>>(
    rt: &T,
    client: &mut shared_object::Client<J, Free<J, R, A>, A>,
    update: &U,
) -> Result<U::Reply, Refusal> {
    let (reply, receipt) = client.call(rt, update)?;
    drop(receipt);
    Ok(reply)
}

// What a look finds.
pub(crate) fn found<J: Object, S: Drop, A: Allocator, L: Look<J::Root>>(
    client: &mut shared_object::Client<J, S, A>,
    look: &L,
) -> Result<L::Found, Refusal> {
    client.look(look)
}

// What a look at the object itself finds.
pub(crate) fn inspected<J: Object, R: Wait + Drop, A: Allocator + Copy, T: Wait, L: Look<J::State>>(
    rt: &T,
    client: &mut shared_object::Client<J, Free<J, R, A>, A>,
    look: &L,
) -> L::Found {
    client.inspect(rt, look)
}

// What a client sees: of the replica itself what it shows and knows, and of what is published the digest, the number of keys and that of events.
#[derive(Clone, Copy, PartialEq, Eq)]
pub(crate) struct Seen {
    pub(crate) shown: Shown,
    digest: Option<[u8; 32]>,
    size: u64,
    pub(crate) events: u64,
}

// What the replica shows and knows.
#[derive(Drop)]
pub(crate) struct Showing;

impl<A: Allocator + Copy> Look<Here<A>> for Showing {
    type Found = Shown;

    ghost finds = { λ look replica found. Unit {0} };

    fn look(&self, replica: &Here<A>) -> Shown {
        what_shows(replica)
    }
}

// The digest and the number of keys that are published.
#[derive(Drop)]
pub(crate) struct Published;

impl<A: Allocator + Copy> Look<Root<A>> for Published {
    type Found = (Option<[u8; 32]>, u64);

    ghost finds = { λ look root found. Unit {0} };

    fn look(&self, root: &Root<A>) -> (Option<[u8; 32]>, u64) {
        (Digesting.look(root), Sizing.look(root))
    }
}

// What a look at the object finds, one at what is published, and how many events there are.
fn looked<
    J: Object,
    R: Wait + Drop,
    A: Allocator + Copy,
    T: Wait,
    L: Look<J::State>,
    M: Look<J::Root>,
>(
    rt: &T,
    client: &mut shared_object::Client<J, Free<J, R, A>, A>,
    inner: &L,
    outer: &M,
) -> (L::Found, Result<M::Found, Refusal>, Result<u64, Refusal>) {
    let inside = client.inspect(rt, inner);
    let outside = client.look(outer);
    let events = client.events();
    (inside, outside, events)
}

// What the trials ask of a client. They see it as no more than this, as a check of what holds a client grows with the depth of its type.
pub(crate) trait Caller {
    type Book: Naming;

    type Heap: Allocator + Copy;

    // What a call is answered.
    fn call<T: Wait, U: Update<Named<Self::Book, Self::Heap>, Self::Heap>>(
        &mut self,
        rt: &T,
        update: &U,
    ) -> Result<U::Reply, Refusal>;

    // What a look at what is published finds.
    fn find<L: Look<Root<Self::Heap>>>(&mut self, look: &L) -> Result<L::Found, Refusal>;

    // What a look at the replica finds.
    fn inspect<T: Wait, L: Look<Here<Self::Heap>>>(&mut self, rt: &T, look: &L) -> L::Found;

    // It takes no memory.
    fn see<T: Wait>(&mut self, rt: &T) -> Result<Seen, Refusal>;
}

impl<K: Naming, R: Wait + Drop, A: Allocator + Copy> Caller for One<K, R, A> {
    type Book = K;

    type Heap = A;

    fn call<T: Wait, U: Update<Named<K, A>, A>>(
        &mut self,
        rt: &T,
        update: &U,
    ) -> Result<U::Reply, Refusal> {
        called(rt, self, update)
    }

    fn find<L: Look<Root<A>>>(&mut self, look: &L) -> Result<L::Found, Refusal> {
        found(self, look)
    }

    fn inspect<T: Wait, L: Look<Here<A>>>(&mut self, rt: &T, look: &L) -> L::Found {
        inspected(rt, self, look)
    }

    fn see<T: Wait>(&mut self, rt: &T) -> Result<Seen, Refusal> {
        let (shown, published, events) = looked(rt, self, &Showing, &Published);
        let (digest, size) = published?;
        Ok(Seen {
            shown,
            digest,
            size,
            events: events?,
        })
    }
}

// The one item in a list.
fn only<X: Drop, A: Allocator + Copy>(heap: A, item: X) -> Result<Vec<X, A>, Refusal> {
    let mut list = Vec::new(heap);
    match list.push(item) {
        Ok(()) => Ok(list),
        Err(_) => Err(Refusal::OutOfMemory),
    }
}

// How many calls an object had, or NoPlace where it was not taken out.
fn operations<D: Drop, U: Drop>(told: Result<Finished<D>, U>) -> Result<u64, Refusal> {
    match told {
        Ok(finished) => Ok(finished.operations),
        Err(_) => Err(Refusal::NoPlace),
    }
}

// How many calls the node had that is handed in with its one client.
pub(crate) fn ended<J: Object, R: Wait + Drop, A: Allocator + Copy>(
    rt: &R,
    heap: A,
    node: Owner<J, Free<J, R, A>, A>,
    client: shared_object::Client<J, Free<J, R, A>, A>,
) -> Result<u64, Refusal> {
    match only(heap, client) {
        Ok(clients) => {
            let told = node.finish(rt, clients);
            operations(told)
        }
        Err(refusal) => {
            drop(node);
            Err(refusal)
        }
    }
}

// What the first client of an object finds, which ends then, and how many calls it had.
pub(crate) fn used<
    J: Object,
    R: Wait + Drop,
    A: Allocator + Copy,
    L: Look<J::State, Found = Shown>,
>(rt: &R, heap: A, node: Owner<J, Free<J, R, A>, A>, look: &L) -> Result<(Shown, u64), Refusal> {
    let mut node = node;
    match node.client() {
        Ok(client) => {
            let mut client = client;
            let found = client.inspect(rt, look);
            match ended(rt, heap, node, client) {
                Ok(calls) => Ok((found, calls)),
                Err(refusal) => Err(refusal),
            }
        }
        Err(refusal) => {
            drop(node);
            Err(refusal)
        }
    }
}
