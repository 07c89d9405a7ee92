// What is served at a node, and sent again.
ghost use Rattle.std.specs.Prelude.{◌≡◌};
ghost use Rattle.replica_core.specs.Meaning.{meaning};

use crate::made::{Here, asked, flushed, put, replica};
use crate::nodes::{Caller, One, Seen, Shared, ended, next, node};
use crate::tests::timed::tried_when_due;
use crate::trial::{Trial, is_as_often, refusals, wanted};
use dots::{Name, Refusal};
use linked_list_allocator::LocalHeap;
use node_threads::{Naming, NodeEvent, Post, Resent, Served, send_again, serve};
use root_cell::OpenedBook;
use std::alloc::{Allocator, Global};
use std::marker;
use std::panic::Expect;
use std::process::Abort;
use std::sync::Wait;

// What is done by a post, at a node of the replica 1, which has put v on a, and has opened the synchronisation 1 with 2.
#[derive(Clone, Copy, PartialEq, Eq)]
enum Act {
    // A hello comes, and the reply is sent.
    Serve,
    // It comes, and there is no memory for the reply.
    Lose,
    SendAgain,
    // The post is due, what was put has been sent, and the synchronisation sends again.
    SendAgainWhenDue,
    // It is due, and what was put is sent. No synchronisation was opened.
    FlushWhenDue,
}

// The hello of replica 2 to replica 1, session 1, which knows nothing.
const HELLO: &[u8] = &[
    3, 3, 0, 0, 0, 0, 0, 0, 0, 2, 0, 0, 0, 0, 0, 0, 0, 1, 0, 0, 0, 0, 0, 0, 0, 1, 0, 0, 0, 0, 0, 0,
    0, 0, 0, 0, 0, 0, 0, 0, 0, 0,
];

// A post by which that hello comes, once, and which counts what is sent.
#[derive(Clone, Copy, Drop)]
struct Once {
    alloc: Global,
    is_there: bool,
    sent: u64,
}

impl Post for Once {
    ghost receives = { λ old new bytes. Unit {0} };

    ghost sends = { λ old new to bytes. Unit {0} };

    ghost rests = { λ old new. Unit {0} };

    ghost ends = { λ old new. Unit {0} };

    fn receive<T: Wait>(&mut self, _rt: &T) -> Option<Vec<u8>> {
        if !self.is_there {
            return None;
        }
        self.is_there = false;
        HELLO.to_vec(self.alloc).ok()
    }

    fn send<T: Wait>(&mut self, _rt: &T, _to: Name, _bytes: &[u8]) -> bool {
        self.sent = self.sent.saturating_add(1);
        true
    }
}

// What these trials ask of a client. They see it as no more than this, as a check of what holds a client grows with the depth of its type.
trait Server {
    type Heap: Allocator + Copy;

    // What became of what came by this post, until it ends.
    fn serve<T: Wait, P: Post>(&mut self, rt: &T, heap: Self::Heap, post: &mut P) -> Served;

    // What became of the synchronisations that are open, which send again by this post.
    fn send_again<T: Wait, P: Post>(
        &mut self,
        rt: &T,
        heap: Self::Heap,
        post: &mut P,
    ) -> Result<Resent, Refusal>;

    // It takes no memory.
    fn see_all<T: Wait>(&mut self, rt: &T) -> Result<Seen, Refusal>;
}

impl<K: Naming, R: Wait + Drop, A: Allocator + Copy> Server for One<K, R, A> {
    type Heap = A;

    fn serve<T: Wait, P: Post>(&mut self, rt: &T, heap: A, post: &mut P) -> Served {
        serve(rt, heap, self, post)
    }

    fn send_again<T: Wait, P: Post>(
        &mut self,
        rt: &T,
        heap: A,
        post: &mut P,
    ) -> Result<Resent, Refusal> {
        send_again(rt, heap, self, post)
    }

    fn see_all<T: Wait>(&mut self, rt: &T) -> Result<Seen, Refusal> {
        self.see(rt)
    }
}

// Such an act of the server, who saw this before.
#[derive(Drop)]
struct Serving<'r, S: Server, R: Wait> {
    rt: &'r R,
    heap: S::Heap,
    server: &'r mut S,
    post: Once,
    before: Seen,
    act: Act,
}

impl<'r, S: Server, R: Wait> Trial for Serving<'r, S, R> {
    fn attempt(&mut self) -> Result<(), Refusal> {
        match self.act {
            Act::SendAgain => self.send_again(),
            _ => self.serve(),
        }
    }

    fn is_as_before(&mut self) -> bool {
        self.server.see_all(self.rt) == Ok(self.before)
    }
}

impl<'r, S: Server, R: Wait> Serving<'r, S, R> {
    // Each message that came is counted once.
    fn serve(&mut self) -> Result<(), Refusal> {
        let mut post = self.post;
        let told = self.server.serve(self.rt, self.heap, &mut post);
        let others = (told.not_messages, told.unsent);
        wanted(others == (0, 0) && told.delivered.checked_add(told.refused) == Some(1))?;
        self.counted(told.refused, told.lost, post.sent)
    }

    fn send_again(&mut self) -> Result<(), Refusal> {
        let mut post = self.post;
        let told = self.server.send_again(self.rt, self.heap, &mut post)?;
        wanted(told.unsent == 0)?;
        self.counted(told.refused, told.lost, post.sent)
    }

    // It is refused, and nothing is sent; or it is made, and its message is lost, or sent.
    fn counted(&mut self, refused: u64, lost: u64, sent: u64) -> Result<(), Refusal> {
        match (refused, lost, sent) {
            (1, 0, 0) => Err(Refusal::OutOfMemory),
            (0, 1, 0) => self.lost(),
            told => wanted(told == (0, 0, 1)),
        }
    }

    // What was made is an event, though its message was lost.
    fn lost(&mut self) -> Result<(), Refusal> {
        if self.act == Act::Lose {
            return Ok(());
        }
        self.before.events = self.before.events.saturating_add(1);
        Err(Refusal::OutOfMemory)
    }
}

// How often the act is refused, and how many events the server has seen before it is done.
fn tried_by<S: Server, R: Wait + Abort>(
    rt: &R,
    alloc: Global,
    small: &LocalHeap,
    heap: S::Heap,
    server: &mut S,
    act: Act,
) -> (usize, u64) {
    let before = server.see_all(rt).expect(rt, "a root");
    let post = Once {
        alloc,
        is_there: true,
        sent: 0,
    };
    let mut serving = Serving {
        rt,
        heap,
        server,
        post,
        before,
        act,
    };
    let count = refusals(rt, alloc, small, 8, &mut serving);
    (count, serving.before.events)
}

// The same of the client of a node, in a function of its own as that is dear to prove.
fn tried_by_one<K: Naming, R: Wait + Abort + Drop, A: Allocator + Copy>(
    rt: &R,
    alloc: Global,
    small: &LocalHeap,
    heap: A,
    client: &mut One<K, R, A>,
    act: Act,
) -> (usize, u64) {
    match act {
        Act::SendAgainWhenDue | Act::FlushWhenDue => {
            tried_when_due(rt, alloc, small, heap, client)
        }
        _ => tried_by(rt, alloc, small, heap, client, act),
    }
}

// The same by the client of a node of this replica, which has one event more in the end.
fn tried_at_this_node<K: Naming, R: Wait + Abort + Copy + Drop, A: Allocator + Copy>(
    rt: R,
    alloc: Global,
    small: &LocalHeap,
    heap: A,
    book: OpenedBook<NodeEvent<A>>,
    here: Here<A>,
    act: Act,
) -> usize
    requires book { book.0 ≡ K.book }
    requires first { meaning here ≡ K.first }
{
    let made: Result<Shared<K, R, A>, Here<A>> = node(rt, heap, book, here);
    let mut node = made.ok().expect(&rt, "memory");
    let mut client = next(&mut node).expect(&rt, "a place");
    let (count, before) = tried_by_one(&rt, alloc, small, heap, &mut client, act);
    let told = ended(&rt, heap, node, client).expect(&rt, "all clients");
    assert!(rt; before.checked_add(1) == Some(told));
    count
}

// The same by the client of a new node.
fn tried<R: Wait + Abort + Copy + Drop, A: Allocator + Copy>(
    rt: R,
    alloc: Global,
    small: &LocalHeap,
    heap: A,
    act: Act,
) -> usize {
    let mut here = replica(&rt, alloc, heap, 1);
    put(heap, &mut *here, b"a", b"v").expect(&rt, "a put");
    if act == Act::SendAgainWhenDue {
        drop(flushed(&rt, alloc, &mut *here));
    }
    if act != Act::FlushWhenDue {
        drop(asked(&rt, alloc, &mut *here, 2));
    }
    let copy = here.copy().expect(&rt, "memory");
    tried_at_this_node::<marker::Brand, R, A>(rt, alloc, small, heap, OpenedBook::new(), copy, act)
}

// What is done by the post, and how often it is refused at least.
const ROWS: &[(&str, Act, usize)] = &[
    ("a message is served", Act::Serve, 4),
    ("its reply is lost", Act::Lose, 1),
    ("what is open sends again", Act::SendAgain, 4),
    ("it sends again when that is due", Act::SendAgainWhenDue, 4),
    (
        "what was put is sent when that is due",
        Act::FlushWhenDue,
        2,
    ),
];

#[test]
fn a_server_without_memory_counts_it_and_goes_on_later(rt: HostRuntime) {
    for (what, act, least) in ROWS {
        let heap = LocalHeap::new(rt.alloc(), 40_000).expect(&rt, "memory");
        let count = tried(rt, rt.alloc(), &heap, &heap, *act);
        assert!(rt;
            is_as_often(count, Some(*least)) && heap.used() == 0,
            "{what}"
        );
    }
}
