// What a node sends by itself where it is served by a timed post, without memory.
use crate::nodes::{Caller, One, Seen};
use crate::trial::{Trial, refusals, wanted};
use dots::{Name, Refusal};
use linked_list_allocator::LocalHeap;
use node_threads::{Naming, Post, Served, TimedPost, TimedServed, serve_timed};
use std::alloc::{Allocator, Global};
use std::panic::Expect;
use std::process::Abort;
use std::sync::Wait;

// A post that is due once, by which nothing comes, and which counts what is sent.
#[derive(Clone, Copy, Drop)]
struct Due {
    asked: u64,
    sent: u64,
}

impl Post for Due {
    ghost receives = { λ old new bytes. Unit {0} };

    ghost sends = { λ old new to bytes. Unit {0} };

    ghost rests = { λ old new. Unit {0} };

    ghost ends = { λ old new. Unit {0} };

    fn receive<T: Wait>(&mut self, _rt: &T) -> Option<Vec<u8>> {
        self.asked = self.asked.saturating_add(1);
        None
    }

    fn send<T: Wait>(&mut self, _rt: &T, _to: Name, _bytes: &[u8]) -> bool {
        self.sent = self.sent.saturating_add(1);
        true
    }
}

impl TimedPost for Due {
    ghost use Rattle.std.specs.Prelude.{◌≤◌};

    ghost over = { λ post. 2 ≤ post.asked };

    ghost spreads = { λ old new bytes. Unit {0} };

    ghost misses = { λ old new. Unit {0} };

    fn is_over(&self) -> bool {
        self.asked >= 2
    }

    fn spread<T: Wait>(&mut self, _rt: &T, _bytes: &[u8]) -> bool {
        self.sent = self.sent.saturating_add(1);
        true
    }
}

// What these trials ask of a client. They see it as no more than this, as a check of what holds a client grows with the depth of its type.
pub(super) trait TimedServer {
    type Heap: Allocator + Copy;

    // What became of what came and of what was sent, until the post is over.
    fn serve_timed<T: Wait, P: TimedPost>(
        &mut self,
        rt: &T,
        heap: Self::Heap,
        post: &mut P,
    ) -> TimedServed;

    // It takes no memory.
    fn see_it<T: Wait>(&mut self, rt: &T) -> Result<Seen, Refusal>;
}

impl<K: Naming, R: Wait + Drop, A: Allocator + Copy> TimedServer for One<K, R, A> {
    type Heap = A;

    fn serve_timed<T: Wait, P: TimedPost>(&mut self, rt: &T, heap: A, post: &mut P) -> TimedServed {
        serve_timed(rt, heap, self, post)
    }

    fn see_it<T: Wait>(&mut self, rt: &T) -> Result<Seen, Refusal> {
        self.see(rt)
    }
}

// The server, who saw this before and has one thing to send.
#[derive(Drop)]
struct Timed<'r, S: TimedServer, R: Wait> {
    rt: &'r R,
    heap: S::Heap,
    server: &'r mut S,
    before: Seen,
}

impl<'r, S: TimedServer, R: Wait> Trial for Timed<'r, S, R> {
    // It is refused, and nothing is sent; or it is made, and its message is lost, or sent.
    fn attempt(&mut self) -> Result<(), Refusal> {
        let mut post = Due { asked: 0, sent: 0 };
        let told = self.server.serve_timed(self.rt, self.heap, &mut post);
        let is_nothing = told.served == NOTHING;
        wanted(is_nothing && told.sent.unsent == 0)?;
        match (told.sent.refused, told.sent.lost, post.sent) {
            (1, 0, 0) => Err(Refusal::OutOfMemory),
            (0, 1, 0) => {
                self.before.events = self.before.events.saturating_add(1);
                Err(Refusal::OutOfMemory)
            }
            told => wanted(told == (0, 0, 1)),
        }
    }

    fn is_as_before(&mut self) -> bool {
        self.server.see_it(self.rt) == Ok(self.before)
    }
}

// Nothing came.
const NOTHING: Served = Served {
    delivered: 0,
    not_messages: 0,
    refused: 0,
    unsent: 0,
    lost: 0,
};

// How often it is refused that the server sends what is due, and how many events the server has seen before it is sent.
pub(super) fn tried_when_due<S: TimedServer, R: Wait + Abort>(
    rt: &R,
    alloc: Global,
    small: &LocalHeap,
    heap: S::Heap,
    server: &mut S,
) -> (usize, u64) {
    let before = server.see_it(rt).expect(rt, "a root");
    let mut timed = Timed {
        rt,
        heap,
        server,
        before,
    };
    let count = refusals(rt, alloc, small, 8, &mut timed);
    (count, timed.before.events)
}
