// A node that is served by a timed post: each time that is due it asks again, and sends what was written to all.
use crate::caller::{Caller, TimedServing};
use crate::nodes::{name, timed};
use crate::tests::{DELTA, only};
use crossbeam_channel::{Receiver, unbounded};
use dots::Name;
use node_threads::{Channels, Letter, Post, Resent, Served, TimedChannels, TimedPost, TimedServed};
use std::alloc::Global;
use std::panic::Expect;
use std::process::Abort;
use std::sync::Wait;
use std::thread;
use std::time::Duration;

// The hello of replica 1 to replica 2, session 1, which knows that write.
const HELLO: &[u8] = &[
    3, 3, 0, 0, 0, 0, 0, 0, 0, 1, 0, 0, 0, 0, 0, 0, 0, 2, 0, 0, 0, 0, 0, 0, 0, 1, 0, 0, 0, 0, 0, 0,
    0, 1, 0, 0, 0, 0, 0, 0, 0, 1, 0, 0, 0, 0, 0, 0, 0, 1, 0, 0, 0, 0, 0, 0, 0, 0,
];

// The opening of replica 2 for it, which knows that write and holds nothing.
const OPENING: &[u8] = &[
    3, 4, 0, 0, 0, 0, 0, 0, 0, 1, 0, 0, 0, 0, 0, 0, 0, 2, 0, 0, 0, 0, 0, 0, 0, 1, 0, 0, 0, 0, 0, 0,
    0, 1, 0, 0, 0, 0, 0, 0, 0, 1, 0, 0, 0, 0, 0, 0, 0, 1, 0, 0, 0, 0, 0, 0, 0, 0, 0,
];

// Twice it is due, and then the opening comes.
const COMING: &[Option<&[u8]>] = &[None, None, Some(OPENING)];

// What is sent, and for whom: 0 is for all.
const SENT: &[(u64, &[u8])] = &[(2, HELLO), (0, DELTA), (2, HELLO)];

// What went out.
type Gone = Vec<(u64, Vec<u8>)>;

// A post by which this comes, where None is a time that is due, and then it is over. It sends all, or nothing.
#[derive(Drop)]
struct Scripted<'a> {
    alloc: Global,
    coming: &'a [Option<&'a [u8]>],
    at: usize,
    is_over: bool,
    is_sending: bool,
    gone: &'a mut Gone,
}

impl<'a> Scripted<'a> {
    fn note(&mut self, to: u64, bytes: &[u8]) -> bool {
        let Ok(copy) = bytes.to_vec(self.alloc) else {
            return false;
        };
        self.is_sending && self.gone.push((to, copy)).is_ok()
    }
}

impl<'a> Post for Scripted<'a> {
    ghost receives = { λ old new bytes. Unit {0} };

    ghost sends = { λ old new to bytes. Unit {0} };

    ghost rests = { λ old new. Unit {0} };

    ghost ends = { λ old new. Unit {0} };

    fn receive<T: Wait>(&mut self, _rt: &T) -> Option<Vec<u8>> {
        let Some(first) = self.coming.get(self.at) else {
            self.is_over = true;
            return None;
        };
        self.at += 1;
        match first {
            Some(bytes) => bytes.to_vec(self.alloc).ok(),
            None => None,
        }
    }

    fn send<T: Wait>(&mut self, _rt: &T, to: Name, bytes: &[u8]) -> bool {
        self.note(to.number(), bytes)
    }
}

impl<'a> TimedPost for Scripted<'a> {
    ghost use Rattle.std.specs.Prelude.{IsTrue};

    ghost over = { λ post. IsTrue post.is_over };

    ghost spreads = { λ old new bytes. Unit {0} };

    ghost misses = { λ old new. Unit {0} };

    fn is_over(&self) -> bool {
        self.is_over
    }

    fn spread<T: Wait>(&mut self, _rt: &T, bytes: &[u8]) -> bool {
        self.note(0, bytes)
    }
}

// What is told of the one message that is delivered, and of so much that the node was to send by itself and was not sent.
fn told(unsent: u64) -> TimedServed {
    TimedServed {
        served: Served {
            delivered: 1,
            not_messages: 0,
            refused: 0,
            unsent: 0,
            lost: 0,
        },
        sent: Resent {
            refused: 0,
            unsent,
            lost: 0,
        },
    }
}

// A put, an ask, a retry and the flush, a retry, and the delivery.
#[test]
fn a_silent_peer_is_asked_again_until_it_answers(rt: HostRuntime) {
    let last = timed(rt, rt.alloc(), true, told(0));
    assert!(rt; last == (6, 0, 1, 0));
}

#[test]
fn what_a_node_cannot_send_by_itself_is_counted(rt: HostRuntime) {
    let last = timed(rt, rt.alloc(), false, told(3));
    assert!(rt; last == (6, 0, 1, 0));
}

// Puts, asks a peer that is silent for a while, and is served until the post is over, of which this is told.
pub(crate) fn serve_timed_alone<C: Caller + TimedServing>(
    rt: &(impl Wait + Abort),
    alloc: Global,
    clients: &mut [C],
    is_sending: bool,
    all: TimedServed,
) {
    let client = only(rt, clients);
    client.put(rt, alloc, b"a", b"", b"x");
    client.ask(rt, alloc, 2);
    assert!(rt; client.is_waiting(rt));
    let mut gone = Vec::new(alloc);
    let mut post = Scripted {
        alloc,
        coming: COMING,
        at: 0,
        is_over: false,
        is_sending,
        gone: &mut gone,
    };
    let told = client.serve_timed(rt, alloc, &mut post);
    drop(post);
    assert!(rt; !client.is_waiting(rt));
    let count = if is_sending { SENT.len() } else { 0 };
    assert!(rt; told == all && are_gone(&gone, &SENT[..count]));
}

fn are_gone(gone: &[(u64, Vec<u8>)], sent: &[(u64, &[u8])]) -> bool {
    gone.len() == sent.len()
        && gone.iter().zip(sent).all(|(one, other)| one.0 == other.0 && one.1.as_slice() == other.1)
}

// Whether these bytes come out, and nothing else.
fn is_next(rt: &impl Wait, outbox: &Receiver<Letter>, wanted: &[u8]) -> bool {
    match outbox.try_recv(rt) {
        Ok(Letter::Mail(bytes)) => bytes.as_slice() == wanted,
        _ => false,
    }
}

// Whether nothing comes any more, and the post is over.
fn is_over_soon<P: TimedPost>(rt: &impl Wait, post: &mut P) -> bool {
    for _ in 0..3 {
        if post.receive(rt).is_some() {
            return false;
        }
        if post.is_over() {
            return true;
        }
    }
    false
}

fn mail(rt: &impl Abort, alloc: Global) -> Letter {
    Letter::Mail(DELTA.to_vec(alloc).expect(rt, "memory"))
}

#[test]
fn timed_channels_are_due_however_much_comes_in(rt: HostRuntime) {
    let alloc = rt.alloc();
    let (to_node, inbox) = unbounded(alloc).expect(&rt, "memory");
    let channels = Channels {
        alloc,
        inbox: &inbox,
        outboxes: &[],
    };
    let mut post = TimedChannels::new(&rt, channels, Duration::from_millis(20));
    assert!(rt; post.receive(&rt).is_none() && !post.is_over());
    assert!(rt; to_node.send(&rt, mail(&rt, alloc)).is_ok());
    assert!(rt; to_node.send(&rt, mail(&rt, alloc)).is_ok());
    let came = post.receive(&rt);
    assert!(rt; came.is_some_and(|bytes| bytes.as_slice() == DELTA));
    thread::sleep(&rt, Duration::from_millis(40));
    assert!(rt; post.receive(&rt).is_none() && !post.is_over());
    assert!(rt; post.receive(&rt).is_some());
    drop(to_node);
    assert!(rt; is_over_soon(&rt, &mut post));
}

// A time that the clock cannot add up is never due.
#[test]
fn what_is_for_all_goes_into_each_outbox(rt: HostRuntime) {
    let alloc = rt.alloc();
    let (to_node, inbox) = unbounded(alloc).expect(&rt, "memory");
    let (to_first, first) = unbounded(alloc).expect(&rt, "memory");
    let (to_second, second) = unbounded(alloc).expect(&rt, "memory");
    let outboxes = [(name(&rt, 2), to_first), (name(&rt, 3), to_second)];
    let channels = Channels {
        alloc,
        inbox: &inbox,
        outboxes: &outboxes,
    };
    let mut post = TimedChannels::new(&rt, channels, Duration::MAX);
    assert!(rt; post.spread(&rt, DELTA) && post.send(&rt, name(&rt, 3), HELLO));
    assert!(rt; is_next(&rt, &first, DELTA) && is_next(&rt, &second, DELTA));
    assert!(rt; is_next(&rt, &second, HELLO) && !is_next(&rt, &first, HELLO));
    assert!(rt; to_node.send(&rt, mail(&rt, alloc)).is_ok());
    assert!(rt; post.receive(&rt).is_some());
    assert!(rt; to_node.send(&rt, Letter::Stop).is_ok());
    assert!(rt; is_over_soon(&rt, &mut post));
}
