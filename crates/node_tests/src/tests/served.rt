// Two nodes that are served, each in a thread of its own.
use crate::caller::Caller;
use crate::nodes::{Calls, Last, SharedCalls, alone, at_two_nodes, name};
use crate::tests::{DELTA, both, only};
use crossbeam_channel::{Sender, unbounded};
use node_threads::{Channels, Letter, Post, Served};
use std::alloc::Global;
use std::panic::Expect;
use std::process::Abort;
use std::sync::Wait;
use std::thread;
use std::thread::Threads;
use wire_form::encode;

// The hello of replica 2 to replica 1, session 1, which knows nothing.
const HELLO: &[u8] = &[
    3, 3, 0, 0, 0, 0, 0, 0, 0, 2, 0, 0, 0, 0, 0, 0, 0, 1, 0, 0, 0, 0, 0, 0, 0, 1, 0, 0, 0, 0, 0, 0,
    0, 0, 0, 0, 0, 0, 0, 0, 0, 0,
];

// The one that puts x on the field f of a.
const FIELD_DELTA: &[u8] = &[
    3, 1, 0, 0, 0, 0, 0, 0, 0, 1, 0, 0, 0, 0, 0, 0, 0, 1, 0, 0, 0, 0, 0, 0, 0, 1, 0, 0, 0, 0, 0, 0,
    0, 0, 0, 0, 0, 0, 0, 0, 0, 1, 0, 1, 97, 0, 0, 0, 0, 0, 0, 0, 1, 0, 1, 102, 0, 0, 0, 0, 0, 0, 0,
    1, 0, 0, 0, 0, 0, 0, 0, 1, 0, 0, 0, 0, 0, 0, 0, 1, 0, 1, 120,
];

// A gone for the session 9 of replica 1 with replica 2.
const GONE: &[u8] = &[
    3, 7, 0, 0, 0, 0, 0, 0, 0, 1, 0, 0, 0, 0, 0, 0, 0, 2, 0, 0, 0, 0, 0, 0, 0, 9,
];

// For so many turns a client reads until it sees what it waits for.
const TURNS: u64 = 10_000_000;

// What comes to the two nodes from outside. Where nodes are served, the channels are seen as no more than their traits.
pub(crate) trait Outside {
    // Hands these bytes to the first node.
    fn hand<T: Wait>(&self, rt: &T, bytes: Vec<u8>);

    // Ends the serving of both.
    fn stop<T: Wait>(&self, rt: &T);
}

#[derive(Drop)]
pub(crate) struct Ends {
    node: Sender<Letter>,
    peer: Sender<Letter>,
}

impl Outside for Ends {
    fn hand<T: Wait>(&self, rt: &T, bytes: Vec<u8>) {
        let _ = self.node.send(rt, Letter::Mail(bytes));
    }

    fn stop<T: Wait>(&self, rt: &T) {
        let _ = self.node.send(rt, Letter::Stop);
        let _ = self.peer.send(rt, Letter::Stop);
    }
}

#[test]
fn two_nodes_that_are_served_synchronise(rt: HostRuntime) {
    let alloc = rt.alloc();
    let (to_node, inbox) = unbounded(alloc).expect(&rt, "memory");
    let (to_peer, peer_inbox) = unbounded(alloc).expect(&rt, "memory");
    // Of two outboxes for one replica the first counts: by the second what is for the peer would come back.
    let of_node = [
        (name(&rt, 2), another(&rt, &to_peer)),
        (name(&rt, 2), another(&rt, &to_node)),
    ];
    let of_peer = [(name(&rt, 1), another(&rt, &to_node))];
    let post = Channels {
        alloc,
        inbox: &inbox,
        outboxes: &of_node,
    };
    let peer_post = Channels {
        alloc,
        inbox: &peer_inbox,
        outboxes: &of_peer,
    };
    let ends = Ends {
        node: to_node,
        peer: to_peer,
    };
    let calls = SharedCalls::Exchange(post, peer_post, ends);
    let (last, peer_last) = at_two_nodes(rt, alloc, 2, 2, &calls);
    assert!(rt; last == (3, 1, 1, 0) && peer_last == (3, 1, 1, 0));
}

fn another(rt: &impl Abort, sender: &Sender<Letter>) -> Sender<Letter> {
    Sender::clone(sender).expect(rt, "a count")
}

// Serves both nodes by these posts, while they synchronise.
pub(crate) fn exchange<
    C: Caller + Send,
    D: Caller + Send,
    P: Post + Copy + Sync,
    Q: Post + Copy + Sync,
    O: Outside + Sync,
    R: Threads + Wait + Abort + Sync,
>(rt: &R, alloc: Global, clients: &mut [C], peers: &mut [D], post: &P, peer_post: &Q, outside: &O) {
    let (served, writer) = both(rt, clients);
    let (peer_served, reader) = both(rt, peers);
    let (is_seen, is_served) = thread::join(
        rt,
        || is_synchronised(rt, alloc, writer, reader, outside),
        || are_served(rt, alloc, served, peer_served, post, peer_post),
    );
    assert!(rt; is_seen && is_served);
}

// Serves both nodes until their posts end, each in a thread of its own. Whether so much was delivered, refused and lost.
fn are_served<
    C: Caller + Send,
    D: Caller + Send,
    P: Post + Copy + Sync,
    Q: Post + Copy + Sync,
    R: Threads + Wait + Abort + Sync,
>(rt: &R, alloc: Global, served: &mut C, peer_served: &mut D, post: &P, peer_post: &Q) -> bool {
    let (told, peer_told) = thread::join(
        rt,
        || served.serve(rt, alloc, post),
        || peer_served.serve(rt, alloc, peer_post),
    );
    let all = Served {
        delivered: 2,
        not_messages: 0,
        refused: 0,
        unsent: 0,
        lost: 0,
    };
    told == all && peer_told == all
}

// Writes at the one node, has the other node ask it, waits until that one shows what was written, and ends both. Whether it came to show it.
fn is_synchronised<C: Caller, D: Caller, O: Outside>(
    rt: &(impl Wait + Abort),
    alloc: Global,
    writer: &mut C,
    reader: &mut D,
    outside: &O,
) -> bool {
    writer.put(rt, alloc, b"a", b"", b"x");
    outside.hand(rt, asked(rt, alloc, reader));
    let is_seen = is_seen_later(rt, alloc, reader);
    outside.stop(rt);
    is_seen
}

// Reads until the key holds what was written.
fn is_seen_later<D: Caller>(rt: &impl Abort, alloc: Global, reader: &mut D) -> bool {
    for _ in 0..TURNS {
        if reader.has(rt, alloc, b"a", b"", Some(b"x")) {
            return true;
        }
        thread::yield_now();
    }
    false
}

// Asks the first node: the bytes of the hello.
fn asked<D: Caller>(rt: &(impl Wait + Abort), alloc: Global, reader: &mut D) -> Vec<u8> {
    let hello = reader.ask(rt, alloc, 1).1;
    encode(alloc, &hello).expect(rt, "memory")
}

// Sends these bytes to a node.
fn send(rt: &(impl Wait + Abort), alloc: Global, to_node: &Sender<Letter>, letters: &[&[u8]]) {
    for bytes in letters {
        let bytes = Vec::from_slice(alloc, bytes).expect(rt, "memory");
        let _ = to_node.send(rt, Letter::Mail(bytes));
    }
}

// What comes to a node, whether it is stopped then or its channel closed, and what is counted.
const LETTERS: &[(&str, &[&[u8]], bool, Served)] = &[
    (
        "stopped",
        &[&[0], HELLO, DELTA],
        true,
        Served {
            delivered: 2,
            not_messages: 1,
            refused: 0,
            unsent: 1,
            lost: 0,
        },
    ),
    (
        "closed",
        &[&[], GONE, FIELD_DELTA],
        false,
        Served {
            delivered: 2,
            not_messages: 1,
            refused: 0,
            unsent: 0,
            lost: 0,
        },
    ),
];

#[test]
fn what_comes_to_a_served_node_is_counted(rt: HostRuntime) {
    for (what, letters, is_stopped, all) in LETTERS {
        let last = served_by(rt, rt.alloc(), letters, *is_stopped, *all);
        assert!(rt; last == (2, 1, 1, 0), "{what}");
    }
}

// What is there in the end of a node to which these letters came, and which counts this.
fn served_by<R: Wait + Abort + Copy + Drop>(
    rt: R,
    alloc: Global,
    letters: &[&[u8]],
    is_stopped: bool,
    all: Served,
) -> Last {
    let (to_node, inbox) = unbounded(alloc).expect(&rt, "memory");
    send(&rt, alloc, &to_node, letters);
    let open = stopped(&rt, to_node, is_stopped);
    let post = Channels {
        alloc,
        inbox: &inbox,
        outboxes: &[],
    };
    let last = alone(rt, alloc, &Calls::Serving(post, all));
    drop(open);
    last
}

// Stops the node, and keeps the channel, so that it is the stop which ends it. Or closes the channel.
fn stopped(rt: &impl Wait, to_node: Sender<Letter>, is_stopped: bool) -> Option<Sender<Letter>> {
    if !is_stopped {
        return None;
    }
    let _ = to_node.send(rt, Letter::Stop);
    Some(to_node)
}

// Serves a node until its post ends, which counts this.
pub(crate) fn serve_alone<C: Caller, P: Post + Copy>(
    rt: &(impl Wait + Abort),
    alloc: Global,
    clients: &mut [C],
    post: &P,
    all: Served,
) {
    let told = only(rt, clients).serve(rt, alloc, post);
    assert!(rt; told == all);
}
