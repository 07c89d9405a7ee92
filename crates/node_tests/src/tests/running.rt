// A node that runs: one client serves it, and four write, each in a thread of its own.
use crate::caller::{Caller, TimedServing};
use crate::nodes::running;
use crossbeam_channel::{Sender, unbounded};
use node_threads::{
    Channels, Client, Letter, Lock, Naming, Resent, Served, TimedChannels, TimedServed, Work,
    each_client,
};
use shared_object::{Gate, NoGate};
use std::alloc::Global;
use std::panic::Expect;
use std::process::Abort;
use std::sync::Wait;
use std::sync::atomic::AtomicU64;
use std::sync::atomic::Ordering::SeqCst;
use std::thread::Threads;
use std::time::{Clock, Duration};

// What is told of a node to which nothing comes, and which loses nothing.
const NOTHING: TimedServed = TimedServed {
    served: Served {
        delivered: 0,
        not_messages: 0,
        refused: 0,
        unsent: 0,
        lost: 0,
    },
    sent: Resent {
        refused: 0,
        unsent: 0,
        lost: 0,
    },
};

// The first client serves the node, and each other puts ten keys: the last that is done has the node served no longer.
#[derive(Drop)]
struct Writers<'a, R: Wait + Clock + Abort> {
    rt: &'a R,
    alloc: Global,
    channels: Channels<'a>,
    left: &'a AtomicU64,
    stop: &'a Sender<Letter>,
}

impl<'a, R: Wait + Clock + Abort> Work for Writers<'a, R> {
    ghost does = { λ work number old new. Unit {0} };

    fn work<K: Naming, G: Gate + Drop, W: Wait + Drop>(
        &self,
        number: usize,
        client: &mut Client<K, Lock<K, G, W>>,
    ) {
        if number == 0 {
            self.serve(client);
        } else {
            self.write((number % 256) as u8, client);
        }
    }
}

impl<'a, R: Wait + Clock + Abort> Writers<'a, R> {
    fn serve<C: TimedServing>(&self, client: &mut C) {
        let mut post = TimedChannels::new(self.rt, self.channels, Duration::from_millis(1));
        let told = client.serve_timed(self.rt, self.alloc, &mut post);
        assert!(self.rt; told == NOTHING);
    }

    fn write<C: Caller>(&self, number: u8, client: &mut C) {
        for key in 0..10u8 {
            client.put(self.rt, self.alloc, &[number, key], b"", b"x");
        }
        if self.left.fetch_sub(1, SeqCst) == 1 {
            let _ = self.stop.send(self.rt, Letter::Stop);
        }
    }
}

#[test]
fn a_node_runs_until_its_writers_are_done(rt: HostRuntime) {
    let (operations, keys, known, _) = running(rt, rt.alloc());
    assert!(rt; operations >= 40 && (keys, known) == (40, 40));
}

// Has each client do its part.
pub(crate) fn run_writers<
    K: Naming + Send + Sync,
    R: Threads + Wait + Abort + Clock + Copy + Drop + Send + Sync,
>(rt: &R, alloc: Global, clients: &mut [Client<K, Lock<K, NoGate, R>>]) {
    let (to_node, inbox) = unbounded(alloc).expect(rt, "memory");
    let channels = Channels {
        alloc,
        inbox: &inbox,
        outboxes: &[],
    };
    let left = AtomicU64::new(4);
    let writers = Writers {
        rt,
        alloc,
        channels,
        left: &left,
        stop: &to_node,
    };
    each_client(rt, clients, &writers);
}
