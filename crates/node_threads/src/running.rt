// Clients of a node in threads of their own.
ghost use Rattle.std.specs.Prelude.{◌<◌, ℕ, length, slice_index_or};
ghost use Rattle.std.specs.declared.alloc.Global.{Global};
ghost use Rattle.node_threads.specs.declared.node_event.NodeEvent.{NodeEvent};
ghost use Rattle.shared_object.specs.History.{Seat};

use crate::named::Naming;
use crate::node::{Client, Lock};
use crate::work::Work;
use shared_object::Gate;
use std::sync::Wait;
use std::thread;
use std::thread::Threads;

/// Has each of these clients do its part of the work, in a thread of its own: one may serve the node, and the others write and read. It ends once all
/// have ended. Where no thread can be made they do it one after the other, so a part that waits for another may wait for good.
pub fn each_client<
    K: Naming + Send + Sync,
    G: Gate + Drop + Send + Sync,
    W: Wait + Drop + Send,
    B: Work + Sync,
    R: Threads + Sync,
>(rt: &R, clients: &mut [Client<K, Lock<K, G, W>>], work: &B)
    ensures { (i : ℕ) (d : Seat (NodeEvent Global)) → i < length clients.old → B.does work.now i (slice_index_or clients.old i d) (slice_index_or clients.new i d) }
{
    let threads = clients.len().max(1);
    thread::for_each_mut(
        rt,
        clients,
        threads,
        &|number: usize, client: &mut Client<K, Lock<K, G, W>>| { work.work(number, client) },
    );
}
