// A node that is served by a timed post: each time that is due it sends by itself.
ghost use Rattle.std.specs.Prelude.{◌≡◌, ◌+◌, ◌-◌, ◌^◌, min, List, IfOk, OnErr};
ghost use Rattle.node_threads.specs.Serving.{Turn};
ghost use Rattle.node_threads.specs.TimedServing.{CountsSent, IsAgain, IsFlush, IsFlushed, IsRenewed, IsSpread, ServesTimed};
ghost use Rattle.shared_object.specs.Calling.{HasNotCalled};

use crate::acts::FlushingBytes;
use crate::inspecting::Waiting;
use crate::named::Naming;
use crate::node::{Client, Lock};
use crate::post::Post;
use crate::renewing::send_again;
use crate::resent::Resent;
use crate::serving::{Served, serve};
use crate::timed_post::TimedPost;
use crate::timed_served::TimedServed;
use dots::Refusal;
use replica_core::Letter;
use shared_object::Gate;
use std::alloc::Allocator;
use std::sync::Wait;

/// Serves a node, as `serve` does, by a post that is due from time to time. Then each own synchronisation that is open sends again what it waits for, and
/// what was written since the last flush is sent to all that the post knows. It ends just where the post says that it is over.
///
/// A delta is sent once: one that is lost, or that the post does not send, comes by a synchronisation, which a program asks for. No synchronisation is
/// abandoned. Nothing is saved before it is sent, so a node that is served so takes a fresh name after a restart.
///
/// It waits for its turn at the node and for the post. Besides what `serve` takes, each time that is due takes what `send_again` does, a look under the
/// lock, and where something waits a flush with its bytes.
pub fn serve_timed<
    K: Naming,
    G: Gate + Drop,
    W: Wait + Drop,
    A: Allocator + Copy,
    P: TimedPost,
    T: Wait,
>(rt: &T, alloc: A, client: &mut Client<K, Lock<K, G, W, A>, A>, post: &mut P) -> TimedServed
    ensures served { ServesTimed P.receives P.sends P.rests P.ends P.spreads P.misses P.over K.first post.old post.new client.old client.new result }
    ensures over { P.over post.new }
{
    let served = serve(rt, alloc, client, post);
    let mut told = TimedServed {
        served,
        sent: NOTHING,
    };
    for _ in rt.forever() {
        if post.is_over() {
            break;
        }
        let sent = renew(rt, alloc, client, post);
        let served = serve(rt, alloc, client, post);
        told = TimedServed {
            served: both_served(told.served, served),
            sent: both_sent(told.sent, sent),
        };
    }
    told
}

// What became of both together.
fn both_served(one: Served, other: Served) -> Served
    ensures delivered { result.delivered ≡ min (one.delivered + other.delivered) (2 ^ 64 - 1) }
    ensures not_messages { result.not_messages ≡ min (one.not_messages + other.not_messages) (2 ^ 64 - 1) }
    ensures refused { result.refused ≡ min (one.refused + other.refused) (2 ^ 64 - 1) }
    ensures unsent { result.unsent ≡ min (one.unsent + other.unsent) (2 ^ 64 - 1) }
    ensures lost { result.lost ≡ min (one.lost + other.lost) (2 ^ 64 - 1) }
{
    Served {
        delivered: one.delivered.saturating_add(other.delivered),
        not_messages: one.not_messages.saturating_add(other.not_messages),
        refused: one.refused.saturating_add(other.refused),
        unsent: one.unsent.saturating_add(other.unsent),
        lost: one.lost.saturating_add(other.lost),
    }
}

// The same of what was sent.
fn both_sent(one: Resent, other: Resent) -> Resent
    ensures refused { result.refused ≡ min (one.refused + other.refused) (2 ^ 64 - 1) }
    ensures unsent { result.unsent ≡ min (one.unsent + other.unsent) (2 ^ 64 - 1) }
    ensures lost { result.lost ≡ min (one.lost + other.lost) (2 ^ 64 - 1) }
{
    Resent {
        refused: one.refused.saturating_add(other.refused),
        unsent: one.unsent.saturating_add(other.unsent),
        lost: one.lost.saturating_add(other.lost),
    }
}

// Nothing was to be sent.
const NOTHING: Resent = Resent {
    refused: 0,
    unsent: 0,
    lost: 0,
};

// One call that was refused.
const REFUSED: Resent = Resent {
    refused: 1,
    unsent: 0,
    lost: 0,
};

// Has each open synchronisation send again, and sends what was written to all.
fn renew<K: Naming, G: Gate + Drop, W: Wait + Drop, A: Allocator + Copy, P: TimedPost, T: Wait>(
    rt: &T,
    alloc: A,
    client: &mut Client<K, Lock<K, G, W, A>, A>,
    post: &mut P,
) -> Resent
    ensures { (turns : List Turn) × IsRenewed P.receives P.sends P.rests P.ends P.spreads P.misses P.over K.first post.old post.new client.old client.new turns
        × CountsSent result turns }
{
    let again = all_again(rt, alloc, client, post);
    let flushed = flush_to_all(rt, alloc, client, post);
    both_sent(again, flushed)
}

// Has each open synchronisation send again.
fn all_again<K: Naming, G: Gate + Drop, W: Wait + Drop, A: Allocator + Copy, P: TimedPost, T: Wait>(
    rt: &T,
    alloc: A,
    client: &mut Client<K, Lock<K, G, W, A>, A>,
    post: &mut P,
) -> Resent
    ensures { (turns : List Turn) × IsAgain P.receives P.sends P.rests P.ends P.spreads P.misses P.over K.first post.old post.new client.old client.new turns
        × CountsSent result turns }
{
    match send_again(rt, alloc, client, post) {
        Ok(told) => told,
        Err(_) => REFUSED,
    }
}

// Sends what was written since the last flush to all, where something was and that is not refused.
fn flush_to_all<
    K: Naming,
    G: Gate + Drop,
    W: Wait + Drop,
    A: Allocator + Copy,
    P: TimedPost,
    T: Wait,
>(rt: &T, alloc: A, client: &mut Client<K, Lock<K, G, W, A>, A>, post: &mut P) -> Resent
    ensures { (turns : List Turn) × IsFlushed P.receives P.sends P.rests P.ends P.spreads P.misses P.over K.first post.old post.new client.old client.new turns
        × CountsSent result turns }
{
    if !client.inspect(rt, &Waiting) {
        return NOTHING;
    }
    match flush(rt, alloc, client) {
        Ok(sent) => {
            let unsent = spread(rt, &sent, post);
            drop(sent);
            Resent {
                refused: 0,
                unsent,
                lost: 0,
            }
        }
        Err(_) => REFUSED,
    }
}

// The letter of what was written since the last flush, if there is one.
fn flush<K: Naming, G: Gate + Drop, W: Wait + Drop, A: Allocator + Copy, T: Wait>(
    rt: &T,
    alloc: A,
    client: &mut Client<K, Lock<K, G, W, A>, A>,
) -> Result<Option<Letter<A>>, Refusal>
    ensures flushed { IfOk result (λ sent. IsFlush K.first client.old client.new sent) }
    ensures not_made { OnErr result (HasNotCalled (λ e. e.place) client.old client.new) }
{
    let flushing = FlushingBytes { alloc };
    let (sent, receipt) = client.call(rt, &flushing)?;
    drop(receipt);
    Ok(sent)
}

// Sends this letter, if there is one, to all: how many were not sent.
fn spread<A: Allocator + Copy, P: TimedPost, T: Wait>(
    rt: &T,
    letter: &Option<Letter<A>>,
    post: &mut P,
) -> u64
    ensures { IsSpread P.receives P.sends P.rests P.ends P.spreads P.misses P.over post.old post.new letter.now result }
{
    let Some(letter) = letter else {
        return 0;
    };
    if post.spread(rt, &letter.bytes) { 0 } else { 1 }
}
