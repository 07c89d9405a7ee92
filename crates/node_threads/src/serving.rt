// A node that is served: a client that takes in what comes by a post, and sends what is answered.
ghost use Rattle.std.specs.Prelude.{◌≡◌, ◌<◌, ◌+◌, ◌-◌, ◌^◌, false, length, min, List, IsTrue, IfOk, IfErr, OnErr};
ghost use Rattle.node_threads.specs.Serving.{AreSent, CanCome, IsAnswered, IsSent, IsTakenIn, Serves, Takes, TookIn, Turn, lost, not_messages, refused, total, unsent};
ghost use Rattle.replica_core.specs.Answered.{outcome_of};
ghost use Rattle.replica_model.specs.Step.{Came};
ghost use Rattle.shared_object.specs.Calling.{HasNotCalled};
ghost use Rattle.wire_form.specs.Message.{Spells, SpellsNone, message_of};

use crate::acts::Delivering;
use crate::missed::Missed;
use crate::named::Naming;
use crate::node::{Client, Lock};
use crate::passing::Passing;
use crate::post::Post;
use crate::sending::Sending;
use dots::Refusal;
use replica_core::Delivered;
use shared_object::Gate;
use std::alloc::Allocator;
use std::sync::Wait;
use wire_form::{Message, decode, encode};

/// What became of what came in, and of the replies. No number goes past 2^64 - 1.
#[derive(Clone, Copy, Debug, PartialEq, Eq)]
pub struct Served {
    /// Messages that were taken in, those among them that were ignored or did not fit.
    pub delivered: u64,
    /// What no message spells.
    pub not_messages: u64,
    /// What was refused: what there was no memory to read or to take in, and messages for which there was no number of one more event.
    pub refused: u64,
    /// Replies that the post did not send.
    pub unsent: u64,
    /// Replies for which there was no memory.
    pub lost: u64,
}

/// Takes in each message that comes by the post, and sends each reply to the replica that it is for, before it turns to what comes next.
/// It ends just where the post says so. What is no message, or is refused, changes nothing and is counted: nothing is taken in but what came. Nothing is
/// said of one that still serves. Nothing is saved before it is sent.
///
/// It waits: for its turn at the node, and for the post. For each message it takes what decoding it, a call with it and encoding its
/// replies take. It keeps none.
pub fn serve<K: Naming, G: Gate + Drop, W: Wait + Drop, A: Allocator + Copy, P: Post, T: Wait>(
    rt: &T,
    alloc: A,
    client: &mut Client<K, Lock<K, G, W, A>, A>,
    post: &mut P,
) -> Served
    ensures took_in { TookIn (CanCome P.receives) client.old client.new }
    ensures delivered { client.new.operations ≡ client.old.operations + result.delivered }
    ensures served { (steps : List Turn) × (end : P) × Serves P.receives P.sends P.rests K.first post.old end client.old client.new steps
        × P.ends end post.new × (result.not_messages ≡ min (total not_messages steps) (2 ^ 64 - 1)) × (result.refused ≡ min (total refused steps) (2 ^ 64 - 1))
        × (result.unsent ≡ min (total unsent steps) (2 ^ 64 - 1)) × (result.lost ≡ min (total lost steps) (2 ^ 64 - 1)) }
{
    let begun = client.operations();
    let (mut not_messages, mut refused, mut unsent, mut lost) = (0u64, 0u64, 0u64, 0u64);
    for _ in rt.forever() {
        let Some(bytes) = post.receive(rt) else {
            break;
        };
        match answer(rt, alloc, client, &bytes, post) {
            Ok(missed) => {
                unsent = unsent.saturating_add(missed.unsent);
                lost = lost.saturating_add(missed.lost);
            }
            Err(Passing::NoMessage) => not_messages = not_messages.saturating_add(1),
            Err(Passing::Refused) => refused = refused.saturating_add(1),
        }
    }
    Served {
        delivered: client.operations() - begun,
        not_messages,
        refused,
        unsent,
        lost,
    }
}

// Takes the message in that the bytes spell, and sends the replies: how many of these did not go out, or why it is not taken in.
fn answer<K: Naming, G: Gate + Drop, W: Wait + Drop, A: Allocator + Copy, P: Post, T: Wait>(
    rt: &T,
    alloc: A,
    client: &mut Client<K, Lock<K, G, W, A>, A>,
    bytes: &[u8],
    post: &mut P,
) -> Result<Missed, Passing>
    ensures taken { IfOk result (λ missed. IsAnswered P.receives P.sends P.rests K.first bytes.now post.old post.new client.old client.new missed.unsent missed.lost) }
    ensures passed { OnErr result (HasNotCalled (λ e. e.place) client.old client.new × (post.new ≡ post.old)) }
    ensures no_message { IfErr result (λ why. why ≡ Passing.NoMessage → SpellsNone bytes.now) }
{
    let told = take_in(rt, alloc, client, bytes)?;
    let missed = send_all(rt, alloc, &told.replies, post);
    drop(told);
    Ok(missed)
}

// Takes the message in that the bytes spell.
fn take_in<K: Naming, G: Gate + Drop, W: Wait + Drop, A: Allocator + Copy, T: Wait>(
    rt: &T,
    alloc: A,
    client: &mut Client<K, Lock<K, G, W, A>, A>,
    bytes: &[u8],
) -> Result<Delivered<A>, Passing>
    ensures taken { IfOk result (λ told. IsTakenIn K.first bytes.now client.old client.new (Came (outcome_of told.outcome)) told.replies.items) }
    ensures not_made { OnErr result (HasNotCalled (λ e. e.place) client.old client.new) }
    ensures no_message { IfErr result (λ why. why ≡ Passing.NoMessage → SpellsNone bytes.now) }
{
    let message = read(alloc, bytes)?;
    let told = deliver(rt, alloc, client, &message);
    drop(message);
    told
}

// The message that the bytes spell.
fn read<A: Allocator + Copy>(alloc: A, bytes: &[u8]) -> Result<Message<A>, Passing>
    ensures ok { IfOk result (λ message. Spells bytes.now (message_of message)) }
    ensures no_message { IfErr result (λ why. why ≡ Passing.NoMessage → SpellsNone bytes.now) }
{
    match decode(alloc, bytes) {
        Ok(message) => Ok(message),
        Err(Refusal::NotAMessage) => Err(Passing::NoMessage),
        Err(_) => Err(Passing::Refused),
    }
}

// Takes this message in.
fn deliver<K: Naming, G: Gate + Drop, W: Wait + Drop, A: Allocator + Copy, T: Wait>(
    rt: &T,
    alloc: A,
    client: &mut Client<K, Lock<K, G, W, A>, A>,
    message: &Message<A>,
) -> Result<Delivered<A>, Passing>
    ensures taken { IfOk result (λ told. Takes K.first message.now client.old client.new (Came (outcome_of told.outcome)) told.replies.items) }
    ensures not_made { OnErr result (HasNotCalled (λ e. e.place) client.old client.new) }
    ensures refused { IfErr result (λ why. why ≡ Passing.Refused) }
{
    let delivering = Delivering { alloc, message };
    match client.call(rt, &delivering) {
        Ok((told, receipt)) => {
            drop(receipt);
            Ok(told)
        }
        Err(_) => Err(Passing::Refused),
    }
}

// Sends each reply, and counts those that do not go out.
pub(crate) fn send_all<A: Allocator + Copy, P: Post, T: Wait>(
    rt: &T,
    alloc: A,
    replies: &[Message<A>],
    post: &mut P,
) -> Missed
    requires { length replies.now < 2 ^ 64 }
    ensures { AreSent P.receives P.sends P.rests post.old post.new replies.now result.unsent result.lost }
{
    let (mut unsent, mut lost) = (0u64, 0u64);
    for reply in replies {
        match send(rt, alloc, reply, post) {
            Sending::Sent => {}
            Sending::Unsent => unsent += 1,
            Sending::Lost => lost += 1,
        }
    }
    Missed { unsent, lost }
}

// Sends a reply to the replica that it is for, where there is memory for its bytes.
fn send<A: Allocator + Copy, P: Post, T: Wait>(
    rt: &T,
    alloc: A,
    reply: &Message<A>,
    post: &mut P,
) -> Sending
    ensures sent { result ≡ Sending.Sent → IsSent P.sends post.old post.new (message_of reply.now) }
    ensures unsent { result ≡ Sending.Unsent → P.rests post.old post.new }
    ensures lost { result ≡ Sending.Lost → post.new ≡ post.old }
{
    let (Some(name), Ok(bytes)) = (reply.addressee(), encode(alloc, reply)) else {
        return Sending::Lost;
    };
    if post.send(rt, name, &bytes) {
        Sending::Sent
    } else {
        Sending::Unsent
    }
}
