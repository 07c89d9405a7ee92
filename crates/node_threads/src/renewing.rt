// Synchronisations that send again, as messages may be lost.
ghost use Rattle.std.specs.Prelude.{◌≡◌, ◌-◌, ◌^◌, min, map, List, IsNone, IfSome, IfOk, OnErr, IsOkUnless};
ghost use Rattle.node_threads.specs.declared.node_event.NodeEvent.{NodeEvent};
ghost use Rattle.node_threads.specs.History.{IsAfter};
ghost use Rattle.node_threads.specs.Renewing.{AreSentAgain, IsRetried, IsSentAgain};
ghost use Rattle.node_threads.specs.Serving.{Turn, lost, refused, total, unsent};
ghost use Rattle.replica_core.specs.Answered.{outcome_of};
ghost use Rattle.replica_model.specs.Replica.{Replica};
ghost use Rattle.replica_model.specs.Step.{Came};
ghost use Rattle.shared_object.specs.Calling.{HasNotCalled};
ghost use Rattle.shared_object.specs.History.{Seat};

use crate::acts::Retrying;
use crate::inspecting::SessionListing;
use crate::missed::Missed;
use crate::named::Naming;
use crate::node::{Client, Lock};
use crate::post::Post;
use crate::resent::Resent;
use crate::serving::send_all;
use dots::Refusal;
use replica_core::Delivered;
use shared_object::Gate;
use std::alloc::Allocator;
use std::sync::Wait;
use wire_form::Session;

/// Has each own synchronisation that is open send again what it waits for, by the post: for a node to do from time to time, as messages may be lost, and a
/// peer may have been silent. Those that are opened meanwhile send nothing.
///
/// Its only refusal is OutOfMemory, where there is no memory to tell which are open. It waits for its turn at the node and for the post, and takes a call for
/// each that is open, at most eight.
pub fn send_again<K: Naming, G: Gate + Drop, W: Wait + Drop, A: Allocator + Copy, P: Post, T: Wait>(
    rt: &T,
    alloc: A,
    client: &mut Client<K, Lock<K, G, W, A>, A>,
    post: &mut P,
) -> Result<Resent, Refusal>
    ensures sent { IfOk result (λ told. (seat : Seat _) × (r : Replica) × (steps : List Turn) × HasNotCalled (λ e. e.place) client.old seat × IsAfter K.first seat.front r
        × AreSentAgain P.receives P.sends P.rests K.first post.old post.new seat client.new (map (λ o. o.session.number) r.sessions) steps
        × (told.refused ≡ min (total refused steps) (2 ^ 64 - 1)) × (told.unsent ≡ min (total unsent steps) (2 ^ 64 - 1))
        × (told.lost ≡ min (total lost steps) (2 ^ 64 - 1))) }
    ensures refused { OnErr result (HasNotCalled (λ e. e.place) client.old client.new × (post.new ≡ post.old)) }
    ensures only { IsOkUnless result Refusal.OutOfMemory }
{
    let sessions = client.inspect(rt, &SessionListing)?;
    Ok(send_all_again(rt, alloc, client, &sessions, post))
}

// Has each of these synchronisations send again.
fn send_all_again<K: Naming, G: Gate + Drop, W: Wait + Drop, A: Allocator + Copy, P: Post, T: Wait>(
    rt: &T,
    alloc: A,
    client: &mut Client<K, Lock<K, G, W, A>, A>,
    sessions: &[Session],
    post: &mut P,
) -> Resent
    ensures { (steps : List Turn) × AreSentAgain P.receives P.sends P.rests K.first post.old post.new client.old client.new (map (λ s. s.number) sessions.now) steps
        × (result.refused ≡ min (total refused steps) (2 ^ 64 - 1)) × (result.unsent ≡ min (total unsent steps) (2 ^ 64 - 1))
        × (result.lost ≡ min (total lost steps) (2 ^ 64 - 1)) }
{
    let (mut refused, mut unsent, mut lost) = (0u64, 0u64, 0u64);
    for session in sessions {
        match send_one_again(rt, alloc, client, session.number(), post) {
            Some(missed) => {
                unsent = unsent.saturating_add(missed.unsent);
                lost = lost.saturating_add(missed.lost);
            }
            None => refused = refused.saturating_add(1),
        }
    }
    Resent {
        refused,
        unsent,
        lost,
    }
}

// Has the synchronisation of this number send again: how many of its messages did not go out, or None where it is refused.
fn send_one_again<K: Naming, G: Gate + Drop, W: Wait + Drop, A: Allocator + Copy, P: Post, T: Wait>(
    rt: &T,
    alloc: A,
    client: &mut Client<K, Lock<K, G, W, A>, A>,
    number: u64,
    post: &mut P,
) -> Option<Missed>
    ensures sent { IfSome result (λ missed. IsSentAgain P.receives P.sends P.rests K.first number post.old post.new client.old client.new missed.unsent missed.lost) }
    ensures refused { IsNone result → HasNotCalled (λ e. e.place) client.old client.new × (post.new ≡ post.old) }
{
    match retry(rt, alloc, client, number) {
        Ok(told) => {
            let missed = send_all(rt, alloc, &told.replies, post);
            drop(told);
            Some(missed)
        }
        Err(_) => None,
    }
}

// What the synchronisation of this number is to send again.
fn retry<K: Naming, G: Gate + Drop, W: Wait + Drop, A: Allocator + Copy, T: Wait>(
    rt: &T,
    alloc: A,
    client: &mut Client<K, Lock<K, G, W, A>, A>,
    number: u64,
) -> Result<Delivered<A>, Refusal>
    ensures retried { IfOk result (λ told. IsRetried K.first number client.old client.new (Came (outcome_of told.outcome)) told.replies.items) }
    ensures not_made { OnErr result (HasNotCalled (λ e. e.place) client.old client.new) }
{
    let retrying = Retrying { alloc, number };
    let (told, receipt) = client.call(rt, &retrying)?;
    drop(receipt);
    Ok(told)
}
