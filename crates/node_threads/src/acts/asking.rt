// What a client does with the own synchronisations of its node.
ghost use Rattle.std.specs.Prelude.{[], ◌∷◌, refl};
ghost use Rattle.wire_form.specs.Message.{message_of};
ghost use Rattle.replica_core.specs.Answered.{outcome_of};
ghost use Rattle.replica_core.specs.Stepping.{mails_of};
ghost use Rattle.replica_model.specs.Mail.{mail_of};
ghost use Rattle.replica_model.specs.Step.{Came, Closed, Numbered};
ghost use Rattle.replica_model.specs.Step as step;
ghost use Rattle.replica_core.specs.declared.call.Call.TheVariants as call;
ghost use Rattle.node_threads.specs.declared.deed.Deed.TheVariants as deed;
ghost use Rattle.node_threads.specs.History.{NeverRefuses, RefusesAfter, Replies};

use crate::named::{Named, Naming, Root};
use crate::showing::{place_for, show};
use dots::{Name, Refusal};
use hash_path::Fnv1a;
use replica_core::{Delivered, Replica};
use shared_object::Update;
use std::alloc::Allocator;
use std::sync::{Arc, Wait};
use wire_form::Message;

/// Opens a synchronisation with a peer, as `Replica::ask`. The reply is its number and its hello.
///
/// Its refusals are SessionsFull, just where eight are open, NumbersSpent, just where else no number is left, and else OutOfMemory. Takes what that
/// call takes, and a root.
#[derive(Drop)]
pub struct Asking<A: Allocator + Copy> {
    /// Where memory for the root is taken.
    pub alloc: A,
    /// The peer.
    pub peer: Name,
}

impl<K: Naming, A: Allocator + Copy> Update<Named<K, A>, A> for Asking<A> {
    type Reply = (u64, Message<A>);

    ghost event = { λ c reply place. record { place = place; deeds = deed.Call (call.Ask c.peer) ∷ [] } };

    ghost answers = { λ c history asked. Replies K.first history (deed.Call (call.Ask c.peer)) (Numbered asked.0) (mail_of (message_of asked.1) ∷ []) };

    ghost refuses = { λ c history refusal. RefusesAfter K.first history (step.Ask c.peer) refusal };

    fn update<W: Wait>(
        &self,
        rt: &W,
        replica: &mut Replica<Fnv1a, A>,
    ) -> Result<((u64, Message<A>), Arc<Root<A>, A>), Refusal> {
        if let Some(refusal) = replica.ask_refusal() {
            return Err(refusal);
        }
        let place = match place_for(self.alloc, replica) {
            Ok(place) => place,
            Err(refusal) => return Err(refusal),
        };
        match replica.ask(self.peer) {
            Ok(reply) => {
                let root = show(rt, replica, place);
                Ok((reply, root))
            }
            Err(refusal) => Err(refusal),
        }
    }

    ghost placed = { λ c reply place. refl };
}

/// Sends a synchronisation's messages again, as `Replica::retry`: its hello, or an ask for each page that it waits for. The reply is what came of it.
///
/// Its only refusal is OutOfMemory. Takes what that call takes, and a root.
#[derive(Drop)]
pub struct Retrying<A: Allocator + Copy> {
    /// Where memory for the root is taken.
    pub alloc: A,
    /// The synchronisation's number.
    pub number: u64,
}

impl<K: Naming, A: Allocator + Copy> Update<Named<K, A>, A> for Retrying<A> {
    type Reply = Delivered<A>;

    ghost event = { λ c reply place. record { place = place; deeds = deed.Call (call.Retry c.number) ∷ [] } };

    ghost answers = { λ c history told. Replies K.first history (deed.Call (call.Retry c.number)) (Came (outcome_of told.outcome)) (mails_of told.replies.items) };

    ghost refuses = { λ c history refusal. NeverRefuses history refusal };

    fn update<W: Wait>(
        &self,
        rt: &W,
        replica: &mut Replica<Fnv1a, A>,
    ) -> Result<(Delivered<A>, Arc<Root<A>, A>), Refusal> {
        let place = place_for(self.alloc, replica)?;
        let reply = replica.retry(self.number)?;
        let root = show(rt, replica, place);
        Ok((reply, root))
    }

    ghost placed = { λ c reply place. refl };
}

/// Gives a synchronisation up, as `Replica::abandon`. The reply is whether one of this number was open.
///
/// Its only refusal is OutOfMemory, for the root. Takes what that call takes, and a root.
#[derive(Drop)]
pub struct Abandoning<A: Allocator + Copy> {
    /// Where memory for the root is taken.
    pub alloc: A,
    /// The synchronisation's number.
    pub number: u64,
}

impl<K: Naming, A: Allocator + Copy> Update<Named<K, A>, A> for Abandoning<A> {
    type Reply = bool;

    ghost event = { λ c reply place. record { place = place; deeds = deed.Call (call.Abandon c.number) ∷ [] } };

    ghost answers = { λ c history was_open. Replies K.first history (deed.Call (call.Abandon c.number)) (Closed was_open) [] };

    ghost refuses = { λ c history refusal. NeverRefuses history refusal };

    fn update<W: Wait>(
        &self,
        rt: &W,
        replica: &mut Replica<Fnv1a, A>,
    ) -> Result<(bool, Arc<Root<A>, A>), Refusal> {
        let place = place_for(self.alloc, replica)?;
        let reply = replica.abandon(self.number);
        let root = show(rt, replica, place);
        Ok((reply, root))
    }

    ghost placed = { λ c reply place. refl };
}
