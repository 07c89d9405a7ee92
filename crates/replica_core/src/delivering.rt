// What a replica takes in: messages of any kind, from any sender.
ghost use Rattle.std.specs.Prelude.{◌≡◌, ◌⊎◌, [], map, OnOk, IfOk, IfErr, OnErr, IsOkUnless};
ghost use Rattle.causal_context.specs.Context.{has};
ghost use Rattle.causal_join.specs.OrMap.{or_map_state};
ghost use Rattle.wire_form.specs.Message.{MessageValue, Spells, SpellsNone, message_of};
ghost use Rattle.sync_protocol.specs.Posting.{IsPosted};
ghost use Rattle.replica_model.specs.Delivery.{Joined};
ghost use Rattle.replica_model.specs.Mail.{Delta, Hello, Ask, mail_of};
ghost use Rattle.replica_model.specs.Step.{Take, Came};
ghost use Rattle.replica_core.specs.Answered.{outcome_of};
ghost use Rattle.replica_core.specs.Stepping.{Steps, Stays, mails_of};

use crate::delivered::Delivered;
use crate::outcome::Outcome;
use crate::replica::Replica;
use causal_context::Context;
use causal_join::OrMap;
use dots::Refusal;
use hash_path::{PathHash, Prefix};
use std::alloc::Allocator;
use sync_protocol::{Outbox, Unposted};
use wire_form::{Message, Session, decode};

impl<H: PathHash, A: Allocator + Copy> Replica<H, A> {
    /// Takes a message in, in whatever order messages come and however often, and tells what came of it and what is to be sent for it.
    ///
    /// A delta is joined in, and not sent on. A hello that is for this replica is answered with the opening of a snapshot, which is kept for
    /// its synchronisation as one of the last eight, and an ask with the page of that snapshot, or with a gone where it is not kept. An
    /// opening and a page of an own synchronisation that is open take it further: in the end what its peer had is joined in. A gone ends
    /// one. All else is ignored, and what does not fit is a mismatch: neither changes anything.
    ///
    /// Its only refusal is OutOfMemory; a refused call changes nothing. Takes time and memory in the message and in all that stands at the
    /// keys that it touches, times the logarithm of the map and the logarithm of what stands there, and in the contexts; for each dot that
    /// comes or goes, time in the bytes of its key; for a hello also time in the nodes that were written since the last one; for an ask in
    /// the keys that stand alone at a child of its prefix, up to 32; and where a synchronisation ends, time and memory in what differs, the own
    /// keys that the peer lacks among it, as for a delta of it. Of a peer that had not seen all that was seen here it also takes time in
    /// the own entries that stay: for an opening that has the digest of the own map in all of them, and for a page in those under the
    /// children whose digests are the own ones.
    pub fn deliver(&mut self, message: &Message<A>) -> Result<Delivered<A>, Refusal>
        ensures ok { IfOk result (λ told. Steps H.hash_of self.old self.new (Take (mail_of (message_of message.now))) (Came (outcome_of told.outcome)) (mails_of told.replies.items)) }
        ensures refused { IsOkUnless result Refusal.OutOfMemory }
        ensures unchanged { OnErr result (Stays self.old self.new) }
    {
        self.deliver_to(message, &mut Unposted)
    }

    /// Takes a message in, as `deliver` does, and posts what is to be sent for it in this outbox before it changes anything: where the
    /// outbox refuses that, the call is refused, and neither is changed. Takes what `deliver` does, and what the outbox takes; its only
    /// refusal is OutOfMemory.
    pub fn deliver_to<O: Outbox<A>>(
        &mut self,
        message: &Message<A>,
        outbox: &mut O,
    ) -> Result<Delivered<A>, Refusal>
        ensures ok { IfOk result (λ told. Steps H.hash_of self.old self.new (Take (mail_of (message_of message.now))) (Came (outcome_of told.outcome)) (mails_of told.replies.items)) }
        ensures posted { IfOk result (λ told. IsPosted O.gains outbox.old outbox.new (map message_of told.replies.items)) }
        ensures unposted { OnErr result (outbox.new ≡ outbox.old) }
        ensures refused { IsOkUnless result Refusal.OutOfMemory }
        ensures unchanged { OnErr result (Stays self.old self.new) }
    {
        match message {
            Message::Delta(delta) => {
                self.take_delta(delta)?;
                Ok(Delivered::silent(self.alloc, Outcome::Joined))
            }
            Message::Hello(session, seen) => self.take_hello(*session, seen, outbox),
            Message::Ask(session, prefix) => self.take_ask(*session, *prefix, outbox),
            Message::Opening(session, _, _) => self.take_answer(*session, message, outbox),
            Message::Page(session, _) => self.take_answer(*session, message, outbox),
            Message::Gone(session) => self.take_answer(*session, message, outbox),
        }
    }

    /// Takes a message in by its bytes, as `deliver` does.
    ///
    /// Its refusals are NotAMessage, only where the bytes spell no message, and OutOfMemory; a refused call changes nothing. Takes what
    /// `decode` takes of the bytes besides.
    pub fn deliver_bytes(&mut self, bytes: &[u8]) -> Result<Delivered<A>, Refusal>
        ensures ok { IfOk result (λ told. (message : MessageValue) × Spells bytes.now message
            × Steps H.hash_of self.old self.new (Take (mail_of message)) (Came (outcome_of told.outcome)) (mails_of told.replies.items)) }
        ensures refused { IfErr result (λ refusal. (refusal ≡ Refusal.OutOfMemory) ⊎ ((refusal ≡ Refusal.NotAMessage) × SpellsNone bytes.now)) }
        ensures unchanged { OnErr result (Stays self.old self.new) }
    {
        let message = decode(self.alloc, bytes)?;
        let told = self.deliver(&message);
        drop(message);
        told
    }

    // Joins a delta in.
    fn take_delta(&mut self, delta: &OrMap<A>) -> Result<(), Refusal>
        ensures ok { OnOk result (Steps H.hash_of self.old self.new (Take (Delta (or_map_state delta.now))) (Came Joined) []) }
        ensures refused { IsOkUnless result Refusal.OutOfMemory }
        ensures unchanged { OnErr result (Stays self.old self.new) }
    {
        // proof: the clauses `filled` and `canonical` of `store`.
        let _ = self.live.store();
        self.live.join_delta(self.alloc, delta)?;
        Ok(())
    }

    // Joins a delta in, and takes it over.
    pub(crate) fn take_over(&mut self, delta: OrMap<A>) -> Result<(), Refusal>
        ensures ok { OnOk result (Steps H.hash_of self.old self.new (Take (Delta (or_map_state delta))) (Came Joined) []) }
        ensures refused { IsOkUnless result Refusal.OutOfMemory }
        ensures unchanged { OnErr result (Stays self.old self.new) }
    {
        // proof: the clauses `filled` and `canonical` of `store`.
        let _ = self.live.store();
        self.live.take_delta(self.alloc, delta)?;
        Ok(())
    }

    // Answers a hello with the opening of its session's snapshot.
    fn take_hello<O: Outbox<A>>(
        &mut self,
        session: Session,
        seen: &Context<A>,
        outbox: &mut O,
    ) -> Result<Delivered<A>, Refusal>
        ensures ok { IfOk result (λ told. Steps H.hash_of self.old self.new (Take (Hello session (has seen.now))) (Came (outcome_of told.outcome)) (mails_of told.replies.items)) }
        ensures posted { IfOk result (λ told. IsPosted O.gains outbox.old outbox.new (map message_of told.replies.items)) }
        ensures unposted { OnErr result (outbox.new ≡ outbox.old) }
        ensures refused { IsOkUnless result Refusal.OutOfMemory }
        ensures unchanged { OnErr result (Stays self.old self.new) }
    {
        // proof: the clauses `filled` and `canonical` of `store`.
        let _ = self.live.store();
        if session.answerer() != self.name {
            return Ok(Delivered::silent(self.alloc, Outcome::Ignored));
        }
        self.live.seal()?;
        let room = Vec::with_capacity(self.alloc, 1)?;
        let opening = match self.answerer.hello(
            self.alloc,
            session,
            seen,
            self.live.store(),
            self.live.context(),
            outbox,
        ) {
            Ok(opening) => opening,
            Err(refusal) => {
                drop(room);
                return Err(refusal);
            }
        };
        Ok(Delivered::answered(room, opening))
    }

    // Answers an ask with the page of its session's snapshot, if there is one, or with a gone.
    fn take_ask<O: Outbox<A>>(
        &mut self,
        session: Session,
        prefix: Prefix,
        outbox: &mut O,
    ) -> Result<Delivered<A>, Refusal>
        ensures ok { IfOk result (λ told. Steps H.hash_of self.old self.new (Take (Ask session prefix)) (Came (outcome_of told.outcome)) (mails_of told.replies.items)) }
        ensures posted { IfOk result (λ told. IsPosted O.gains outbox.old outbox.new (map message_of told.replies.items)) }
        ensures unposted { OnErr result (outbox.new ≡ outbox.old) }
        ensures refused { IsOkUnless result Refusal.OutOfMemory }
        ensures unchanged { OnErr result (Stays self.old self.new) }
    {
        // proof: the clauses `filled` and `canonical` of `store`.
        let _ = self.live.store();
        if session.answerer() != self.name {
            return Ok(Delivered::silent(self.alloc, Outcome::Ignored));
        }
        let Some(answer) = self.answerer.ask(self.alloc, session, prefix)? else {
            return Ok(Delivered::silent(self.alloc, Outcome::Ignored));
        };
        let told = Delivered::alone(self.alloc, answer)?;
        if let Err(refusal) = outbox.post_all(self.alloc, &told.replies) {
            drop(told);
            return Err(refusal);
        }
        Ok(told)
    }
}
