// How an own session of a replica goes on.
ghost use Rattle.std.specs.Prelude.{◌≡◌, ◌<◌, ◌⊎◌, ℕ, List, [], length, map, slice_set, true, Option, Some, OnOk, IfOk, OnErr, IsOkUnless};
ghost use Rattle.std.specs.FinMap as finite;
ghost use Rattle.std.specs.List.{slice_get};
ghost use Rattle.causal_context.specs.Context.{ContextValue, has};
ghost use Rattle.wire_form.specs.Message.{message_of};
ghost use Rattle.wire_form.specs.Message as form;
ghost use Rattle.wire_form.specs.Sent.{SentValue};
ghost use Rattle.sync_model.specs.Closing.{IsBelow};
ghost use Rattle.sync_model.specs.Closing as closing;
ghost use Rattle.sync_model.specs.Laws.{KnowsEachDot};
ghost use Rattle.page_fetching.specs.Building.{BuiltValue, GoesOn};
ghost use Rattle.sync_protocol.specs.Asking.{AskerValue, Complete, IsFrom, asker_state};
ghost use Rattle.sync_protocol.specs.Posting.{IsPosted};
ghost use Rattle.sync_protocol.specs.Turning as turning;
ghost use Rattle.sync_protocol.specs.Turns.{step_of, turn_of};
ghost use Rattle.replica_model.specs.Delivery as model;
ghost use Rattle.replica_model.specs.Mail.{mail_of};
ghost use Rattle.replica_model.specs.Replica.{advances, closes, joins};
ghost use Rattle.replica_model.specs.Step.{Take, Came};
ghost use Rattle.replica_core.specs.Answered.{outcome_of};
ghost use Rattle.replica_core.specs.Meaning.{hash_in, meaning, open_of, waiting_in};
ghost use Rattle.replica_core.specs.Own.{IsOwn, IsReplica};
ghost use Rattle.replica_core.specs.Stepping.{Steps, Stays, mails_of};
ghost use Rattle.replica_core.specs.Turned.{turned};
ghost use Rattle.replica_core.specs.Turning.{CanTake, IsAnswer, IsGoingOn};
ghost use Rattle.replica_core.specs.Turning as told;

use crate::delivered::Delivered;
use crate::outcome::Outcome;
use crate::replica::Replica;
use crate::sessions::place_of;
use dots::Refusal;
use hash_path::PathHash;
use std::alloc::Allocator;
use sync_protocol::{Asker, Opened, Outbox, Step, Turn};
use wire_form::{Message, Session};

impl<H: PathHash, A: Allocator + Copy> Replica<H, A> {
    // Takes an answer of this session: an opening, a page, or that its answerer does not keep it.
    pub(crate) fn take_answer<O: Outbox<A>>(
        &mut self,
        session: Session,
        message: &Message<A>,
        outbox: &mut O,
    ) -> Result<Delivered<A>, Refusal>
        requires { IsAnswer session (message_of message.now) }
        ensures ok { IfOk result (λ told. Steps H.hash_of self.old self.new (Take (mail_of (message_of message.now))) (Came (outcome_of told.outcome)) (mails_of told.replies.items)) }
        ensures posted { IfOk result (λ told. IsPosted O.gains outbox.old outbox.new (map message_of told.replies.items)) }
        ensures unposted { OnErr result (outbox.new ≡ outbox.old) }
        ensures refused { IsOkUnless result Refusal.OutOfMemory }
        ensures unchanged { OnErr result (Stays self.old self.new) }
    {
        // proof: the clauses `filled` and `canonical` of `store`.
        let _ = self.live.store();
        let Some(place) = place_of(&self.sessions, session) else {
            return Ok(Delivered::silent(self.alloc, Outcome::Ignored));
        };
        let turn = answered(self.alloc, &self.sessions[place], message)?;
        self.take_turn(place, turn, outbox)
    }

    // Puts the session at this place where its turn leads.
    fn take_turn<O: Outbox<A>>(
        &mut self,
        place: usize,
        turn: Turn<H, A>,
        outbox: &mut O,
    ) -> Result<Delivered<A>, Refusal>
        requires { (a : AskerValue H) × (slice_get self.old.sessions place ≡ Some a) × CanTake H.hash_of a turn.next (step_of turn.step) }
        ensures ok { IfOk result (λ told. turned (meaning self.old) (asker_state turn.next) (step_of turn.step) ≡ model.turn (meaning self.new) (outcome_of told.outcome) (mails_of told.replies.items)) }
        ensures posted { IfOk result (λ told. IsPosted O.gains outbox.old outbox.new (map message_of told.replies.items)) }
        ensures unposted { OnErr result (outbox.new ≡ outbox.old) }
        ensures hash { hash_in self.new ≡ hash_in self.old }
        ensures waiting { waiting_in self.new ≡ waiting_in self.old }
        ensures refused { IsOkUnless result Refusal.OutOfMemory }
        ensures unchanged { OnErr result (meaning self.new ≡ meaning self.old) }
    {
        let Turn { next, step } = turn;
        match step {
            Step::Sent(replies) => self.send(place, next, replies, outbox),
            Step::Done => self.close(place, next),
            Step::Ignored => Ok(silent(self.alloc, next, Outcome::Ignored)),
            Step::Mismatch => Ok(silent(self.alloc, next, Outcome::Mismatch)),
            Step::Gone => {
                self.end(place);
                Ok(silent(self.alloc, next, Outcome::Gone))
            }
        }
    }

    // Posts what the session at this place sends, and it goes on as this one.
    fn send<O: Outbox<A>>(
        &mut self,
        place: usize,
        next: Asker<H, A>,
        replies: Vec<Message<A>, A>,
        outbox: &mut O,
    ) -> Result<Delivered<A>, Refusal>
        requires { (a : AskerValue H) × (slice_get self.old.sessions place ≡ Some a) × CanTake H.hash_of a next (turning.Sent (map message_of replies.items)) }
        ensures ok { IfOk result (λ told. turned (meaning self.old) (asker_state next) (turning.Sent (map message_of replies.items)) ≡ model.turn (meaning self.new) (outcome_of told.outcome) (mails_of told.replies.items)) }
        ensures posted { IfOk result (λ told. O.gains outbox.old outbox.new (map message_of told.replies.items)) }
        ensures unposted { OnErr result (outbox.new ≡ outbox.old) }
        ensures hash { hash_in self.new ≡ hash_in self.old }
        ensures waiting { waiting_in self.new ≡ waiting_in self.old }
        ensures refused { IsOkUnless result Refusal.OutOfMemory }
        ensures unchanged { OnErr result (meaning self.new ≡ meaning self.old) }
    {
        if let Err(refusal) = outbox.post_all(self.alloc, replies.as_slice()) {
            drop(next);
            return Err(refusal);
        }
        self.advance(place, next);
        Ok(Delivered {
            outcome: Outcome::Sent,
            replies,
        })
    }

    // The session at this place goes on as this one.
    fn advance(&mut self, place: usize, next: Asker<H, A>)
        requires { (a : AskerValue H) × (slice_get self.old.sessions place ≡ Some a) × (next.session ≡ a.session) × IsFrom a next × IsGoingOn H.hash_of a next }
        ensures step { meaning self.new ≡ advances (meaning self.old) (open_of next) }
        ensures hash { hash_in self.new ≡ hash_in self.old }
        ensures waiting { waiting_in self.new ≡ waiting_in self.old }
    {
        replace(&mut self.sessions, place, next);
    }

    // Takes the session at this place out.
    pub(crate) fn end(&mut self, place: usize)
        requires { (a : AskerValue H) × (slice_get self.old.sessions place ≡ Some a) }
        ensures step { (a : AskerValue H) → slice_get self.old.sessions place ≡ Some a → meaning self.new ≡ closes (meaning self.old) a.session }
        ensures hash { hash_in self.new ≡ hash_in self.old }
        ensures waiting { waiting_in self.new ≡ waiting_in self.old }
    {
        drop(self.sessions.remove(place));
    }

    // Closes the session at this place, which is done: what it built is joined in.
    fn close(&mut self, place: usize, next: Asker<H, A>) -> Result<Delivered<A>, Refusal>
        requires { (a : AskerValue H) × (slice_get self.old.sessions place ≡ Some a) × CanTake H.hash_of a next turning.Done }
        ensures ok { IfOk result (λ told. turned (meaning self.old) (asker_state next) turning.Done ≡ model.turn (meaning self.new) (outcome_of told.outcome) (mails_of told.replies.items)) }
        ensures silent { IfOk result (λ told. told.replies.items ≡ []) }
        ensures hash { hash_in self.new ≡ hash_in self.old }
        ensures waiting { waiting_in self.new ≡ waiting_in self.old }
        ensures refused { IsOkUnless result Refusal.OutOfMemory }
        ensures unchanged { OnErr result (meaning self.new ≡ meaning self.old) }
    {
        prove!(self.is_replica());
        self.join_session(next)?;
        self.end(place);
        Ok(Delivered::silent(self.alloc, Outcome::Done))
    }

    // proof: the invariant of a replica, as a clause.
    pub(crate) fn is_replica(&self) -> bool
        ensures always { result ≡ true }
        ensures replica { IsReplica H.hash_of self.now }
    {
        let _ = self.sessions.len();
        true
    }

    // Joins in what a session gives that is done.
    fn join_session(&mut self, next: Asker<H, A>) -> Result<(), Refusal>
        requires { (a : AskerValue H) × IsOwn H.hash_of self.old.name (hash_in self.old) (meaning self.old).live a × CanTake H.hash_of a next turning.Done }
        ensures ok { OnOk result ((c : ContextValue) → (b : BuiltValue H) → next.stage ≡ Complete c b → meaning self.new ≡ joins (meaning self.old) (closing.held_state b.entries (has c))) }
        ensures sessions { self.new.sessions ≡ self.old.sessions }
        ensures hash { hash_in self.new ≡ hash_in self.old }
        ensures waiting { waiting_in self.new ≡ waiting_in self.old }
        ensures refused { IsOkUnless result Refusal.OutOfMemory }
        ensures unchanged { OnErr result (meaning self.new ≡ meaning self.old) }
    {
        match next.result() {
            Ok(opened) => {
                let joined = self.join_opened(&opened);
                drop(opened);
                joined
            }
            Err(_) => unreachable!(),
        }
    }

    // Joins in what a session has built.
    fn join_opened(&mut self, opened: &Opened<H, A>) -> Result<(), Refusal>
        requires below { IsBelow (closing.held_state opened.now.base.map (has opened.now.seen)) (meaning self.old).live }
        requires rest { GoesOn (record { hash = opened.now.base.hash; entries = opened.now.base.map; touched = finite.empty }) opened.now.built }
        requires known { KnowsEachDot (has opened.now.context) opened.now.built.entries }
        ensures ok { OnOk result (meaning self.new ≡ joins (meaning self.old) (closing.held_state opened.now.built.entries (has opened.now.context))) }
        ensures sessions { self.new.sessions ≡ self.old.sessions }
        ensures hash { hash_in self.new ≡ hash_in self.old }
        ensures waiting { waiting_in self.new ≡ waiting_in self.old }
        ensures refused { IsOkUnless result Refusal.OutOfMemory }
        ensures unchanged { OnErr result (meaning self.new ≡ meaning self.old) }
    {
        let next = self.live.prepare_opened(
            self.alloc,
            &opened.base,
            &opened.seen,
            opened.built.entries(),
            opened.built.touched(),
            &opened.context,
        )?;
        self.live.commit(next);
        Ok(())
    }
}

// What an own session comes to by an answer.
pub(crate) fn answered<H: PathHash, A: Allocator + Copy>(
    alloc: A,
    asker: &Asker<H, A>,
    message: &Message<A>,
) -> Result<Turn<H, A>, Refusal>
    ensures ok { IfOk result (λ turn. turn_of turn ≡ told.answered (H.hash_of asker.now.hash) (asker_state asker.now) (message_of message.now)) }
    ensures from { IfOk result (λ turn. IsFrom asker.now turn.next) }
    ensures err { IsOkUnless result Refusal.OutOfMemory }
{
    match message {
        Message::Opening(..) => asker.on_opening(alloc, message),
        Message::Page(..) => asker.on_page(alloc, message),
        Message::Gone(..) => asker.on_page(alloc, message),
        Message::Delta(..) => asker.on_page(alloc, message),
        Message::Hello(..) => asker.on_page(alloc, message),
        Message::Ask(..) => asker.on_page(alloc, message),
    }
}

// Puts an item in the place of another. It is of any type, as what is seen to be a session makes a long proof.
fn replace<T: Drop, A: Allocator>(items: &mut Vec<T, A>, place: usize, item: T)
    requires { place < length items.old.items }
    ensures { items.new.items ≡ slice_set items.old.items place item }
{
    items[place] = item;
}

// What is told without a reply of a turn whose next state is not taken.
fn silent<H: PathHash, A: Allocator + Copy>(
    alloc: A,
    next: Asker<H, A>,
    outcome: Outcome,
) -> Delivered<A>
    ensures outcome { result.outcome ≡ outcome }
    ensures replies { result.replies.items ≡ [] }
{
    drop(next);
    Delivered::silent(alloc, outcome)
}
