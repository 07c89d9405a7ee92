// What the end of an own session brings, as a delta.
ghost use Rattle.std.specs.Prelude.{◌≡◌, ℕ, List, IsTrue, Option, Some, IfSome, IfOk, IsOkUnless};
ghost use Rattle.std.specs.FinMap as finite;
ghost use Rattle.std.specs.List.{slice_get};
ghost use Rattle.causal_context.specs.Context.{ContextValue, has};
ghost use Rattle.causal_join.specs.OrMap.{or_map_state};
ghost use Rattle.op_model.specs.Meaning.{greater};
ghost use Rattle.op_model.specs.State.{join};
ghost use Rattle.wire_form.specs.Message.{message_of};
ghost use Rattle.wire_form.specs.Message as form;
ghost use Rattle.wire_form.specs.Sent.{SentValue};
ghost use Rattle.sync_model.specs.Closing.{IsBelow};
ghost use Rattle.sync_model.specs.Closing as closing;
ghost use Rattle.sync_model.specs.Laws.{KnowsEachDot};
ghost use Rattle.page_fetching.specs.Building.{GoesOn};
ghost use Rattle.sync_protocol.specs.Asking.{AskerValue, asker_state};
ghost use Rattle.sync_protocol.specs.Turning as turning;
ghost use Rattle.sync_protocol.specs.Turns.{step_of};
ghost use Rattle.replica_model.specs.Mail.{mail_of};
ghost use Rattle.replica_core.specs.Bringing.{Brings, IsClosing};
ghost use Rattle.replica_core.specs.Meaning.{hash_in, meaning};
ghost use Rattle.replica_core.specs.Turned.{closed_with};
ghost use Rattle.replica_core.specs.Turning.{CanTake, IsShown};

use crate::replica::Replica;
use crate::sessions::place_of;
use crate::turning::answered;
use causal_join::OrMap;
use dots::Refusal;
use hash_path::PathHash;
use std::alloc::Allocator;
use sync_protocol::{Asker, Opened, Step, Turn};
use wire_form::{Message, Session};

impl<H: PathHash, A: Allocator + Copy> Replica<H, A> {
    /// What the delivery of this message will join in, where it will end an own synchronisation: a delta that can be kept, or sent, in place
    /// of all that is held. It holds what will stand at the keys that can change, and knows the dots that stand or will stand there and those
    /// that are new. The replica stays as it is.
    ///
    /// None where the delivery ends none; where more dots are new than keys are held, as then all that is held is as short; and where a dot at one
    /// of these keys may stand at another key too, as no exchange of replicas leads to. Its only refusal is OutOfMemory. Takes what `deliver`
    /// takes of such a message, and time and memory in the dots that are new, which are no more than the keys.
    pub fn joined_by(&self, message: &Message<A>) -> Result<Option<OrMap<A>>, Refusal>
        ensures ok { IfOk result (λ found. IfSome found (λ delta. Brings (H.hash_of (hash_in self.now)) (meaning self.now) (mail_of (message_of message.now)) (or_map_state delta))) }
        ensures err { IsOkUnless result Refusal.OutOfMemory }
    {
        match message {
            Message::Opening(session, _, _) => self.joined_by_answer(*session, message),
            Message::Page(session, _) => self.joined_by_answer(*session, message),
            Message::Delta(..) | Message::Hello(..) | Message::Ask(..) | Message::Gone(..) => {
                Ok(None)
            }
        }
    }

    // Of an opening or a page of this session.
    fn joined_by_answer(
        &self,
        session: Session,
        message: &Message<A>,
    ) -> Result<Option<OrMap<A>>, Refusal>
        requires { IsShown session (message_of message.now) }
        ensures ok { IfOk result (λ found. IfSome found (λ delta. Brings (H.hash_of (hash_in self.now)) (meaning self.now) (mail_of (message_of message.now)) (or_map_state delta))) }
        ensures err { IsOkUnless result Refusal.OutOfMemory }
    {
        let Some(place) = place_of(&self.sessions, session) else {
            return Ok(None);
        };
        let turn = answered(self.alloc, &self.sessions[place], message)?;
        self.joined_by_turn(place, turn)
    }

    // Of a turn of the session at this place.
    fn joined_by_turn(&self, place: usize, turn: Turn<H, A>) -> Result<Option<OrMap<A>>, Refusal>
        requires { (a : AskerValue H) × (slice_get self.now.sessions place ≡ Some a) × CanTake H.hash_of a turn.next (step_of turn.step) }
        ensures ok { IfOk result (λ found. IfSome found (λ delta. IsClosing (meaning self.now) (asker_state turn.next) (step_of turn.step) (or_map_state delta))) }
        ensures err { IsOkUnless result Refusal.OutOfMemory }
    {
        let Turn { next, step } = turn;
        if !is_done(step) {
            drop(next);
            return Ok(None);
        }
        self.joined_by_end(place, next)
    }

    // Of the end of the session at this place.
    fn joined_by_end(&self, place: usize, next: Asker<H, A>) -> Result<Option<OrMap<A>>, Refusal>
        requires { (a : AskerValue H) × (slice_get self.now.sessions place ≡ Some a) × CanTake H.hash_of a next turning.Done }
        ensures ok { IfOk result (λ found. IfSome found (λ delta. (closed_with (meaning self.now) (asker_state next).session (asker_state next).stage).live
            ≡ join greater (meaning self.now).live (or_map_state delta))) }
        ensures err { IsOkUnless result Refusal.OutOfMemory }
    {
        prove!(self.is_replica());
        match next.result() {
            Ok(opened) => {
                let delta = self.opened_delta(&opened);
                drop(opened);
                delta
            }
            Err(_) => unreachable!(),
        }
    }

    // Of what a session has built.
    fn opened_delta(&self, opened: &Opened<H, A>) -> Result<Option<OrMap<A>>, Refusal>
        requires below { IsBelow (closing.held_state opened.now.base.map (has opened.now.seen)) (meaning self.now).live }
        requires rest { GoesOn (record { hash = opened.now.base.hash; entries = opened.now.base.map; touched = finite.empty }) opened.now.built }
        requires known { KnowsEachDot (has opened.now.context) opened.now.built.entries }
        ensures ok { IfOk result (λ found. IfSome found (λ delta.
            join greater (meaning self.now).live (closing.held_state opened.now.built.entries (has opened.now.context)) ≡ join greater (meaning self.now).live (or_map_state delta))) }
        ensures err { IsOkUnless result Refusal.OutOfMemory }
    {
        self.live.opened_delta(
            self.alloc,
            &opened.base,
            &opened.seen,
            opened.built.entries(),
            opened.built.touched(),
            &opened.context,
        )
    }
}

// Whether the turn ended its session with all that it asked for.
fn is_done<A: Allocator + Copy>(step: Step<A>) -> bool
    ensures { IsTrue result → step_of step ≡ turning.Done }
{
    match step {
        Step::Done => true,
        Step::Sent(replies) => {
            drop(replies);
            false
        }
        Step::Ignored => false,
        Step::Mismatch => false,
        Step::Gone => false,
    }
}
