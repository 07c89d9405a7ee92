// The own sessions of a replica: one is opened, asked again, and given up.
ghost use Rattle.std.specs.Prelude.{◌≡◌, ◌<◌, ◌≤◌, ◌+◌, ◌++◌, ◌^◌, ◌↔◌, ℕ, [], ◌∷◌, IfSome, IsNone, IfOk, IfErr, OnOk, OnErr, IsOkUnless};
ghost use Rattle.std.specs.Vec.{vec_len, vec_capacity};
ghost use Rattle.wire_form.specs.Message.{message_of};
ghost use Rattle.wire_form.specs.Message as form;
ghost use Rattle.delta_ops.specs.LiveMap.{live_state};
ghost use Rattle.prefix_digest.specs.MapOf.{IsMapOf};
ghost use Rattle.replica_model.specs.Mail.{mail_of};
ghost use Rattle.replica_model.specs.Replica as model;
ghost use Rattle.replica_model.specs.Replica.{opens};
ghost use Rattle.replica_model.specs.Step.{Do, Ask, Retry, Abandon, Came, Closed, Numbered};
ghost use Rattle.sync_protocol.specs.Asking.{Asked};
ghost use Rattle.replica_core.specs.Meaning.{hash_in, meaning, waiting_in};
ghost use Rattle.replica_core.specs.Answered.{outcome_of};
ghost use Rattle.replica_core.specs.Stepping.{Foretells, Steps, Stays, IsRefused, mails_of};

use crate::delivered::Delivered;
use crate::outcome::Outcome;
use crate::replica::Replica;
use crate::sessions::place_numbered;
use delta_ops::LiveOrMap;
use dots::{Name, Refusal};
use hash_path::PathHash;
use prefix_digest::ShaSummary;
use std::alloc::Allocator;
use sync_protocol::{Asker, Outbox, Unposted};
use wire_form::{Message, Session};

// At most so many own synchronisations are open.
const LIMIT: usize = 8;

impl<H: PathHash, A: Allocator + Copy> Replica<H, A> {
    /// The refusal that an ask would meet whatever memory there is, if it meets one: SessionsFull where eight own synchronisations are open,
    /// else NumbersSpent where 2^64 - 1 were opened. Takes constant time, and no memory.
    pub fn ask_refusal(&self) -> Option<Refusal>
        ensures { (peer : ℕ) → Foretells (meaning self.now) (Ask peer) result }
    {
        if self.sessions.len() >= LIMIT {
            return Some(Refusal::SessionsFull);
        }
        if self.opened == u64::MAX {
            return Some(Refusal::NumbersSpent);
        }
        None
    }

    /// Opens a synchronisation with a peer: its number, and the hello that is to be sent to that peer. What it adds in the end is what the
    /// peer had when it answered; meanwhile the replica may be written and read as ever.
    ///
    /// Its refusals are SessionsFull, just where eight of them are open; NumbersSpent, just where fewer are and 2^64 - 1 were opened; and else
    /// OutOfMemory. A refused call changes nothing. Takes time in the nodes that were written since the last synchronisation or answered
    /// hello, at the first in all of them, and copies those that a snapshot shares; and time and memory in the context; not in the map, whose
    /// nodes the session shares.
    pub fn ask(&mut self, peer: Name) -> Result<(u64, Message<A>), Refusal>
        ensures ok { IfOk result (λ asked. Steps H.hash_of self.old self.new (Do (Ask peer)) (Numbered asked.0) (mail_of (message_of asked.1) ∷ [])) }
        ensures refused { IfErr result (IsRefused self.old (Ask peer)) }
        ensures unchanged { OnErr result (Stays self.old self.new) }
    {
        self.ask_to(peer, &mut Unposted)
    }

    /// Opens a synchronisation with a peer, as `ask` does, and posts its hello in this outbox before it is open: where the outbox refuses it,
    /// the call is refused, and neither is changed. Takes what `ask` does, and what the outbox takes, and has the refusals of `ask`.
    pub fn ask_to<O: Outbox<A>>(
        &mut self,
        peer: Name,
        outbox: &mut O,
    ) -> Result<(u64, Message<A>), Refusal>
        ensures ok { IfOk result (λ asked. Steps H.hash_of self.old self.new (Do (Ask peer)) (Numbered asked.0) (mail_of (message_of asked.1) ∷ [])) }
        ensures posted { IfOk result (λ asked. O.gains outbox.old outbox.new (message_of asked.1 ∷ [])) }
        ensures unposted { OnErr result (outbox.new ≡ outbox.old) }
        ensures refused { IfErr result (IsRefused self.old (Ask peer)) }
        ensures unchanged { OnErr result (Stays self.old self.new) }
    {
        if self.sessions.len() >= LIMIT {
            return Err(Refusal::SessionsFull);
        }
        let Some(session) = self.next_session(peer) else {
            return Err(Refusal::NumbersSpent);
        };
        match self.open(session, outbox) {
            Ok(hello) => Ok((session.number(), hello)),
            Err(refusal) => Err(refusal),
        }
    }

    /// What is to be sent again for the own synchronisation of this number, where messages may have been lost: its hello, where nothing
    /// was accepted yet, else an ask for each page that is waited for. Where none of this number is open it is ignored.
    ///
    /// Its only refusal is OutOfMemory. Takes time and memory in the context, or in the pages that are waited for.
    pub fn retry(&self, number: u64) -> Result<Delivered<A>, Refusal>
        ensures ok { IfOk result (λ sent. Steps H.hash_of self.now self.now (Do (Retry number)) (Came (outcome_of sent.outcome)) (mails_of sent.replies.items)) }
        ensures refused { IsOkUnless result Refusal.OutOfMemory }
    {
        let Some(place) = place_numbered(&self.sessions, number) else {
            return Ok(Delivered::silent(self.alloc, Outcome::Ignored));
        };
        let replies = self.sessions[place].retry(self.alloc)?;
        Ok(Delivered {
            outcome: Outcome::Sent,
            replies,
        })
    }

    /// Gives up the own synchronisation of this number, which adds nothing then, and tells whether it was open. Takes a look among eight, and
    /// no memory; what it alone had built is let go.
    pub fn abandon(&mut self, number: u64) -> bool
        ensures { Steps H.hash_of self.old self.new (Do (Abandon number)) (Closed result) [] }
    {
        let Some(place) = place_numbered(&self.sessions, number) else {
            return false;
        };
        self.end(place);
        true
    }

    // The session that is opened next with this peer, or None where no number is left.
    fn next_session(&self, peer: Name) -> Option<Session>
        ensures next { IfSome result (λ session. session ≡ model.next_session (meaning self.now) peer) }
        ensures left { IfSome result (λ session. session.number + 1 ≤ 2 ^ 64) }
        ensures spent { IsNone result → 2 ^ 64 ≤ self.now.opened + 1 }
    {
        let number = self.opened.checked_add(1)?;
        Session::new(self.name, peer, number)
    }

    // Opens this session, which is the next: its hello.
    fn open<O: Outbox<A>>(
        &mut self,
        session: Session,
        outbox: &mut O,
    ) -> Result<Message<A>, Refusal>
        requires { session ≡ model.next_session (meaning self.old) session.answerer }
        ensures ok { OnOk result (meaning self.new ≡ opens (meaning self.old) session.answerer self.old.live.0.0.1) }
        ensures hello { IfOk result (λ hello. message_of hello ≡ form.Hello session self.old.live.0.1) }
        ensures posted { IfOk result (λ hello. O.gains outbox.old outbox.new (message_of hello ∷ [])) }
        ensures unposted { OnErr result (outbox.new ≡ outbox.old) }
        ensures map { OnOk result (IsMapOf self.old.live.0.0.1 (meaning self.old).live) }
        ensures hash { hash_in self.new ≡ hash_in self.old }
        ensures waiting { waiting_in self.new ≡ waiting_in self.old }
        ensures refused { IsOkUnless result Refusal.OutOfMemory }
        ensures unchanged { OnErr result (meaning self.new ≡ meaning self.old) }
    {
        self.live.seal()?;
        self.sessions.reserve(1)?;
        let others = self.sessions.len();
        let hello = begin(self.alloc, session, &self.live, &mut self.sessions)?;
        if let Err(refusal) = outbox.post(self.alloc, &hello) {
            self.sessions.truncate(others);
            drop(hello);
            return Err(refusal);
        }
        self.opened = session.number();
        Ok(hello)
    }
}

// Puts this session of what is held behind the others, for which there is room: its hello. It stands in the list before the hello is posted, as
// a session and a message in hand at once make a long proof.
fn begin<H: PathHash, A: Allocator + Copy>(
    alloc: A,
    session: Session,
    live: &LiveOrMap<ShaSummary, H, A>,
    sessions: &mut Vec<Asker<H, A>, A>,
) -> Result<Message<A>, Refusal>
    requires { vec_len sessions.old < vec_capacity sessions.old }
    ensures session { OnOk result (sessions.new.items ≡ sessions.old.items ++ record { session = session; hash = live.now.0.0.0; own = live.now.0.0.1; seen = live.now.0.1; stage = Asked } ∷ []) }
    ensures hello { IfOk result (λ hello. message_of hello ≡ form.Hello session live.now.0.1) }
    ensures map { OnOk result (IsMapOf live.now.0.0.1 (live_state live.now.0)) }
    ensures refused { IsOkUnless result Refusal.OutOfMemory }
    ensures unchanged { OnErr result (sessions.new ≡ sessions.old) }
{
    let (asker, hello) = Asker::open(alloc, session, live.store(), live.context())?;
    add(sessions, asker);
    Ok(hello)
}

// Puts a session behind the others, for which there is room.
fn add<H: PathHash, A: Allocator + Copy>(sessions: &mut Vec<Asker<H, A>, A>, asker: Asker<H, A>)
    requires { vec_len sessions.old < vec_capacity sessions.old }
    ensures { sessions.new.items ≡ sessions.old.items ++ asker ∷ [] }
{
    match sessions.push(asker) {
        Ok(()) => {}
        Err(_) => unreachable!(),
    }
}
