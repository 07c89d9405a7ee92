ghost use Rattle.std.specs.Prelude.{◌≡◌, ◌-◌, [], map, nat_lt, if◌then◌else◌, true, false, Some, None, IfOk, IfErr, OnOk, OnErr, IfSome, IsNone, IsOkUnless};
ghost use Rattle.std.specs.List.{slice_get};
ghost use Rattle.std.specs.Option.{option_copied};
ghost use Rattle.dots.specs.declared.refusal.Refusal.TheVariants.{OutOfMemory};
ghost use Rattle.wire_form.specs.Message.{message_of};
ghost use Rattle.op_model.specs.Meaning.{state};
ghost use Rattle.replica_model.specs.Laws.{MeansMail};
ghost use Rattle.replica_model.specs.Mail.{mail_of};
ghost use Rattle.replica_model.specs.Accounts.{IsAccountOf};
ghost use Rattle.replica_model.specs.Seen as told;
ghost use Rattle.replica_model.specs.Spelled.{IsSpelled};
ghost use Rattle.replica_model.specs.World as model;
ghost use Rattle.replica_model.specs.World.{nothing, is_node, message_at, Runs, Unclashed};
ghost use Rattle.replica_core.specs.Meaning.{hash_in, meaning};
ghost use Rattle.replica_world.specs.Accepting.{Accepts, IsTold};
ghost use Rattle.replica_world.specs.Refused.{IsRefusedIn, IsNodeAfter, IsRefusedAt};
ghost use Rattle.replica_core.specs.Showing.{ShowsOperations};

use crate::accepted::Accepted;
use crate::answer::Answer;
use crate::delivering::read;
use crate::event::Event;
use crate::happening::happen;
use crate::posted::Posted;
use crate::preparing::{ready, recovered, take_back};
use crate::recovery::Recovery;
use crate::saving::{further, is_to_be_saved, make_place, put_back, save_once, settle};
use crate::told::Told;
use dots::{Name, Refusal};
use hash_path::{Fnv1a, PathHash};
use replica_core::Replica;
use std::alloc::{Allocator, Global};
use std::collections::BTreeMap;
use std::marker::Model;
use wire_form::Message;

/// A world of replicas and of the messages between them: what a program runs that tries what replicas do, or carries their messages itself.
///
/// Every message is kept as its bytes, from message 1 on, and may be delivered to any replica, any number of times or never. The accepted
/// events are kept too, so that a past can be told: they take memory in what they say.
#[derive(Drop)]
pub struct World<H: PathHash = Fnv1a, A: Allocator + Copy = Global> {
    alloc: A,
    hash: H,
    replicas: BTreeMap<Name, Replica<H, A>, A>,
    posted: Posted<A>,
    past: Vec<Accepted<A>, A>,
    kept: BTreeMap<Name, Recovery<H, A>, A>,
}

impl<H: PathHash, A: Allocator + Copy> Model for World<H, A> {
    ghost use Rattle.std.specs.Prelude.{map};
    ghost use Rattle.replica_world.specs.Keeping.{WorldValue, IsWorld};
    ghost use Rattle.replica_world.specs.Held.{IsKept, happened_in, held_in};
    ghost use Rattle.replica_world.specs.Kept.{accepted_value, back_in, saves_in};

    ghost Value = { WorldValue H };

    ghost view = { λ w. record { hash = w.hash; messages = w.posted; held = held_in (saves_in w.kept) (map accepted_value w.past.items) } };

    ghost invariant = { λ w. IsWorld H.hash_of w.hash w.replicas w.posted (happened_in (held_in (saves_in w.kept) (map accepted_value w.past.items))) × IsKept (H.hash_of w.hash) (saves_in w.kept) (back_in w.kept) (map accepted_value w.past.items) };
}

impl<H: PathHash, A: Allocator + Copy> World<H, A> {
    ghost use Rattle.replica_world.specs.Happening.{answer_value, event_value, happened_value};
    ghost use Rattle.replica_world.specs.Held.{after, happened_in};
    ghost use Rattle.replica_world.specs.Keeping.{account_of, past_of};
    ghost use Rattle.replica_world.specs.Reading.{IsThere};
    ghost use Rattle.replica_model.specs.Crashing.{Saves, Crashes};

    /// The world with no replica and no message, whose replicas' keys have their paths by this hash. Takes no memory.
    pub fn new(alloc: A, hash: H) -> World<H, A>
        ensures { result ≡ record { hash = hash; messages = []; held = [] } }
    {
        World {
            alloc,
            hash,
            replicas: BTreeMap::new(alloc),
            posted: Posted::new(alloc),
            past: Vec::new(alloc),
            kept: BTreeMap::new(alloc),
        }
    }

    /// Makes the event happen, and tells what it was answered and which messages it made.
    ///
    /// Its refusals are NameTaken, just where a new replica has the name of one that is there; UnknownReplica, just where a call, its peer, a
    /// delivery or a restart is for one that is not there; UnknownMessage, just where else no message has the number; those of the replica's
    /// call; and OutOfMemory, only where none of these comes first. A refused event changes nothing and is not kept in the past. Takes what the
    /// call takes, and the logarithm of the number of replicas; of a delivery also the decoding of its message; of what is sent its bytes; and
    /// of the first event of a replica since it was saved a checkpoint of it. These and the event are kept as long as the world.
    ///
    /// A new replica is saved, and one is with each event that sends something or takes a synchronisation further, before its messages go out.
    pub fn event(&mut self, event: Event<A>) -> Result<Told, Refusal>
        ensures ok { IfOk result (λ told. Accepts self.old (event_value event) (answer_value told.answer) told.made.start told.made.end self.new) }
        ensures happened { IfOk result (λ told. (w : model.World) → Runs (H.hash_of self.old.hash) nothing (past_of self.old) w
            → IsTold (H.hash_of self.old.hash) w (event_value event) (answer_value told.answer) told.made.start told.made.end) }
        ensures refused { IfErr result (λ refusal. (w : model.World) → Runs (H.hash_of self.old.hash) nothing (past_of self.old) w
            → IsRefusedIn w (event_value event) refusal) }
        ensures unchanged { OnErr result (self.new ≡ self.old) }
    {
        let first = self.posted.len() + 1;
        if let Err(refusal) = ready(
            &self.replicas,
            &self.posted,
            &mut self.kept,
            &mut self.past,
            &event,
        ) {
            drop(event);
            return Err(refusal);
        }
        let answer = match happen(
            self.alloc,
            self.hash,
            &mut self.replicas,
            &mut self.posted,
            &event,
        ) {
            Ok(answer) => answer,
            Err(refusal) => {
                drop(event);
                return Err(refusal);
            }
        };
        let end = self.posted.len() + 1;
        let (answer, is_further) = further(answer);
        let sent = end - first;
        let is_saved = is_to_be_saved(&event, is_further, sent != 0);
        let saves = settle(&mut self.kept, event.name(), is_saved);
        let made = first..end;
        let told = Told { answer, made };
        let accepted = Accepted::new(event, told.answer, sent, saves);
        self.past.push(accepted).unwrap();
        Ok(told)
    }

    /// Saves the replica of this name: nothing that it did is lost where it crashes. Takes the logarithm of the number of replicas.
    ///
    /// Its refusals are UnknownReplica, just where no replica has the name, and OutOfMemory; a refused call changes nothing.
    pub fn save(&mut self, name: Name) -> Result<(), Refusal>
        ensures ok { OnOk result (self.new ≡ record { hash = self.old.hash; messages = self.old.messages; held = after self.old.held (Saves name) }) }
        ensures there { OnOk result (IsNodeAfter (H.hash_of self.old.hash) (past_of self.old) name true) }
        ensures refused { IfErr result (IsRefusedAt (H.hash_of self.old.hash) (past_of self.old) name) }
        ensures unchanged { OnErr result (self.new ≡ self.old) }
    {
        if !self.replicas.contains_key(&name) {
            return Err(Refusal::UnknownReplica);
        }
        if let Err(refusal) = make_place(&mut self.kept, name) {
            return Err(refusal);
        }
        let _ = save_once(&mut self.kept, name);
        Ok(())
    }

    /// The replica of this name crashes, and comes back from what was last saved of it, without its synchronisations and the snapshots that it
    /// kept. What it did since is gone from the past, in which a restart stands for the crash. What it had sent stays.
    ///
    /// Its refusals are UnknownReplica, just where no replica has the name, and OutOfMemory; a refused call changes nothing. Takes time in the
    /// past, and time and memory in all that the replica held, times the logarithm of the map.
    pub fn crash(&mut self, name: Name) -> Result<(), Refusal>
        ensures ok { OnOk result (self.new ≡ record { hash = self.old.hash; messages = self.old.messages; held = after self.old.held (Crashes name) }) }
        ensures there { OnOk result (IsNodeAfter (H.hash_of self.old.hash) (past_of self.old) name true) }
        ensures refused { IfErr result (IsRefusedAt (H.hash_of self.old.hash) (past_of self.old) name) }
        ensures unchanged { OnErr result (self.new ≡ self.old) }
    {
        if !self.replicas.contains_key(&name) {
            return Err(Refusal::UnknownReplica);
        }
        let replica = match recovered(
            self.alloc,
            self.hash,
            &self.replicas,
            &mut self.kept,
            &mut self.past,
            name,
        ) {
            Ok(replica) => replica,
            Err(refusal) => return Err(refusal),
        };
        put_back(&mut self.replicas, name, replica);
        let saves = save_once(&mut self.kept, name);
        take_back(&mut self.past, name, saves);
        let restart = Accepted::new(Event::Restart(name), Answer::Nothing, 0, saves);
        self.past.push(restart).unwrap();
        Ok(())
    }

    /// The replica of this name, if it is there. Takes the logarithm of the number of replicas.
    ///
    /// Unless two pages or two values that one session met have one SHA-256, what it shows is told by the operations that it has seen alone:
    /// at each field of each key just the values of the writes that it has seen and that no operation that it has seen had observed. And what it is
    /// to send is what it made since it last sent.
    pub fn replica(&self, name: Name) -> Option<&Replica<H, A>>
        ensures some { IfSome result (λ replica. (w : model.World) → Runs (H.hash_of self.now.hash) nothing (past_of self.now) w
            → (is_node w name ≡ true) × (meaning replica.now ≡ w.replica name) × (hash_in replica.now ≡ self.now.hash)) }
        ensures none { IsNone result → (w : model.World) → Runs (H.hash_of self.now.hash) nothing (past_of self.now) w → is_node w name ≡ false }
        ensures shown { IfSome result (λ replica. (w : model.World) → Runs (H.hash_of self.now.hash) nothing (past_of self.now) w
            → Unclashed (H.hash_of self.now.hash) w → ShowsOperations (H.hash_of self.now.hash) (meaning replica.now).live (w.seen name)) }
        ensures holds { IfSome result (λ replica. (w : model.World) → Runs (H.hash_of self.now.hash) nothing (past_of self.now) w → Unclashed (H.hash_of self.now.hash) w
            → ((meaning replica.now).live ≡ state (w.seen name)) × ((meaning replica.now).group ≡ state (w.outgoing name))) }
    {
        self.replicas.get(&name)
    }

    // The replica of this name, for a read: what it shows is told by the account.
    pub(crate) fn at(&self, name: Name) -> Result<&Replica<H, A>, Refusal>
        ensures ok { IfOk result (λ replica. IsThere (account_of self.now) name true × (hash_in replica.now ≡ self.now.hash)
            × (told.Unclashed (H.hash_of self.now.hash) (account_of self.now)
            → ShowsOperations (H.hash_of self.now.hash) (meaning replica.now).live ((account_of self.now).seen name))) }
        ensures refused { IfErr result (λ refusal. (refusal ≡ Refusal.UnknownReplica) × IsThere (account_of self.now) name false) }
    {
        match self.replicas.get(&name) {
            Some(replica) => Ok(replica),
            None => Err(Refusal::UnknownReplica),
        }
    }

    /// The bytes of the message of this number, from 1 on, if there is one. Takes constant time, and copies nothing.
    ///
    /// Unless two pages or two values that one session met have one SHA-256, a delta carries just the operations that were to be sent when it
    /// was made, and an opening what its replica had seen when it kept the snapshot.
    pub fn message(&self, number: u64) -> Option<&[u8]>
        ensures bytes { option_copied result ≡ (if nat_lt 0 number then slice_get self.now.messages (number - 1) else None) }
        ensures some { IfSome result (λ bytes. (w : model.World) → Runs (H.hash_of self.now.hash) nothing (past_of self.now) w
            → (m : model.Message) × (message_at w.messages number ≡ Some m) × IsSpelled bytes.now m.mail) }
        ensures carries { IfSome result (λ bytes. (w : model.World) → Runs (H.hash_of self.now.hash) nothing (past_of self.now) w → Unclashed (H.hash_of self.now.hash) w
            → (m : model.Message) × (message_at w.messages number ≡ Some m) × MeansMail (H.hash_of self.now.hash) m.mail m.of.seen) }
        ensures none { IsNone result → (w : model.World) → Runs (H.hash_of self.now.hash) nothing (past_of self.now) w → message_at w.messages number ≡ None }
    {
        self.posted.get(number)
    }

    /// The message of this number, from 1 on, if there is one, read from its bytes; it carries what these carry. Takes what decoding them takes.
    /// Its only refusal is OutOfMemory.
    pub fn read(&self, number: u64) -> Result<Option<Message<A>>, Refusal>
        ensures some { IfOk result (λ found. IfSome found (λ message. (w : model.World) → Runs (H.hash_of self.now.hash) nothing (past_of self.now) w
            → (m : model.Message) × (message_at w.messages number ≡ Some m) × (mail_of (message_of message) ≡ m.mail))) }
        ensures carries { IfOk result (λ found. IfSome found (λ message. (w : model.World) → Runs (H.hash_of self.now.hash) nothing (past_of self.now) w → Unclashed (H.hash_of self.now.hash) w
            → (m : model.Message) × (message_at w.messages number ≡ Some m) × MeansMail (H.hash_of self.now.hash) (mail_of (message_of message)) m.of.seen)) }
        ensures none { IfOk result (λ found. IsNone found → (w : model.World) → Runs (H.hash_of self.now.hash) nothing (past_of self.now) w
            → message_at w.messages number ≡ None) }
        ensures refused { IsOkUnless result OutOfMemory }
    {
        let Some(bytes) = self.message(number) else {
            return Ok(None);
        };
        match read(self.alloc, bytes) {
            Ok(message) => Ok(Some(message)),
            Err(refusal) => Err(refusal),
        }
    }

    /// What happened and no crash took away, in its order: each event with its answer and with how many messages it sent. Takes constant time, and
    /// copies nothing.
    pub fn past(&self) -> &[Accepted<A>]
        ensures list { map happened_value result.now ≡ happened_in self.now.held }
        ensures runs { (w : model.World) × Runs (H.hash_of self.now.hash) nothing (past_of self.now) w }
        ensures account { (w : model.World) → Runs (H.hash_of self.now.hash) nothing (past_of self.now) w → IsAccountOf (H.hash_of self.now.hash) (account_of self.now) w }
    {
        self.past.as_slice()
    }
}
