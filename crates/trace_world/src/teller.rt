ghost use Rattle.std.specs.Prelude.{◌≡◌, ◌⊎◌, [], ◌∷◌, codes, false, true, IfOk, IfErr};
ghost use Rattle.delta_ops.specs.LiveMap.{store_state};
ghost use Rattle.dots.specs.Dot.{DotValue};
ghost use Rattle.hash_path.specs.Fnv1a.{fnv1a};
ghost use Rattle.op_model.specs.Place.{Place, place_of};
ghost use Rattle.replica_model.specs.Crashing.{Saves, Crashes};
ghost use Rattle.replica_model.specs.Step as step;
ghost use Rattle.replica_model.specs.World as model;
ghost use Rattle.replica_model.specs.World.{is_node, nothing, Runs};
ghost use Rattle.replica_core.specs.Writing.{call_value};
ghost use Rattle.replica_world.specs.Held.{events_of};
ghost use Rattle.trace_words.specs.Parsed.{command_value};
ghost use Rattle.trace_world.specs.Outcome.{Done, at_replica, with_bytes, is_at_world, Comes, IsEvent, IsCall, ReadsValues, ReadsFields, ReadsKeys, ReadsSize, ReadsContext, ReadsDigest};

use crate::reading::{read_context, read_digest, read_fields, read_keys, read_size, read_values};
use crate::telling::tell;
use crate::texts::{field_of, key_of, put_of};
use delta_ops::LiveStore;
use dots::{Name, Refusal};
use hash_path::Fnv1a;
use prefix_digest::ShaSummary;
use replica_core::Call;
use replica_world::{Event, World};
use std::alloc::{Allocator, Global};
use std::marker::Model;
use std::snapshot::Snapshot;
use trace_words::Command;

/// The replicas with the text of each command at them. It is seen as the events that it holds.
#[derive(Drop)]
pub(crate) struct Teller<A: Allocator + Copy = Global> {
    alloc: A,
    world: World<Fnv1a, A>,
}

impl<A: Allocator + Copy> Model for Teller<A> {
    ghost use Rattle.std.specs.Prelude.{List};
    ghost use Rattle.replica_world.specs.Held.{Held};

    ghost Value = { List Held };

    ghost view = { λ d. d.world.held };
}

impl<A: Allocator + Copy> Teller<A> {
    ghost use Rattle.trace_world.specs.Does.{Does, In, IsThere, IsAbsent};

    /// No replica yet. Takes no memory.
    pub fn new(alloc: A) -> Teller<A>
        ensures { result ≡ [] }
    {
        Teller {
            alloc,
            world: World::new(alloc, Fnv1a),
        }
    }

    /// What is held, for clauses alone, and that there is a world after it. Takes constant time.
    pub fn moment(&self) -> Snapshot<Teller<A>>
        ensures value { result.value ≡ self.now }
        ensures runs { (w : model.World) × Runs fnv1a nothing (events_of self.now) w }
    {
        // proof: that there is a world stands in a clause of `past`.
        let _ = self.world.past();
        Snapshot::of(self)
    }

    /// Does what the command asks, which speaks of no pin: the text that it is answered, or the refusal that it meets.
    pub fn obey(&mut self, command: Command<A>) -> Result<Vec<u8, A>, Refusal>
        requires { is_at_world (command_value command) ≡ true }
        ensures { Does (In self.old (λ w. Comes fnv1a w [] (command_value command))) self.old self.new result }
    {
        match command {
            Command::Node(name) => self.node(name),
            Command::Put {
                name,
                key,
                field,
                value,
            } => self.put(name, key.as_slice(), field.as_slice(), value.as_slice()),
            Command::Get { name, key, field } => self.get(name, key.as_slice(), field.as_slice()),
            Command::Flush(name) => self.call(name, Call::Flush),
            Command::Deliver { message, name } => self.deliver(message, name),
            Command::Sync { name, peer } => self.call(name, Call::Ask(peer)),
            Command::Retry { name, session } => self.call(name, Call::Retry(session)),
            Command::Abandon { name, session } => self.call(name, Call::Abandon(session)),
            Command::Remove { name, key } => self.remove(name, key.as_slice()),
            Command::RemoveField { name, key, field } => {
                self.remove_field(name, key.as_slice(), field.as_slice())
            }
            Command::Clear(name) => self.call(name, Call::Clear),
            Command::Fields { name, key } => self.fields(name, key.as_slice()),
            Command::Show(name) => self.show(name),
            Command::Size(name) => self.size(name),
            Command::Context(name) => self.context(name),
            Command::Digest(name) => self.digest(name),
            Command::Save(name) => self.save(name),
            Command::Crash(name) => self.crash(name),
            Command::Pin(_) | Command::Look { .. } => unreachable!(),
        }
    }

    /// What the replica of this name holds, which stays so. Its refusals are UnknownReplica, only where no replica has the name, and OutOfMemory.
    pub fn store(&self, name: Name) -> Result<LiveStore<ShaSummary, Fnv1a, A>, Refusal>
        ensures ok { IfOk result (λ store. (w : model.World) → Runs fnv1a nothing (events_of self.now) w → (is_node w name ≡ true)
            × ((place : Place) (dot : DotValue) → (store_state store).at place dot ≡ (w.replica name).live.at place dot)) }
        ensures refused { IfErr result (λ refusal. (refusal ≡ Refusal.OutOfMemory) ⊎
            ((refusal ≡ Refusal.UnknownReplica) × ((w : model.World) → Runs fnv1a nothing (events_of self.now) w → is_node w name ≡ false))) }
    {
        match self.world.replica(name) {
            Some(replica) => replica.share(),
            None => Err(Refusal::UnknownReplica),
        }
    }

    fn has_replica(&self, name: Name) -> bool
        ensures there { result ≡ true → IsThere self.now name }
        ensures absent { result ≡ false → IsAbsent self.now name }
    {
        match self.world.replica(name) {
            Some(_) => true,
            None => false,
        }
    }

    /// The refusal of a text of a command at this replica: that the replica is not there comes first.
    fn or_unknown(&self, name: Name, refusal: Refusal) -> Refusal
        ensures { ((result ≡ refusal) × IsThere self.now name) ⊎ ((result ≡ Refusal.UnknownReplica) × IsAbsent self.now name) }
    {
        if self.has_replica(name) {
            refusal
        } else {
            Refusal::UnknownReplica
        }
    }

    fn node(&mut self, name: Name) -> Result<Vec<u8, A>, Refusal>
        ensures { Does (In self.old (λ w. IsEvent fnv1a w (model.Node name))) self.old self.new result }
    {
        if let Err(refusal) = self.world.event(Event::Node(name)) {
            return Err(refusal);
        }
        Ok(Vec::from_slice(self.alloc, b"ok")?)
    }

    fn save(&mut self, name: Name) -> Result<Vec<u8, A>, Refusal>
        ensures { Does (In self.old (λ w. at_replica w name (λ o. o ≡ Done (codes "ok") (Saves name ∷ [])))) self.old self.new result }
    {
        if let Err(refusal) = self.world.save(name) {
            return Err(refusal);
        }
        Ok(Vec::from_slice(self.alloc, b"ok")?)
    }

    fn crash(&mut self, name: Name) -> Result<Vec<u8, A>, Refusal>
        ensures { Does (In self.old (λ w. at_replica w name (λ o. o ≡ Done (codes "ok") (Crashes name ∷ [])))) self.old self.new result }
    {
        if let Err(refusal) = self.world.crash(name) {
            return Err(refusal);
        }
        Ok(Vec::from_slice(self.alloc, b"ok")?)
    }

    fn call(&mut self, name: Name, call: Call<A>) -> Result<Vec<u8, A>, Refusal>
        ensures { Does (In self.old (λ w. IsCall fnv1a w name (call_value call))) self.old self.new result }
    {
        let told = match self.world.event(Event::Call(name, call)) {
            Ok(told) => told,
            Err(refusal) => return Err(refusal),
        };
        tell(
            self.alloc,
            &self.world,
            told.answer,
            told.made.start,
            told.made.end,
        )
    }

    fn deliver(&mut self, message: u64, name: Name) -> Result<Vec<u8, A>, Refusal>
        ensures { Does (In self.old (λ w. IsEvent fnv1a w (model.Deliver message name))) self.old self.new result }
    {
        let told = match self.world.event(Event::Deliver(message, name)) {
            Ok(told) => told,
            Err(refusal) => return Err(refusal),
        };
        tell(
            self.alloc,
            &self.world,
            told.answer,
            told.made.start,
            told.made.end,
        )
    }

    fn put(
        &mut self,
        name: Name,
        key: &[u8],
        field: &[u8],
        value: &[u8],
    ) -> Result<Vec<u8, A>, Refusal>
        ensures { Does (In self.old (λ w. at_replica w name (with_bytes key.now (with_bytes field.now (with_bytes value.now
            (IsCall fnv1a w name (step.Put (place_of key.now field.now) value.now))))))) self.old self.new result }
    {
        match put_of(self.alloc, key, field, value) {
            Ok(call) => self.call(name, call),
            Err(refusal) => Err(self.or_unknown(name, refusal)),
        }
    }

    fn remove(&mut self, name: Name, key: &[u8]) -> Result<Vec<u8, A>, Refusal>
        ensures { Does (In self.old (λ w. at_replica w name (with_bytes key.now (IsCall fnv1a w name (step.Remove key.now))))) self.old self.new result }
    {
        if !self.has_replica(name) {
            return Err(Refusal::UnknownReplica);
        }
        let key = key_of(self.alloc, key)?;
        self.call(name, Call::Remove(key))
    }

    fn remove_field(&mut self, name: Name, key: &[u8], field: &[u8]) -> Result<Vec<u8, A>, Refusal>
        ensures { Does (In self.old (λ w. at_replica w name (with_bytes key.now (with_bytes field.now
            (IsCall fnv1a w name (step.RemoveField (place_of key.now field.now))))))) self.old self.new result }
    {
        if !self.has_replica(name) {
            return Err(Refusal::UnknownReplica);
        }
        let key = key_of(self.alloc, key)?;
        let field = field_of(self.alloc, field)?;
        self.call(name, Call::RemoveField(key, field))
    }

    fn get(&self, name: Name, key: &[u8], field: &[u8]) -> Result<Vec<u8, A>, Refusal>
        ensures { Does (In self.now (λ w. at_replica w name (with_bytes key.now (with_bytes field.now
            (ReadsValues (place_of key.now field.now) (w.replica name).live))))) self.now self.now result }
    {
        match self.world.replica(name) {
            Some(replica) => read_values(self.alloc, replica, key, field),
            None => Err(Refusal::UnknownReplica),
        }
    }

    fn fields(&self, name: Name, key: &[u8]) -> Result<Vec<u8, A>, Refusal>
        ensures { Does (In self.now (λ w. at_replica w name (with_bytes key.now (ReadsFields key.now (w.replica name).live)))) self.now self.now result }
    {
        match self.world.replica(name) {
            Some(replica) => read_fields(self.alloc, replica, key),
            None => Err(Refusal::UnknownReplica),
        }
    }

    fn show(&self, name: Name) -> Result<Vec<u8, A>, Refusal>
        ensures { Does (In self.now (λ w. at_replica w name (ReadsKeys (w.replica name).live))) self.now self.now result }
    {
        match self.world.replica(name) {
            Some(replica) => read_keys(self.alloc, replica),
            None => Err(Refusal::UnknownReplica),
        }
    }

    fn size(&self, name: Name) -> Result<Vec<u8, A>, Refusal>
        ensures { Does (In self.now (λ w. at_replica w name (ReadsSize (w.replica name).live))) self.now self.now result }
    {
        match self.world.replica(name) {
            Some(replica) => read_size(self.alloc, replica),
            None => Err(Refusal::UnknownReplica),
        }
    }

    fn context(&self, name: Name) -> Result<Vec<u8, A>, Refusal>
        ensures { Does (In self.now (λ w. at_replica w name (ReadsContext (w.replica name).live))) self.now self.now result }
    {
        match self.world.replica(name) {
            Some(replica) => read_context(self.alloc, replica),
            None => Err(Refusal::UnknownReplica),
        }
    }

    fn digest(&self, name: Name) -> Result<Vec<u8, A>, Refusal>
        ensures { Does (In self.now (λ w. at_replica w name (ReadsDigest fnv1a (w.replica name).live))) self.now self.now result }
    {
        match self.world.replica(name) {
            Some(replica) => read_digest(self.alloc, replica),
            None => Err(Refusal::UnknownReplica),
        }
    }
}
