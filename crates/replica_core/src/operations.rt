// The own operations of a replica, and what it is to send of them.
ghost use Rattle.std.specs.Prelude.{◌≡◌, ◌<◌, ◌+◌, ◌-◌, ◌*◌, ◌^◌, ◌↔◌, min, ℕ, List, map, true, [], IsTrue, IfOk, IfErr, OnOk, OnErr, IsOkUnless};
ghost use Rattle.causal_join.specs.OrMap.{or_map_state};
ghost use Rattle.delta_ops.specs.Group.{group_state};
ghost use Rattle.delta_ops.specs.LiveMap.{live_state};
ghost use Rattle.op_model.specs.Meaning.{greater};
ghost use Rattle.op_model.specs.Place.{Place, place_of, plain};
ghost use Rattle.op_model.specs.State.{join};
ghost use Rattle.replica_model.specs.Replica.{makes};
ghost use Rattle.replica_model.specs.Step.{Do, Put, Remove, RemoveField, Clear, Flush, Made, Counted, Nothing, KnowsNone};
ghost use Rattle.replica_alone.specs.Waiting.{Queues};
ghost use Rattle.replica_core.specs.Meaning.{hash_in, meaning, waiting_in};
ghost use Rattle.sync_protocol.specs.Posting.{IsPosted};
ghost use Rattle.replica_core.specs.Stepping.{Foretells, Steps, Stays, IsRefused, mail_or_none, message_or_none};

use crate::replica::Replica;
use causal_join::OrMap;
use delta_ops::{LiveOrMap, Outgoing, clear, put_field, remove, remove_field};
use dots::{Dot, Field, Key, Refusal, Value};
use hash_path::PathHash;
use prefix_digest::ShaSummary;
use std::alloc::Allocator;
use sync_protocol::{Outbox, Unposted};
use wire_form::Message;

impl<H: PathHash, A: Allocator + Copy> Replica<H, A> {
    /// The refusal that a put would meet whatever memory there is, if it meets one: NumbersSpent where no number is left for its dot, as the
    /// greatest known one of the replica's name is 2^64 - 1. Takes time in the logarithm of the context, and no memory.
    pub fn put_refusal(&self) -> Option<Refusal>
        ensures { (place : Place) → (value : List ℕ) → Foretells (meaning self.now) (Put place value) result }
    {
        match self.live.context().next(self.name) {
            Some(_) => None,
            None => Some(Refusal::NumbersSpent),
        }
    }

    /// Writes the value on the key, at its empty field, in the place of the values that stand there; those of its other fields stay. The dot
    /// of the write.
    ///
    /// Its refusals are NumbersSpent, just where no number is left for the dot, and else OutOfMemory; a refused call changes nothing. Takes
    /// look-ups in the map and the context, time and memory in what stands at the field, and time in the number of the key's fields, of
    /// which it moves those that come after; all that stands at the key, and the nodes on the way, where a snapshot shares it. It takes all
    /// that stands at the key too where it has or overwrites the first number of a name, where a lower number of its name is not known,
    /// and where it overwrites more than eight values. What is never flushed is joined into one where it has two writes for each key of
    /// the map, and 1,024 more.
    pub fn put(&mut self, key: &Key<A>, value: &Value<A>) -> Result<Dot, Refusal>
        ensures ok { IfOk result (λ dot. Steps H.hash_of self.old self.new (Do (Put (plain key.now) value.now)) (Made dot) []) }
        ensures refused { IfErr result (IsRefused self.old (Put (plain key.now) value.now)) }
        ensures unchanged { OnErr result (Stays self.old self.new) }
    {
        self.put_field(key, &Field::empty(), value)
    }

    /// Writes the value on the field of the key, in the place of the values that stand there; those of its other fields stay. The dot of the
    /// write.
    ///
    /// Its refusals are NumbersSpent, just where no number is left for the dot, and else OutOfMemory; a refused call changes nothing. Takes
    /// look-ups in the map and the context, time and memory in what stands at the field, and time in the number of the key's fields, of
    /// which it moves those that come after; all that stands at the key, and the nodes on the way, where a snapshot shares it. It takes all
    /// that stands at the key too where it has or overwrites the first number of a name, where a lower number of its name is not known,
    /// and where it overwrites more than eight values. What is never flushed is joined into one where it has two writes for each key of
    /// the map, and 1,024 more.
    pub fn put_field(
        &mut self,
        key: &Key<A>,
        field: &Field<A>,
        value: &Value<A>,
    ) -> Result<Dot, Refusal>
        ensures ok { IfOk result (λ dot. Steps H.hash_of self.old self.new (Do (Put (place_of key.now field.now) value.now)) (Made dot) []) }
        ensures refused { IfErr result (IsRefused self.old (Put (place_of key.now field.now) value.now)) }
        ensures unchanged { OnErr result (Stays self.old self.new) }
    {
        if let Some(refusal) = self.put_refusal() {
            return Err(refusal);
        }
        let (delta, dot) = match put_field(self.alloc, self.name, &self.live, key, field, value) {
            Ok(made) => made,
            Err(refusal) => return Err(refusal),
        };
        prove!(has_number(dot));
        match self.make(delta) {
            Ok(()) => Ok(dot),
            Err(refusal) => Err(refusal),
        }
    }

    /// Takes the key away with all its fields, and says how many writes it observed there; where there is none it changes nothing.
    ///
    /// Its only refusal is OutOfMemory; a refused call changes nothing. Takes time and memory in all that stands at the key, and
    /// look-ups in the map. Where it observed nothing it takes a look-up.
    pub fn remove(&mut self, key: &Key<A>) -> Result<u64, Refusal>
        ensures ok { IfOk result (λ number. Steps H.hash_of self.old self.new (Do (Remove key.now)) (Counted number) []) }
        ensures refused { IsOkUnless result Refusal.OutOfMemory }
        ensures unchanged { OnErr result (Stays self.old self.new) }
    {
        let (delta, number) = remove(self.alloc, &self.live, key)?;
        self.make(delta)?;
        Ok(number)
    }

    /// Takes the field of the key away, and says how many writes it observed there; where there is none it changes nothing. The key's other
    /// fields stay.
    ///
    /// Its only refusal is OutOfMemory; a refused call changes nothing. Takes time and memory in all that stands at the key, and
    /// look-ups in the map. Where it observed nothing it takes two look-ups.
    pub fn remove_field(&mut self, key: &Key<A>, field: &Field<A>) -> Result<u64, Refusal>
        ensures ok { IfOk result (λ number. Steps H.hash_of self.old self.new (Do (RemoveField (place_of key.now field.now))) (Counted number) []) }
        ensures refused { IsOkUnless result Refusal.OutOfMemory }
        ensures unchanged { OnErr result (Stays self.old self.new) }
    {
        let (delta, number) = remove_field(self.alloc, &self.live, key, field)?;
        self.make(delta)?;
        Ok(number)
    }

    /// Takes all keys away, and says how many writes it observed; where there is none it changes nothing.
    ///
    /// Its only refusal is OutOfMemory; a refused call changes nothing. Goes through the whole map: takes memory in it, and time in it, times
    /// the logarithm of its dots.
    pub fn clear(&mut self) -> Result<u64, Refusal>
        ensures ok { IfOk result (λ number. Steps H.hash_of self.old self.new (Do Clear) (Counted number) []) }
        ensures refused { IsOkUnless result Refusal.OutOfMemory }
        ensures unchanged { OnErr result (Stays self.old self.new) }
    {
        let (delta, number) = clear(self.alloc, &self.live)?;
        self.make(delta)?;
        Ok(number)
    }

    /// Whether something waits to be sent: whether a flush gives a delta. Takes constant time, but that after a resume it passes over what the
    /// saved group held where that knows no dot, and no memory.
    pub fn has_unsent(&self) -> bool
        ensures { IsTrue result ↔ ¬ KnowsNone (meaning self.now).group }
    {
        self.group.has_dots()
    }

    /// The delta of all that it made since the last flush, to be sent, or None where it made nothing.
    ///
    /// Its only refusal is OutOfMemory; a refused call changes nothing. Takes time and memory in these operations, times the square of the
    /// logarithm of their number.
    pub fn flush(&mut self) -> Result<Option<Message<A>>, Refusal>
        ensures ok { IfOk result (λ sent. Steps H.hash_of self.old self.new (Do Flush) Nothing (mail_or_none sent)) }
        ensures refused { IsOkUnless result Refusal.OutOfMemory }
        ensures unchanged { OnErr result (Stays self.old self.new) }
    {
        self.flush_to(&mut Unposted)
    }

    /// The delta of all that it made since the last flush, as `flush` gives it, which is posted in this outbox before it counts as sent: where
    /// the outbox refuses it, the call is refused, and neither is changed. Takes what `flush` does, and what the outbox takes; its only
    /// refusal is OutOfMemory.
    pub fn flush_to<O: Outbox<A>>(&mut self, outbox: &mut O) -> Result<Option<Message<A>>, Refusal>
        ensures ok { IfOk result (λ sent. Steps H.hash_of self.old self.new (Do Flush) Nothing (mail_or_none sent)) }
        ensures posted { IfOk result (λ sent. IsPosted O.gains outbox.old outbox.new (message_or_none sent)) }
        ensures unposted { OnErr result (outbox.new ≡ outbox.old) }
        ensures refused { IsOkUnless result Refusal.OutOfMemory }
        ensures unchanged { OnErr result (Stays self.old self.new) }
    {
        let Some(whole) = self.group.whole(self.alloc)? else {
            return Ok(None);
        };
        let delta = Message::Delta(whole);
        if let Err(refusal) = outbox.post(self.alloc, &delta) {
            drop(delta);
            return Err(refusal);
        }
        self.group.clear();
        Ok(Some(delta))
    }

    // Joins the delta of an own operation into what it is to send and into what the replica holds. One that knows no dot, as of a remove
    // that found nothing, changes nothing and costs nothing.
    fn make(&mut self, delta: OrMap<A>) -> Result<(), Refusal>
        ensures ok { OnOk result (meaning self.new ≡ makes (meaning self.old) (or_map_state delta)) }
        ensures waits { OnOk result (Queues (waiting_in self.old) (or_map_state delta) (waiting_in self.new)) }
        ensures hash { hash_in self.new ≡ hash_in self.old }
        ensures refused { IsOkUnless result Refusal.OutOfMemory }
        ensures unchanged { OnErr result (meaning self.new ≡ meaning self.old) }
        ensures waiting { OnErr result (waiting_in self.new ≡ waiting_in self.old) }
    {
        if delta.context().is_empty() {
            drop(delta);
            return Ok(());
        }
        make_in(self.alloc, &mut self.live, &mut self.group, delta)
    }
}

// Joins the delta into both. It comes into the group first, and is taken back where the live pair refuses it: that is never refused. Where
// memory is short to join what waits, that waits as it is, and the next write tries again.
fn make_in<H: PathHash, A: Allocator + Copy>(
    alloc: A,
    live: &mut LiveOrMap<ShaSummary, H, A>,
    group: &mut Outgoing<A>,
    delta: OrMap<A>,
) -> Result<(), Refusal>
    ensures hash { live.new.0.0.0 ≡ live.old.0.0.0 }
    ensures live { OnOk result (live_state live.new.0 ≡ join greater (live_state live.old.0) (or_map_state delta)) }
    ensures group { OnOk result (group_state group.new ≡ join greater (group_state group.old) (or_map_state delta)) }
    ensures waits { OnOk result (Queues (map or_map_state group.old) (or_map_state delta) (map or_map_state group.new)) }
    ensures kept { OnErr result (live.new.0 ≡ live.old.0) }
    ensures grouped { OnErr result (group.new ≡ group.old) }
    ensures refused { IsOkUnless result Refusal.OutOfMemory }
{
    group.push(alloc, delta)?;
    let Some(newest) = group.newest() else {
        unreachable!();
    };
    if let Err(refusal) = live.join_delta(alloc, newest) {
        group.take_back();
        return Err(refusal);
    }
    let most = most_deltas(live.store().size());
    let _ = group.settle(alloc, most);
    Ok(())
}

// So many deltas stand in the group before they are joined into one: some for each key of the map, so that a replica that is never
// flushed does not keep each of its writes, and one that is flushed joins none before.
fn most_deltas(keys: u64) -> u64
    ensures { result ≡ min (min (keys * 2) (2 ^ 64 - 1) + 1024) (2 ^ 64 - 1) }
{
    keys.saturating_mul(2).saturating_add(1024)
}

// proof: that the number of a dot is one of 64 bits.
fn has_number(dot: Dot) -> bool
    ensures always { result ≡ true }
    ensures bounded { dot.number < 2 ^ 64 }
{
    let _ = dot.number();
    true
}
