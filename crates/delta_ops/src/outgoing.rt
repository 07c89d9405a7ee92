ghost use Rattle.std.specs.Prelude.{◌≡◌, ◌⊎◌, ◌≤◌, ◌<◌, ◌↔◌, ◌∷◌, ◌++◌, ◌-◌, [], List, drop, length, max, take, Some, false, IsTrue, IfOk, IfSome, IfNone, OnOk, OnErr, IsOkUnless};
ghost use Rattle.std.specs.Option.{option_copied};
ghost use Rattle.causal_context.specs.Context.{HasNone};
ghost use Rattle.causal_join.specs.OrMap.{OrMapValue, or_map_state};
ghost use Rattle.delta_ops.specs.Group.{group_state};
ghost use Rattle.delta_ops.specs.Log.{deltas_of};
ghost use Rattle.dots.specs.Dot.{DotValue};
ghost use Rattle.op_model.specs.Meaning.{greater};
ghost use Rattle.op_model.specs.State.{Same, join};

use crate::joining::joined;
use causal_join::OrMap;
use dots::Refusal;
use std::alloc::{Allocator, Global};
use std::marker::Model;
use std::sync::Arc;

/// What a replica made since it last sent: a group of deltas, after the delta groups of Almeida, Shoker and Baquero, "Delta State
/// Replicated Data Types" (2018).
///
/// It is kept as a log: the deltas as they came, the oldest first. They are joined once, when they are sent, or when the log is settled, as
/// one that is never sent has to be. A delta in the log never changes, so that a copy of the group shares all of them.
#[derive(Drop)]
pub struct Outgoing<A: Allocator + Copy = Global> {
    deltas: Vec<Arc<OrMap<A>, A>, A>,
}

impl<A: Allocator + Copy> Model for Outgoing<A> {
    ghost use Rattle.std.specs.Prelude.{List};
    ghost use Rattle.causal_join.specs.OrMap.{OrMapValue};
    ghost use Rattle.delta_ops.specs.Log.{deltas_of};

    ghost Value = { List OrMapValue };

    ghost view = { λ o. deltas_of o.deltas.items };
}

impl<A: Allocator + Copy> Outgoing<A> {
    /// The group of no delta. Takes no memory.
    pub fn new(alloc: A) -> Outgoing<A>
        ensures { result ≡ [] }
    {
        Outgoing {
            deltas: Vec::new(alloc),
        }
    }

    /// Joins the delta into the group. A refused call changes nothing.
    ///
    /// Its only refusal is OutOfMemory. Puts the delta at the end of the log, and joins nothing: takes memory for one entry of the log, at
    /// times for twice as many as there are, and time in these alone.
    pub fn push(&mut self, alloc: A, delta: OrMap<A>) -> Result<(), Refusal>
        ensures ok { OnOk result (Same (group_state self.new) (join greater (group_state self.old) (or_map_state delta))) }
        ensures pushed { OnOk result (self.new ≡ self.old ++ (delta ∷ [])) }
        ensures unchanged { OnErr result (self.new ≡ self.old) }
        ensures err { IsOkUnless result Refusal.OutOfMemory }
    {
        let delta = Arc::new(alloc, delta)?;
        self.deltas.push(delta)?;
        Ok(())
    }

    /// The delta that was joined in last, which stands alone until the log is settled, or None where there is none. Takes constant time.
    pub fn newest(&self) -> Option<&OrMap<A>>
        ensures none { self.now ≡ [] → result ≡ None }
        ensures value { (rest : List OrMapValue) (pair : OrMapValue) → self.now ≡ rest ++ (pair ∷ []) → option_copied result ≡ Some pair }
    {
        match self.deltas.last() {
            Some(last) => Some(last),
            None => None,
        }
    }

    /// Takes the delta back that was joined in last. It is never refused, and takes no memory, and time in that delta.
    pub fn take_back(&mut self)
        ensures { (rest : List OrMapValue) (pair : OrMapValue) → self.old ≡ rest ++ (pair ∷ []) → self.new ≡ rest }
    {
        drop(self.deltas.pop());
    }

    /// Joins all deltas of the log into one, where there are more than this many, and more than one. A refused call changes nothing.
    ///
    /// Its only refusal is OutOfMemory. Where it joins it takes what `whole` does, and lets the deltas go; the log keeps its room.
    pub fn settle(&mut self, alloc: A, most: u64) -> Result<(), Refusal>
        ensures same { Same (group_state self.new) (group_state self.old) }
        ensures few { OnOk result (length self.new ≤ max most 1) }
        ensures kept { length self.old ≤ max most 1 → self.new ≡ self.old }
        ensures joined { (self.new ≡ self.old) ⊎ (length self.new ≡ 1) }
        ensures unchanged { OnErr result (self.new ≡ self.old) }
        ensures err { IsOkUnless result Refusal.OutOfMemory }
    {
        if self.deltas.len() as u64 <= most.max(1) {
            return Ok(());
        }
        let group = joined(alloc, &self.deltas)?;
        let group = Arc::new(alloc, group)?;
        let log = &mut self.deltas;
        log.clear();
        log.push(group).unwrap();
        Ok(())
    }

    /// How many of the oldest deltas there are up to the first one that knows a dot, or None where none does. Takes time in these, and no memory.
    pub fn first_known(&self) -> Option<usize>
        ensures some { IfSome result (λ number. (0 < number) × (number ≤ length self.now)
            × ((d : DotValue) → (group_state (take (number - 1) self.now)).has d ≡ false)
            × ¬ ((d : DotValue) → (group_state (take number self.now)).has d ≡ false)) }
        ensures none { IfNone result ((d : DotValue) → (group_state self.now).has d ≡ false) }
    {
        let mut number = 0;
        for delta in &self.deltas {
            number += 1;
            if !delta.context().is_empty() {
                return Some(number);
            }
        }
        None
    }

    /// Whether the group knows a dot: whether `whole` gives a pair. Takes time in the oldest deltas that know none, and no memory.
    pub fn has_dots(&self) -> bool
        ensures { IsTrue result ↔ ¬ ((d : DotValue) → (group_state self.now).has d ≡ false) }
    {
        self.first_known().is_some()
    }

    /// The whole group, or None where it knows no dot.
    ///
    /// Its only refusal is OutOfMemory. Takes memory in all that the deltas hold and know. Of m puts it takes time m log m: what later ones
    /// overwrote is passed over, and the others are put in order by their keys. Where two deltas hold something at one key, as at two of its
    /// fields, or one behind the first knows over 16 dots, as a clear does, or first numbers of several names, more than two are joined one
    /// after the other into a pair of their own, which takes what `Live::join_delta` takes of each.
    pub fn whole(&self, alloc: A) -> Result<Option<OrMap<A>>, Refusal>
        ensures some { IfOk result (λ found. IfSome found (λ whole.
            Same (or_map_state whole) (group_state self.now) × ¬ HasNone whole.1)) }
        ensures none { IfOk result (λ found. IfNone found (
            (d : DotValue) → (group_state self.now).has d ≡ false)) }
        ensures err { IsOkUnless result Refusal.OutOfMemory }
    {
        let whole = joined(alloc, &self.deltas)?;
        if whole.context().is_empty() {
            return Ok(None);
        }
        Ok(Some(whole))
    }

    /// The delta that is the whole group, where there is one alone and it knows a dot. Copies nothing, and takes constant time.
    pub fn only(&self) -> Option<&OrMap<A>>
        ensures alone { IfSome result (λ only. self.now ≡ only.now ∷ []) }
        ensures some { IfSome result (λ only. Same (or_map_state only.now) (group_state self.now) × ¬ HasNone only.now.1) }
        ensures none { IfNone result ((pair : OrMapValue) → self.now ≡ pair ∷ [] → HasNone pair.1) }
    {
        match self.deltas.as_slice() {
            [only] if !only.context().is_empty() => Some(only),
            _ => None,
        }
    }

    /// The whole group as a pair, which may know no dot: what is kept of it over a restart.
    ///
    /// Its only refusal is OutOfMemory. Takes what `whole` does.
    pub fn pair(&self, alloc: A) -> Result<OrMap<A>, Refusal>
        ensures ok { IfOk result (λ whole. Same (or_map_state whole) (group_state self.now)) }
        ensures err { IsOkUnless result Refusal.OutOfMemory }
    {
        let whole = joined(alloc, &self.deltas)?;
        Ok(whole)
    }

    /// How many deltas the log has.
    pub fn len(&self) -> usize
        ensures { result ≡ length self.now }
    {
        self.deltas.len()
    }

    /// The group of the oldest deltas, so many of them, or all where there are fewer, as a pair.
    ///
    /// Its only refusal is OutOfMemory. Takes what `whole` does of these.
    pub fn front(&self, alloc: A, number: usize) -> Result<OrMap<A>, Refusal>
        ensures ok { IfOk result (λ front. Same (or_map_state front) (group_state (take number self.now))) }
        ensures err { IsOkUnless result Refusal.OutOfMemory }
    {
        let number = number.min(self.deltas.len());
        joined(alloc, &self.deltas[..number])
    }

    /// Takes the oldest deltas out, so many of them, or all where there are fewer. It is never refused, and takes no memory, and time in the
    /// number of deltas in the log, and in what those hold that go.
    pub fn cut(&mut self, number: usize)
        ensures { self.new ≡ drop number self.old }
    {
        let number = number.min(self.deltas.len());
        let left = self.deltas.len() - number;
        self.deltas.rotate_left(number);
        self.deltas.truncate(left);
    }

    /// The same group. Shares the deltas: takes time and memory in their number, and none in what they hold.
    /// Its only refusal is OutOfMemory.
    pub fn copy(&self, alloc: A) -> Result<Outgoing<A>, Refusal>
        ensures ok { IfOk result (λ copy. copy ≡ self.now) }
        ensures err { IsOkUnless result Refusal.OutOfMemory }
    {
        let deltas = shared(&self.deltas, alloc)?;
        Ok(Outgoing { deltas })
    }

    /// Empties the group. Takes no memory; the deltas that no copy shares are let go, which takes time in them.
    pub fn clear(&mut self)
        ensures { self.new ≡ [] }
    {
        self.deltas.clear();
    }
}

/// The same deltas.
fn shared<A: Allocator + Copy>(
    deltas: &Vec<Arc<OrMap<A>, A>, A>,
    alloc: A,
) -> Result<Vec<Arc<OrMap<A>, A>, A>, Refusal>
    ensures ok { IfOk result (λ copies. deltas_of copies.items ≡ deltas_of deltas.now.items) }
    ensures err { IsOkUnless result Refusal.OutOfMemory }
{
    let mut copies = Vec::with_capacity(alloc, deltas.len())?;
    for delta in deltas {
        copies.push(Arc::try_clone(delta)?)?;
    }
    Ok(copies)
}
