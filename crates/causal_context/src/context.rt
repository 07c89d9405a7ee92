ghost use Rattle.std.specs.Prelude.{◌≡◌, ◌≤◌, ◌+◌, ◌^◌, ◌-◌, ◌↔◌, ◌||◌, ◌&&◌, not, false, [], IsTrue, IsNone, IsSome, IfSome, IfOk, OnOk, OnErr, IsOkUnless};
ghost use Rattle.std.specs.Cmp.{partial_equiv_from_equiv};
ghost use Rattle.dots.specs.Dot.{DotValue, same_dot};
ghost use Rattle.causal_context.specs.Context.{ContextValue, has, is_known, known_up_to, in_cloud, HasNone, HasSame, Includes, IsGreatest, IsNext};
ghost use Rattle.causal_context.specs.Canonical.{IsCanonical, HasNoZero};
ghost use Rattle.causal_context.specs.Equal.{same_form, same_form_equiv};
ghost use Rattle.causal_context.specs.Growth.{IsGrowth, IsGrowthAmong, is_up_to};

use crate::adding::{add_to, raise};
use crate::growth::Growth;
use crate::taking::take_from;
use crate::{cloud, vector};
use dots::{Dot, Name, Refusal};
use ordered_list::{OrderedList, OrderedSet};
use std::alloc::{Allocator, Global};
use std::marker::Model;

/// A causal context: a set of dots. Those that a replica has seen, or that a delta speaks of.
///
/// It is kept as a version vector, which has for each name the number up to which all its dots are
/// known, and a cloud of the other dots. So a million dots of one name with no gap are one entry, and no
/// call takes time in them. Equal sets have equal representation. After Almeida, Shoker and Baquero, "Delta
/// State Replicated Data Types" (2018); that the vector always goes as far as it can is of this project.
///
/// What grows keeps to the allocator that `new`, `copy` or `union` was given, or that the vectors of `from_parts` are on.
#[derive(Drop)]
pub struct Context<A: Allocator = Global> {
    vector: OrderedList<Name, u64, A>,
    cloud: OrderedSet<Dot, A>,
}

impl<A: Allocator> Model for Context<A> {
    ghost use Rattle.causal_context.specs.Context.{ContextValue};
    ghost use Rattle.causal_context.specs.Canonical.{IsCanonical};

    ghost Value = { ContextValue };

    ghost view = { λ context. record { vector = context.vector; cloud = context.cloud } };

    ghost invariant = { λ context. IsCanonical (record { vector = context.vector; cloud = context.cloud }) };
}

impl<A: Allocator + Copy> Context<A> {
    /// The context with no dots. Takes no memory.
    pub fn new(alloc: A) -> Context<A>
        ensures { HasNone result }
    {
        Context {
            vector: OrderedList::new(alloc),
            cloud: OrderedSet::new(alloc),
        }
    }

    /// The context of this vector and this cloud, or None exactly where they are not the canonical form of a
    /// set of dots: the vector by ascending name, each name once and no entry 0, and the cloud by ascending
    /// dot, each once, no dot at or below the entry of its name or just above it, an absent entry counting
    /// as 0. Takes both over as they are, and no memory, and time in the number of names and dots, for each
    /// dot times the logarithm of that of the names.
    pub fn from_parts(vector: Vec<(Name, u64), A>, cloud: Vec<Dot, A>) -> Option<Context<A>>
        ensures canonical { IsSome result
            ↔ IsCanonical (record { vector = vector.items; cloud = cloud.items }) }
        ensures form { IfSome result
            (λ context. context ≡ record { vector = vector.items; cloud = cloud.items }) }
    {
        let vector = OrderedList::from_entries(vector)?;
        let cloud = OrderedSet::from_items(cloud)?;
        if !vector::has_no_zero(&vector) || !cloud::is_apart(&cloud, &vector) {
            return None;
        }
        Some(Context { vector, cloud })
    }

    /// Whether no dot is in the context. Takes constant time, and no memory.
    pub fn is_empty(&self) -> bool
        ensures { IsTrue result ↔ HasNone self.now }
    {
        self.vector.entries().is_empty() && self.cloud.items().is_empty()
    }

    /// Whether the dot is in the context. Takes time in the logarithms of the number of names and of the
    /// dots in the cloud, and no memory.
    pub fn contains(&self, dot: Dot) -> bool
        ensures { result ≡ has self.now dot }
    {
        dot.number() <= vector::known_up_to(&self.vector, dot.name()) || self.cloud.contains(&dot)
    }

    /// The entry of the name: the number up to which all its dots are in the context, or 0 where it has none.
    /// Takes time in the logarithm of the number of names, and no memory.
    pub fn entry(&self, name: Name) -> u64
        ensures { result ≡ known_up_to self.now.vector name }
    {
        vector::known_up_to(&self.vector, name)
    }

    /// The dot after the greatest of this name, which nothing of this context has used, or None where
    /// the greatest has the number 2^64 - 1. Takes time as `contains` does, and no memory.
    pub fn next(&self, name: Name) -> Option<Dot>
        ensures next { IfSome result (IsNext name (has self.now)) }
        ensures unknown { IfSome result (λ dot. has self.now dot ≡ false) }
        ensures spent { IsNone result ↔ IsGreatest name (has self.now) (2 ^ 64 - 1) }
    {
        let greatest = self.greatest(name);
        if greatest == u64::MAX {
            return None;
        }
        Dot::new(name, greatest + 1)
    }

    // The greatest number of this name, or 0 where it has none.
    fn greatest(&self, name: Name) -> u64
        ensures { IsGreatest name (has self.now) result }
    {
        let above = cloud::greatest_in(&self.cloud, name);
        above.max(vector::known_up_to(&self.vector, name))
    }

    /// Whether each dot of the other is in this one. Takes no memory, and time in the number of names and
    /// cloud dots of the other, each times that of `contains` here.
    pub fn includes(&self, other: &Context<A>) -> bool
        ensures { IsTrue result ↔ Includes self.now other.now }
    {
        vector::covers(&self.vector, &other.vector) && self.contains_all(&other.cloud)
    }

    // Whether each of the dots is in the context.
    fn contains_all(&self, dots: &OrderedSet<Dot, A>) -> bool
        ensures { IsTrue result ↔ ((d : DotValue) → IsTrue (in_cloud dots.now d) → IsTrue (has self.now d)) }
    {
        for dot in dots.items() {
            if !self.contains(*dot) {
                return false;
            }
        }
        true
    }

    /// Which dots of the other are not in this one: none, just one, or some. Where there is just one, it may
    /// still answer some: an entry of the other that is above the one here by more than 1 is not looked into.
    /// Takes no memory, and time in the number of names and cloud dots of the other, each times that of `contains` here.
    pub fn growth(&self, other: &Context<A>) -> Growth
        ensures { IsGrowth self.now other.now result }
    {
        let below = self.growth_by_vector(other);
        let apart = self.growth_by_cloud(other);
        below.and(apart)
    }

    // What is lacking of the dots of the other's vector.
    fn growth_by_vector(&self, other: &Context<A>) -> Growth
        ensures { IsGrowthAmong (has self.now) (has other.now) (is_known other.now.vector []) result }
    {
        let mut growth = Growth::Nothing;
        for (name, number) in other.vector.entries() {
            growth = growth.and(self.growth_by_entry(*name, *number));
        }
        growth
    }

    // What is lacking of the dots of this name up to the number.
    fn growth_by_entry(&self, name: Name, number: u64) -> Growth
        ensures { IsGrowthAmong (has self.now) (is_up_to name number) (is_up_to name number) result }
    {
        let mine = vector::known_up_to(&self.vector, name);
        if number <= mine {
            return Growth::Nothing;
        }
        if number - mine > 1 {
            return Growth::More;
        }
        Growth::One(cloud::dot_at(name, number))
    }

    // What is lacking of the dots of the other's cloud.
    fn growth_by_cloud(&self, other: &Context<A>) -> Growth
        ensures { IsGrowthAmong (has self.now) (has other.now) (in_cloud other.now.cloud) result }
    {
        let mut growth = Growth::Nothing;
        for dot in other.cloud.items() {
            growth = growth.and(self.growth_by_dot(*dot));
        }
        growth
    }

    // Whether the dot is lacking.
    fn growth_by_dot(&self, dot: Dot) -> Growth
        ensures { IsGrowthAmong (has self.now) (same_dot dot) (same_dot dot) result }
    {
        if self.contains(dot) {
            return Growth::Nothing;
        }
        Growth::One(dot)
    }

    /// Whether the dot of this name and the number above it is in the context. Takes time as `contains` does, and no memory.
    pub fn contains_above(&self, dot: Dot) -> bool
        ensures above { result ≡ has self.now (record { name = dot.name; number = dot.number + 1 }) }
        ensures canonical { IsCanonical self.now }
    {
        if dot.number() < vector::known_up_to(&self.vector, dot.name()) {
            return true;
        }
        if dot.number() == u64::MAX {
            return false;
        }
        self.cloud
            .contains(&cloud::dot_at(dot.name(), dot.number() + 1))
    }

    /// The version vector: each name that has an entry, in order, with the number up to which all its dots are
    /// in the context. Copies nothing.
    pub fn vector(&self) -> &[(Name, u64)]
        ensures rest { result.now ≡ self.now.vector }
        ensures has { (d : DotValue) → has self.now d ≡ is_known result.now self.now.cloud d }
        ensures canonical { IsCanonical self.now }
    {
        self.vector.entries()
    }

    /// The cloud: the dots that stand apart from the vector, in order. Copies nothing.
    pub fn cloud(&self) -> &[Dot]
        ensures rest { result.now ≡ self.now.cloud }
        ensures has { (d : DotValue) → has self.now d ≡ is_known self.now.vector result.now d }
        ensures canonical { IsCanonical self.now }
    {
        self.cloud.items()
    }

    /// The same set of dots, on this allocator, in one copy of the memory of the vector and one of that of
    /// the cloud. Takes as much memory.
    /// Its only refusal is OutOfMemory.
    pub fn copy(&self, alloc: A) -> Result<Context<A>, Refusal>
        ensures ok { IfOk result (HasSame self.now) }
        ensures equal { IfOk result (λ copy. copy ≡ self.now) }
        ensures err { IsOkUnless result Refusal.OutOfMemory }
    {
        let vector = self.vector.copy(alloc)?;
        let cloud = self.cloud.copy(alloc)?;
        Ok(Context { vector, cloud })
    }

    /// Adds the dot. A refused call leaves the context as it was. Takes time as `contains` does, and writes one
    /// number where the dot is just above its entry. A new name moves the entries of greater names, and a dot
    /// that goes to the cloud the greater ones there. Where the dot closes the gap below dots of the cloud,
    /// these go to the vector: a look-up for each, and a pass over the cloud. Takes memory for an entry at
    /// most: at times for twice as many as there are.
    /// Its only refusal is OutOfMemory.
    pub fn add(&mut self, dot: Dot) -> Result<(), Refusal>
        ensures ok { OnOk result ((d : DotValue) → has self.new d ≡ (same_dot dot d || has self.old d)) }
        ensures unchanged { OnErr result (HasSame self.new self.old) }
        ensures as_it_was { OnErr result (self.new ≡ self.old) }
        ensures err { IsOkUnless result Refusal.OutOfMemory }
    {
        if self.contains(dot) {
            return Ok(());
        }
        add_to(&mut self.vector, &mut self.cloud, dot)
    }

    /// Adds the dot just above the entry of its name, where the entry is there and the dot above is not in the context: as a
    /// replica does that writes on. It is never refused and takes no memory. Takes time as `contains` does, and writes one number.
    pub fn raise(&mut self, dot: Dot)
        requires entry { 1 ≤ known_up_to self.old.vector dot.name }
        requires next { dot.number ≡ known_up_to self.old.vector dot.name + 1 }
        requires last { has self.old (record { name = dot.name; number = dot.number + 1 }) ≡ false }
        ensures { (d : DotValue) → has self.new d ≡ (same_dot dot d || has self.old d) }
    {
        raise(&mut self.vector, &self.cloud, dot);
    }

    /// Takes the dot out, where the one above it is not in the context: after `add` this gives back what was
    /// there before. It is never refused and takes no memory. Takes time as `contains` does, and writes one number where the
    /// dot is the entry of its name. An entry of 1 that goes moves those of greater names, and a dot of the
    /// cloud is taken out by a pass over the cloud.
    pub fn take_out(&mut self, dot: Dot)
        requires there { IsTrue (has self.old dot) }
        requires last { has self.old (record { name = dot.name; number = dot.number + 1 }) ≡ false }
        ensures taken { (d : DotValue) → has self.new d ≡ (has self.old d && not (same_dot dot d)) }
        ensures restored { (context : ContextValue) → IsCanonical context → has context dot ≡ false
            → ((d : DotValue) → has self.old d ≡ (same_dot dot d || has context d)) → self.new ≡ context }
    {
        take_from(&mut self.vector, &mut self.cloud, dot);
    }

    /// The union of the two sets, on this allocator. Takes memory in the number of names and of the dots in
    /// the clouds of both, and time in these, for each dot times the logarithm of that of the names.
    /// Its only refusal is OutOfMemory.
    pub fn union(&self, alloc: A, other: &Context<A>) -> Result<Context<A>, Refusal>
        ensures ok { IfOk result (λ both. (d : DotValue) → has both d ≡ (has self.now d || has other.now d)) }
        ensures err { IsOkUnless result Refusal.OutOfMemory }
    {
        let dots = self.cloud.union(alloc, &other.cloud)?;
        let mut both = covering(alloc, &self.vector, &other.vector)?;
        if let Err(refusal) = both.add_all(&dots) {
            drop(both);
            return Err(refusal);
        }
        Ok(both)
    }

    // Adds each of the dots.
    fn add_all(&mut self, dots: &OrderedSet<Dot, A>) -> Result<(), Refusal>
        ensures ok { OnOk result ((d : DotValue) → has self.new d ≡ (has self.old d || in_cloud dots.now d)) }
        ensures err { IsOkUnless result Refusal.OutOfMemory }
    {
        for dot in dots.items() {
            self.add(*dot)?;
        }
        Ok(())
    }
}

impl<A: Allocator> PartialEq for Context<A> {
    ghost eq = { same_form };

    ghost laws = { partial_equiv_from_equiv same_form_equiv };

    /// Whether the two have the same dots. Takes no memory, and time in the names and cloud dots of both.
    fn eq(&self, other: &Context<A>) -> bool
        ensures form { result ≡ same_form self.now other.now }
        ensures same { IsTrue result ↔ HasSame self.now other.now }
        ensures equal { IsTrue result ↔ (self.now ≡ other.now) }
    {
        self.vector.entries() == other.vector.entries() && self.cloud.items() == other.cloud.items()
    }
}

impl<A: Allocator> Eq for Context<A> {
    ghost laws = { same_form_equiv };
}

// The context of what either vector stands for.
fn covering<A: Allocator + Copy>(
    alloc: A,
    mine: &OrderedList<Name, u64, A>,
    yours: &OrderedList<Name, u64, A>,
) -> Result<Context<A>, Refusal>
    requires mine { HasNoZero mine.now }
    requires yours { HasNoZero yours.now }
    ensures ok { IfOk result (λ both. (d : DotValue) → has both d ≡ (is_known mine.now [] d || is_known yours.now [] d)) }
    ensures err { IsOkUnless result Refusal.OutOfMemory }
{
    let vector = vector::merged(alloc, mine, yours)?;
    Ok(Context {
        vector,
        cloud: OrderedSet::new(alloc),
    })
}
