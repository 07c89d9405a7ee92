ghost use Rattle.std.specs.Prelude.{◌≡◌, ◌↔◌, cond, Some, IsSome, IfSome, IsTrue, IfOk, OnOk, OnErr, IsOkUnless, List, Contains};
ghost use Rattle.std.specs.Option.{option_copied};
ghost use Rattle.std.specs.Ordering.{ord_max};
ghost use Rattle.std.specs.List.Sorted.{IsStrictlySortedBy};
ghost use Rattle.std.specs.Map.{keys_of};
ghost use Rattle.dots.specs.Dot.{DotValue, same_dot};
ghost use Rattle.causal_context.specs.Context.{has};
ghost use Rattle.causal_context.specs.Dots.{dot_cmp};
ghost use Rattle.op_model.specs.State.{joined};
ghost use Rattle.ordered_list.specs.Places.{value_at};
ghost use Rattle.dot_store.specs.Stores.{at_values, joined_value};
ghost use Rattle.dot_store.specs.Greater.{ord_max-comm, ord_max-assoc, ord_max-idem};

use crate::kept::Kept;
use crate::put::put_some;
use crate::store::DotStore;
use causal_context::Context;
use dots::{Dot, Refusal};
use ordered_list::{Merge, OrderedList};
use std::alloc::{Allocator, Global};
use std::marker::Model;

/// A map from dots to values.
///
/// It is kept as the list of its entries, by ascending dot. What grows keeps to the allocator that `empty`
/// or `copy` was given, or to that of the entries that it was made of.
#[derive(Drop)]
pub struct DotFun<V, A: Allocator = Global> {
    values: OrderedList<Dot, V, A>,
}

impl<V, A: Allocator> Model for DotFun<V, A> {
    ghost use Rattle.std.specs.Prelude.{List};
    ghost use Rattle.dots.specs.Dot.{DotValue};

    ghost Value = { List (DotValue × V) };

    ghost view = { λ f. f.values };
}

impl<V: Drop, A: Allocator + Copy> DotFun<V, A> {
    /// The map of these values, or None exactly where their dots do not ascend, each dot once. Takes the
    /// vector over as it is, and no memory, and time in the number of dots.
    pub fn from_entries(values: Vec<(Dot, V), A>) -> Option<DotFun<V, A>>
        ensures ascend { IsSome result ↔ IsStrictlySortedBy dot_cmp (keys_of values.items) }
        ensures values { IfSome result (λ map. map ≡ values.items) }
    {
        let values = OrderedList::from_entries(values)?;
        Some(DotFun { values })
    }

    /// The value at the dot. Takes time in the logarithm of their number, and no memory.
    /// None exactly where it holds none.
    pub fn get(&self, dot: Dot) -> Option<&V>
        ensures { (place : _) → option_copied result ≡ at_values self.now place dot }
    {
        self.values.get(&dot)
    }

    /// The dots with their values, in the order of the dots. Copies nothing.
    pub fn entries(&self) -> &[(Dot, V)]
        ensures rest { result.now ≡ self.now }
        ensures held { (place : _) (d : DotValue) (v : V)
            → (at_values self.now place d ≡ Some v) ↔ Contains result.now (d, v) }
        ensures ordered { IsStrictlySortedBy dot_cmp (keys_of result.now) }
    {
        self.values.entries()
    }

    /// Puts the value at the dot, in place of what was there. A refused call leaves the map as it was.
    /// Takes time in the number of values at greater dots, besides that of a look-up, and memory for the
    /// entry: at times for twice as many as there are.
    /// Its only refusal is OutOfMemory.
    pub fn insert(&mut self, dot: Dot, value: V) -> Result<(), Refusal>
        ensures ok { OnOk result ((place : _) (d : DotValue)
            → at_values self.new place d
            ≡ cond (same_dot dot d) (Some value) (at_values self.old place d)) }
        ensures unchanged { OnErr result (self.new ≡ self.old) }
        ensures err { IsOkUnless result Refusal.OutOfMemory }
    {
        self.values.insert(dot, value)
    }
}

// What the join keeps at the dot, of what stands there on the two sides.
fn joined_at<V: Kept<A>, A: Allocator + Copy>(
    alloc: A,
    dot: Dot,
    mine: Option<&V>,
    own: &Context<A>,
    yours: Option<&V>,
    theirs: &Context<A>,
) -> Result<Option<V>, Refusal>
    ensures ok { IfOk result (λ kept. kept ≡ joined (ord_max V.cmp)
        (option_copied mine.entry) (has own.now dot) (option_copied yours.entry) (has theirs.now dot)) }
    ensures err { IsOkUnless result Refusal.OutOfMemory }
{
    let kept = match (mine, yours) {
        (Some(x), Some(y)) => greater_of(x, y),
        (Some(x), None) if !theirs.contains(dot) => x,
        (None, Some(y)) if !own.contains(dot) => y,
        _ => return Ok(None),
    };
    Ok(Some(kept.copy(alloc)?))
}

fn greater_of<'a, V: Ord>(x: &'a V, y: &'a V) -> &'a V
    ensures { result.now ≡ ord_max V.cmp x.now y.now }
{
    if y.cmp(x).is_lt() { x } else { y }
}

// The join of the two lists, in one pass over both.
fn join_values<V: Kept<A>, A: Allocator + Copy>(
    alloc: A,
    mine: &OrderedList<Dot, V, A>,
    own: &Context<A>,
    yours: &OrderedList<Dot, V, A>,
    theirs: &Context<A>,
) -> Result<OrderedList<Dot, V, A>, Refusal>
    ensures ok { IfOk result (λ kept. (d : DotValue) → value_at dot_cmp kept d
        ≡ joined_value (ord_max V.cmp) (value_at dot_cmp mine.now) (has own.now)
        (value_at dot_cmp yours.now) (has theirs.now) d) }
    ensures err { IsOkUnless result Refusal.OutOfMemory }
{
    let mut kept = OrderedList::new(alloc);
    let mut merge = Merge::new(mine.entries(), yours.entries());
    while let Some((dot, x, y)) = merge.next() {
        let value = joined_at(alloc, *dot, x, own, y, theirs)?;
        put_some(alloc, &mut kept, dot, value)?;
    }
    Ok(kept)
}

// Whether the two are one value, or no value.
fn is_same<V: Kept<A>, A: Allocator + Copy>(mine: Option<&V>, yours: Option<&V>) -> bool
    ensures { IsTrue result ↔ (option_copied mine.entry ≡ option_copied yours.entry) }
{
    match (mine, yours) {
        (Some(x), Some(y)) => x.cmp(y).is_eq(),
        (None, None) => true,
        _ => false,
    }
}

// Whether the two lists have the same value at each dot, in one pass over both.
fn are_same<V: Kept<A>, A: Allocator + Copy>(
    mine: &OrderedList<Dot, V, A>,
    yours: &OrderedList<Dot, V, A>,
) -> bool
    ensures { IsTrue result ↔ ((d : DotValue) → value_at dot_cmp mine.now d ≡ value_at dot_cmp yours.now d) }
{
    let mut merge = Merge::new(mine.entries(), yours.entries());
    while let Some((_, x, y)) = merge.next() {
        if !is_same::<V, A>(x, y) {
            return false;
        }
    }
    true
}

// The list with a copy of each value.
fn copied<V: Kept<A>, A: Allocator + Copy>(
    alloc: A,
    values: &OrderedList<Dot, V, A>,
) -> Result<OrderedList<Dot, V, A>, Refusal>
    ensures ok { IfOk result (λ copy. copy ≡ values.now) }
    ensures err { IsOkUnless result Refusal.OutOfMemory }
{
    let entries = values.entries();
    let mut copies = OrderedList::with_capacity(alloc, entries.len())?;
    for (dot, value) in entries {
        copies.insert(*dot, value.copy(alloc)?)?;
    }
    Ok(copies)
}

impl<V: Kept<A>, A: Allocator + Copy> DotStore<A> for DotFun<V, A> {
    type Place = ();

    type Held = V;

    ghost at = { at_values };

    ghost greater = { ord_max V.cmp };

    ghost canonical = { λ values. IsStrictlySortedBy dot_cmp (keys_of values) };

    fn empty(alloc: A) -> DotFun<V, A> {
        DotFun {
            values: OrderedList::new(alloc),
        }
    }

    fn is_empty(&self) -> bool {
        self.values.entries().is_empty()
    }

    fn contains(&self, dot: Dot) -> bool {
        self.values.get(&dot).is_some()
    }

    fn is_inside(&self, context: &Context<A>) -> bool {
        for (dot, _) in self.values.entries() {
            if !context.contains(*dot) {
                return false;
            }
        }
        true
    }

    fn dots(&self, alloc: A) -> Result<Context<A>, Refusal> {
        let mut dots = Context::new(alloc);
        for (dot, _) in self.values.entries() {
            dots.add(*dot)?;
        }
        Ok(dots)
    }

    fn join(
        &self,
        alloc: A,
        own: &Context<A>,
        other: &DotFun<V, A>,
        theirs: &Context<A>,
    ) -> Result<DotFun<V, A>, Refusal> {
        let values = join_values(alloc, &self.values, own, &other.values, theirs)?;
        Ok(DotFun { values })
    }

    fn copy(&self, alloc: A) -> Result<DotFun<V, A>, Refusal> {
        let values = copied(alloc, &self.values)?;
        Ok(DotFun { values })
    }

    fn same(&self, other: &DotFun<V, A>) -> bool {
        are_same(&self.values, &other.values)
    }

    ghost greater_comm = { ord_max-comm V.cmp V.total V.exact };

    ghost greater_assoc = { ord_max-assoc V.cmp V.total V.exact };

    ghost greater_idem = { ord_max-idem V.cmp V.total V.exact };
}
