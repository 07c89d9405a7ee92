ghost use Rattle.std.specs.Prelude.{◌≡◌, ◌↔◌, ◌≤◌, ◌||◌, cond, true, not, [], IsTrue, IsSome, IfSome, IfNone, IfOk, IfErr, OnOk, OnErr, IsOkUnless};
ghost use Rattle.std.specs.Ordering.{is_eq, is_gt};
ghost use Rattle.std.specs.List.{filter};
ghost use Rattle.std.specs.List.Sorted.{IsStrictlySortedBy};
ghost use Rattle.std.specs.BTreeSet.{insert_key};
ghost use Rattle.ordered_list.specs.Items.{is_among, is_between, IsLastUpTo, IsPlaceIn, IsGapIn};

use crate::item_merge::ItemMerge;
use crate::ordered_list::insert_at;
use dots::Refusal;
use std::alloc::{Allocator, Global};
use std::cmp::Ordering;
use std::marker::Model;

/// A set as the list of its items, in order.
///
/// A look-up is a binary search. An insert or a removal moves the items that come after, so it takes time in
/// these: none at the end.
#[derive(Drop)]
pub struct OrderedSet<T: Ord, A: Allocator = Global> {
    items: Vec<T, A>,
}

impl<T: Ord, A: Allocator> Model for OrderedSet<T, A> {
    ghost use Rattle.std.specs.Prelude.{List};
    ghost use Rattle.std.specs.List.Sorted.{IsStrictlySortedBy};

    ghost Value = { List T };

    ghost view = { λ set. set.items.items };

    ghost invariant = { λ set. IsStrictlySortedBy T.cmp set.items.items };
}

impl<T: Ord + Drop, A: Allocator + Copy> OrderedSet<T, A> {
    /// The set with no items. Takes no memory.
    pub fn new(alloc: A) -> OrderedSet<T, A>
        ensures { result ≡ [] }
    {
        OrderedSet {
            items: Vec::new(alloc),
        }
    }

    /// The set with no items, and with room for this many, which is the memory that it takes.
    /// Its only refusal is OutOfMemory.
    pub fn with_capacity(alloc: A, capacity: usize) -> Result<OrderedSet<T, A>, Refusal>
        ensures ok { IfOk result (λ set. set ≡ []) }
        ensures err { IsOkUnless result Refusal.OutOfMemory }
    {
        let items = Vec::with_capacity(alloc, capacity)?;
        Ok(OrderedSet { items })
    }

    /// The set of these items, or None exactly where they do not ascend, each once. Takes the vector over as it
    /// is, and no memory, and time in the number of items.
    pub fn from_items(items: Vec<T, A>) -> Option<OrderedSet<T, A>>
        ensures ascend { IsSome result ↔ IsStrictlySortedBy T.cmp items.items }
        ensures items { IfSome result (λ set. set ≡ items.items) }
    {
        if !is_ascending(&items) {
            return None;
        }
        Some(OrderedSet { items })
    }

    /// Puts the item in, if it is not there. A refused call leaves the set as it was. Takes time in the number
    /// of greater items, besides that of a look-up, and memory for the item: at times for twice as many as
    /// there are.
    /// Its only refusal is OutOfMemory.
    pub fn insert(&mut self, item: T) -> Result<(), Refusal>
        ensures ok { OnOk result (self.new ≡ insert_key T.cmp self.old item) }
        ensures updates { OnOk result ((q : T)
            → is_among T.cmp self.new q ≡ cond (is_eq (T.cmp item q)) true (is_among T.cmp self.old q)) }
        ensures unchanged { OnErr result (self.new ≡ self.old) }
        ensures err { IsOkUnless result Refusal.OutOfMemory }
    {
        match place_of(&self.items, &item) {
            Ok(_) => Ok(()),
            Err(place) => insert_at(&mut self.items, place, item),
        }
    }

    /// Takes out the items that are neither below the low one nor above the high one. Takes time in the number
    /// of all items, and no memory.
    pub fn remove_between(&mut self, low: &T, high: &T)
        ensures { self.new ≡ filter (λ x. not (is_between T.cmp low.now high.now x)) self.old }
    {
        self.items.retain(
            |item| -> bool
                ensures { result ≡ not (is_between T.cmp low.entry.now high.entry.now item.now) }
            { item.cmp(low).is_lt() || item.cmp(high).is_gt() },
        );
    }
}

impl<T: Ord, A: Allocator> OrderedSet<T, A> {
    /// The items, in order. Copies nothing.
    pub fn items(&self) -> &[T]
        ensures all { result.now ≡ self.now }
        ensures ordered { IsStrictlySortedBy T.cmp result.now }
    {
        &self.items
    }

    /// Whether the item is in the set. Takes time in the logarithm of their number, and no memory.
    pub fn contains(&self, item: &T) -> bool
        ensures { result ≡ is_among T.cmp self.now item.now }
    {
        place_of(&self.items, item).is_ok()
    }

    /// The greatest item that is not above the high one, or None where there is none. Takes time in the
    /// logarithm of their number, and no memory.
    pub fn last_up_to(&self, high: &T) -> Option<&T>
        ensures last { IfSome result (λ item. IsLastUpTo T.cmp self.now high.now item.now) }
        ensures none { IfNone result ((q : T) → IsTrue (is_among T.cmp self.now q) → is_gt (T.cmp q high.now) ≡ true) }
    {
        let items = self.items.as_slice();
        let end = items.partition_point(
            |item| -> bool
                ensures { result ≡ not (is_gt (T.cmp item.now high.entry.now)) }
            { !item.cmp(high).is_gt() },
        );
        if end == 0 {
            return None;
        }
        Some(&items[end - 1])
    }
}

impl<T: Ord + Copy, A: Allocator + Copy> OrderedSet<T, A> {
    /// The same items, on this allocator, in one copy of their memory. Takes as much memory.
    /// Its only refusal is OutOfMemory.
    pub fn copy(&self, alloc: A) -> Result<OrderedSet<T, A>, Refusal>
        ensures ok { IfOk result (λ copy. copy ≡ self.now) }
        ensures err { IsOkUnless result Refusal.OutOfMemory }
    {
        let items = Vec::from_slice(alloc, &self.items)?;
        Ok(OrderedSet { items })
    }

    /// The items of either set, in one pass over both. Takes memory in their number.
    /// Its only refusal is OutOfMemory.
    pub fn union(&self, alloc: A, other: &OrderedSet<T, A>) -> Result<OrderedSet<T, A>, Refusal>
        ensures ok { IfOk result (λ both. (q : T)
            → is_among T.cmp both q ≡ (is_among T.cmp self.now q || is_among T.cmp other.now q)) }
        ensures err { IsOkUnless result Refusal.OutOfMemory }
    {
        let mut both = OrderedSet::with_capacity(alloc, self.items.len().max(other.items.len()))?;
        let mut merge = ItemMerge::new(self.items(), other.items());
        while let Some(item) = merge.next() {
            both.insert(*item)?;
        }
        Ok(both)
    }
}

// The place of the item, or the one that it would take. The last item is looked at first, so that items
// which come in order go to the end with one comparison.
fn place_of<T: Ord>(items: &[T], item: &T) -> Result<usize, usize>
    requires { IsStrictlySortedBy T.cmp items.now }
    ensures found { IfOk result (IsPlaceIn T.cmp item.now items.now) }
    ensures absent { IfErr result (IsGapIn T.cmp item.now items.now) }
{
    match items.split_last() {
        Some((last, _)) if last.cmp(item).is_lt() => Err(items.len()),
        _ => items.binary_search(item),
    }
}

// Whether the items ascend, each once.
fn is_ascending<T: Ord>(items: &[T]) -> bool
    ensures { IsTrue result ↔ IsStrictlySortedBy T.cmp items.now }
{
    items.is_sorted_by(|x, y| x.cmp(y).is_lt())
}
