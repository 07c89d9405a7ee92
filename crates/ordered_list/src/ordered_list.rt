ghost use Rattle.std.specs.Prelude.{◌≡◌, ◌↔◌, ◌≤◌, vec_len, cond, Some, None, [], IsTrue, IsSome, IfSome, IfOk, IfErr, OnOk, OnErr, IsOkUnless};
ghost use Rattle.std.specs.Option.{option_copied};
ghost use Rattle.std.specs.Ordering.{is_eq};
ghost use Rattle.std.specs.List.{insert};
ghost use Rattle.std.specs.List.Sorted.{IsStrictlySortedBy};
ghost use Rattle.std.specs.Map.{keys_of, remove_entry};
ghost use Rattle.std.specs.BTreeMap.{is_at, insert_entry};
ghost use Rattle.ordered_list.specs.Places.{value_at, IsPlaceOf, IsGapFor};

use dots::Refusal;
use std::alloc::{Allocator, Global};
use std::cmp::Ordering;
use std::marker::Model;

/// A map as the list of its entries, by ascending key.
///
/// Most lists hold one entry or a few, for which this takes the room of the entries and no more. A look-up
/// is a binary search. An insert or a removal moves the entries that come after, so it takes time in these:
/// none at the end, where a join and a decoder insert.
#[derive(Drop)]
pub struct OrderedList<K: Ord, V, A: Allocator = Global> {
    items: Vec<(K, V), A>,
}

impl<K: Ord, V, A: Allocator> Model for OrderedList<K, V, A> {
    ghost use Rattle.std.specs.Prelude.{List};
    ghost use Rattle.std.specs.List.Sorted.{IsStrictlySortedBy};
    ghost use Rattle.std.specs.Map.{keys_of};

    ghost Value = { List (K × V) };

    ghost view = { λ list. list.items.items };

    ghost invariant = { λ list. IsStrictlySortedBy K.cmp (keys_of list.items.items) };
}

impl<K: Ord + Drop, V: Drop, A: Allocator + Copy> OrderedList<K, V, A> {
    /// The list with no entries. Takes no memory.
    pub fn new(alloc: A) -> OrderedList<K, V, A>
        ensures { result ≡ [] }
    {
        OrderedList {
            items: Vec::new(alloc),
        }
    }

    /// The list with no entries, and with room for this many, which is the memory that it takes.
    /// Its only refusal is OutOfMemory.
    pub fn with_capacity(alloc: A, capacity: usize) -> Result<OrderedList<K, V, A>, Refusal>
        ensures ok { IfOk result (λ list. list ≡ []) }
        ensures err { IsOkUnless result Refusal.OutOfMemory }
    {
        let items = Vec::with_capacity(alloc, capacity)?;
        Ok(OrderedList { items })
    }

    /// The list of these entries, or None exactly where their keys do not ascend, each key once. Takes the
    /// vector over as it is, and no memory, and time in the number of entries.
    pub fn from_entries(items: Vec<(K, V), A>) -> Option<OrderedList<K, V, A>>
        ensures ascend { IsSome result ↔ IsStrictlySortedBy K.cmp (keys_of items.items) }
        ensures entries { IfSome result (λ list. list ≡ items.items) }
    {
        if !is_ascending(&items) {
            return None;
        }
        Some(OrderedList { items })
    }

    /// Puts the value at the key, in place of what was there. A refused call leaves the list as it was. Takes
    /// time in the number of greater keys, besides that of a look-up, and memory for the entry: at times for
    /// twice as many as there are.
    /// Its only refusal is OutOfMemory.
    pub fn insert(&mut self, key: K, value: V) -> Result<(), Refusal>
        ensures ok { OnOk result (self.new ≡ insert_entry K.cmp self.old key value) }
        ensures updates { OnOk result ((q : K)
            → value_at K.cmp self.new q ≡ cond (is_eq (K.cmp key q)) (Some value) (value_at K.cmp self.old q)) }
        ensures unchanged { OnErr result (self.new ≡ self.old) }
        ensures err { IsOkUnless result Refusal.OutOfMemory }
    {
        match place_of(&self.items, &key) {
            Ok(place) => {
                self.items[place].1 = value;
                Ok(())
            }
            Err(place) => insert_at(&mut self.items, place, (key, value)),
        }
    }

    /// Puts the value at the key in place of the one that is there. Takes the time of a look-up, and no memory.
    pub fn replace(&mut self, key: &K, value: V)
        requires { IsSome (value_at K.cmp self.old key.now) }
        ensures entries { self.new ≡ insert_entry K.cmp self.old key.now value }
        ensures updates { (q : K)
            → value_at K.cmp self.new q ≡ cond (is_eq (K.cmp key.now q)) (Some value) (value_at K.cmp self.old q) }
    {
        match place_of(&self.items, key) {
            Ok(place) => self.items[place].1 = value,
            Err(_) => unreachable!(),
        }
    }

    /// Takes the entry of the key out, if there is one. Takes time in the number of greater keys, besides that
    /// of a look-up, and no memory.
    pub fn remove(&mut self, key: &K)
        ensures entries { self.new ≡ remove_entry (is_at (K.cmp key.now)) self.old }
        ensures updates { (q : K)
            → value_at K.cmp self.new q ≡ cond (is_eq (K.cmp key.now q)) None (value_at K.cmp self.old q) }
    {
        if let Ok(place) = place_of(&self.items, key) {
            self.items.remove(place);
        }
    }
}

impl<K: Ord, V, A: Allocator> OrderedList<K, V, A> {
    /// The entries, in the order of their keys. Copies nothing.
    pub fn entries(&self) -> &[(K, V)]
        ensures all { result.now ≡ self.now }
        ensures ordered { IsStrictlySortedBy K.cmp (keys_of result.now) }
    {
        &self.items
    }

    /// The entries themselves, in the order of their keys. Copies nothing.
    pub fn into_entries(self) -> Vec<(K, V), A>
        ensures all { result.items ≡ self }
        ensures ordered { IsStrictlySortedBy K.cmp (keys_of result.items) }
    {
        self.items
    }

    /// The value at the key. Takes time in the logarithm of their number, and no memory.
    /// None exactly where it has none.
    pub fn get(&self, key: &K) -> Option<&V>
        ensures { option_copied result ≡ value_at K.cmp self.now key.now }
    {
        match place_of(&self.items, key) {
            Ok(place) => Some(&self.items[place].1),
            Err(_) => None,
        }
    }
}

impl<K: Ord + Copy, V: Copy, A: Allocator + Copy> OrderedList<K, V, A> {
    /// The same entries, on this allocator, in one copy of their memory. Takes as much memory.
    /// Its only refusal is OutOfMemory.
    pub fn copy(&self, alloc: A) -> Result<OrderedList<K, V, A>, Refusal>
        ensures ok { IfOk result (λ copy. copy ≡ self.now) }
        ensures err { IsOkUnless result Refusal.OutOfMemory }
    {
        let items = Vec::from_slice(alloc, &self.items)?;
        Ok(OrderedList { items })
    }
}

// The place of the key among the entries, or the one that it would take. The last entry is looked at first,
// so that entries which come in order go to the end with one comparison.
fn place_of<K: Ord, V>(entries: &[(K, V)], key: &K) -> Result<usize, usize>
    requires { IsStrictlySortedBy K.cmp (keys_of entries.now) }
    ensures found { IfOk result (IsPlaceOf K.cmp key.now entries.now) }
    ensures absent { IfErr result (IsGapFor K.cmp key.now entries.now) }
{
    match entries.split_last() {
        Some((last, _)) if last.0.cmp(key).is_lt() => Err(entries.len()),
        _ => entries.binary_search_by(
            |entry| -> Ordering
                ensures { result ≡ K.cmp entry.now.0 key.entry.now }
            { entry.0.cmp(key) },
        ),
    }
}

// Puts the item at the place. An empty vector would take room for four at once, and most lists stay at one.
pub(crate) fn insert_at<T: Drop, A: Allocator + Copy>(
    items: &mut Vec<T, A>,
    place: usize,
    item: T,
) -> Result<(), Refusal>
    requires { place ≤ vec_len items.old }
    ensures ok { OnOk result (items.new.items ≡ insert items.old.items place item) }
    ensures unchanged { OnErr result (items.new.items ≡ items.old.items) }
    ensures err { IsOkUnless result Refusal.OutOfMemory }
{
    if items.is_empty() {
        items.reserve_exact(1)?;
    }
    items.insert(place, item)?;
    Ok(())
}

/// Whether the keys ascend, each once. Takes a comparison for each two neighbours, up to the first that do not, and no memory.
pub fn is_ascending<K: Ord, V>(entries: &[(K, V)]) -> bool
    ensures { IsTrue result ↔ IsStrictlySortedBy K.cmp (keys_of entries.now) }
{
    entries.is_sorted_by(|x, y| x.0.cmp(&y.0).is_lt())
}
