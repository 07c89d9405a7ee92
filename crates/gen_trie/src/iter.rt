ghost use Rattle.std.specs.Prelude.{◌≡◌, ◌-◌, ◌<◌, ◌≤◌, suc, length, [], ◌∷◌, ◌++◌, MatchOption};
ghost use Rattle.std.specs.List.{All};
ghost use Rattle.std.specs.Iterator.{YieldsFirstBy, item_count};
ghost use Rattle.hash_path.specs.Map.{by_key};
ghost use Rattle.hash_path.specs.Summary.{under_prefix};
ghost use Rattle.gen_trie.specs.Shapes.{child, StandsBelow};
ghost use Rattle.gen_trie.specs.Root.{root_entries, RootStands};
ghost use Rattle.gen_trie.specs.Left.{item, slots_left, levels_left, root_left, left, LevelsStand, RootFits, RestStands, NoneBelow, IsPast};

use crate::entry::Entry;
use crate::node::{Shape, Slot};
use crate::seeking::slot_below;
use crate::summary::Summary;
use dots::Key;
use hash_path::Prefix;
use std::alloc::{Allocator, Global};
use std::iter::FusedIterator;
use std::marker::Model;
use std::sync::Arc;

// What is left of a walk.
#[derive(Drop)]
pub(crate) struct Rest<'a, V, M: Summary<V>, A: Allocator> {
    // Of a list of keys with equal hashes.
    list: &'a [Arc<Entry<V, A>, A>],
    // Of the branches on the way down, each at the number of levels of branches below it.
    levels: [&'a [Slot<V, M, A>]; 7],
    // What the walk is of, before the first call: the root, or a child under it, with the indices that are left below.
    root: Option<&'a Slot<V, M, A>>,
    height: u32,
}

/// The keys of a map with their values, by ascending index sequence of the key's hash, and those of equal hashes by key
/// bytes. It takes no memory, and a call of `next` touches eight nodes at most.
#[derive(Drop)]
pub struct Iter<'a, V, M: Summary<V>, A: Allocator = Global> {
    rest: Rest<'a, V, M, A>,
}

impl<'a, V, M: Summary<V>, A: Allocator> Model for Iter<'a, V, M, A> {
    ghost use Rattle.std.specs.Prelude.{ℕ, List};
    ghost use Rattle.std.specs.Coded.{coded×, coded_list, coded_ℕ};

    ghost Value = { List (List ℕ × V) };

    ghost coded = { coded_list (coded× (coded_list coded_ℕ) V.code) };

    ghost use Rattle.gen_trie.specs.Left.{left, RestStands};

    ghost view = { λ it. left it.rest };

    ghost invariant = { λ it. RestStands it.rest };
}

// Leaves these children of a branch with so many levels of branches below for later calls.
fn leave<'a, V, M: Summary<V>, A: Allocator>(
    levels: &mut [&'a [Slot<V, M, A>]; 7],
    below: u32,
    slots: &'a [Slot<V, M, A>],
)
    requires bound { below < 7 }
    requires fits { All (StandsBelow below) slots.now }
    requires stand { LevelsStand 0 levels.old }
    requires past { NoneBelow (suc below) levels.old }
    ensures left { levels_left 0 levels.new ≡ slots_left below slots.now ++ levels_left 0 levels.old }
    ensures stand { LevelsStand 0 levels.new }
    ensures past { NoneBelow below levels.new }
{
    levels[below as usize] = slots;
}

// The first of the children that are left of the branch with so many levels of branches below.
fn next_slot<'a, V, M: Summary<V>, A: Allocator>(
    levels: &mut [&'a [Slot<V, M, A>]; 7],
    below: u32,
) -> Option<&'a Slot<V, M, A>>
    requires bound { below < 7 }
    requires stand { LevelsStand 0 levels.old }
    requires past { NoneBelow below levels.old }
    ensures first { MatchOption result ((levels.new ≡ levels.old) × NoneBelow (suc below) levels.old)
        (λ slot. (levels_left 0 levels.old ≡ by_key below (child below slot.now).1 ++ levels_left 0 levels.new) × StandsBelow below slot.now × NoneBelow below levels.new) }
    ensures stand { LevelsStand 0 levels.new }
{
    let (first, others) = levels[below as usize].split_first()?;
    levels[below as usize] = others;
    Some(first)
}

// The first entry of a slot. What stands behind it there is left for later calls.
fn enter<'a, V, M: Summary<V>, A: Allocator>(
    rest: &mut Rest<'a, V, M, A>,
    below: u32,
    slot: &'a Slot<V, M, A>,
) -> &'a Arc<Entry<V, A>, A>
    requires fits { StandsBelow below slot.now }
    requires stands { RestStands rest.old }
    requires past { IsPast below rest.old }
    ensures first { by_key below (child below slot.now).1 ++ left rest.old ≡ item result.now.value ∷ left rest.new }
    ensures stands { RestStands rest.new }
{
    match slot {
        Slot::One(_, entry) => entry,
        Slot::Many(_, node) => match &node.shape {
            Shape::Branch(lower, _, slots) => match slots.as_slice().split_first() {
                None => unreachable!(),
                Some((first, others)) => {
                    leave(&mut rest.levels, *lower, others);
                    enter(rest, *lower, first)
                }
            },
            Shape::Keys(entries) => match entries.as_slice().split_first() {
                None => unreachable!(),
                Some((first, others)) => {
                    rest.list = others;
                    first
                }
            },
        },
    }
}

// The next entry of the branches, once the list has none.
fn next_below<'a, V, M: Summary<V>, A: Allocator>(
    rest: &mut Rest<'a, V, M, A>,
) -> Option<&'a Arc<Entry<V, A>, A>>
    requires stands { RestStands rest.old }
    requires past { IsPast 0 rest.old }
    ensures first { MatchOption result ((rest.new ≡ rest.old) × IsPast 7 rest.old) (λ entry. left rest.old ≡ item entry.now.value ∷ left rest.new) }
    ensures stands { RestStands rest.new }
{
    for below in 0..7 {
        if let Some(slot) = next_slot(&mut rest.levels, below) {
            return Some(enter(rest, below, slot));
        }
    }
    None
}

// The first entry of the walk, once nothing else is left.
fn first_entry<'a, V, M: Summary<V>, A: Allocator>(
    rest: &mut Rest<'a, V, M, A>,
) -> Option<&'a Arc<Entry<V, A>, A>>
    requires stands { RestStands rest.old }
    requires past { IsPast 7 rest.old }
    ensures first { MatchOption result ((left rest.old ≡ []) × (left rest.new ≡ [])) (λ entry. left rest.old ≡ item entry.now.value ∷ left rest.new) }
    ensures stands { RestStands rest.new }
{
    let height = rest.height;
    match rest.root.take() {
        None => None,
        Some(slot) => Some(enter(rest, height, slot)),
    }
}

// The next entry of the walk.
fn next_entry<'a, V, M: Summary<V>, A: Allocator>(
    rest: &mut Rest<'a, V, M, A>,
) -> Option<&'a Arc<Entry<V, A>, A>>
    requires stands { RestStands rest.old }
    ensures first { MatchOption result ((left rest.old ≡ []) × (left rest.new ≡ [])) (λ entry. left rest.old ≡ item entry.now.value ∷ left rest.new) }
    ensures stands { RestStands rest.new }
{
    if let Some((first, others)) = rest.list.split_first() {
        rest.list = others;
        return Some(first);
    }
    if let Some(entry) = next_below(rest) {
        return Some(entry);
    }
    first_entry(rest)
}

impl<'a, V, M: Summary<V>, A: Allocator> Iter<'a, V, M, A> {
    // The entries of a child of this height.
    fn of(root: Option<&'a Slot<V, M, A>>, height: u32) -> Iter<'a, V, M, A>
        requires fits { RootFits height root }
        requires height { height ≤ 7 }
        ensures { result ≡ root_left height root.entry }
    {
        let rest = Rest {
            list: &[],
            levels: [&[]; 7],
            root,
            height,
        };
        Iter { rest }
    }

    // The entries of the trie of this root.
    pub(crate) fn new(root: &'a Option<Slot<V, M, A>>) -> Iter<'a, V, M, A>
        requires { RootStands root.now }
        ensures { result ≡ by_key 7 (root_entries root.now) }
    {
        Iter::of(root.as_ref(), 7)
    }

    // Those whose paths begin with a prefix.
    pub(crate) fn under(root: &'a Option<Slot<V, M, A>>, prefix: Prefix) -> Iter<'a, V, M, A>
        requires { RootStands root.now }
        ensures short { length prefix ≤ 7 }
        ensures part { result ≡ by_key (7 - length prefix) (under_prefix prefix (root_entries root.now)) }
    {
        let height = 7 - prefix.depth();
        match root {
            None => Iter::of(None, height),
            Some(slot) => Iter::of(slot_below(slot, 7, prefix), height),
        }
    }
}

impl<'a, V, M: Summary<V>, A: Allocator> Iterator for Iter<'a, V, M, A> {
    type Item = (&'a Key<A>, &'a V);

    ghost next_gives = { YieldsFirstBy (λ item. (item.0.now, item.1.now)) (λ it. it) };

    ghost remaining = { item_count (λ it. it) };

    fn next(&mut self) -> Option<(&'a Key<A>, &'a V)> {
        let entry = next_entry(&mut self.rest)?;
        Some((&entry.key, &entry.value))
    }
}

impl<'a, V, M: Summary<V>, A: Allocator> FusedIterator for Iter<'a, V, M, A> {}
