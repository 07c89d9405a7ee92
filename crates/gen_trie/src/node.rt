ghost use Rattle.std.specs.Prelude.{◌≡◌, ℕ, ◌<◌, ◌≤◌, [], ◌^◌, ◌%◌, count_ones, MatchOption, IfSome, vec_len, T};
ghost use Rattle.std.specs.Option.{option_map};
ghost use Rattle.std.specs.FinMap.Entries.{find, is_sorted};
ghost use Rattle.dots.specs.Bytes.{bytes_cmp};
ghost use Rattle.hash_path.specs.Word.{word, digit};
ghost use Rattle.hash_path.specs.Fan.{at, place, there};
ghost use Rattle.gen_trie.specs.Shapes.{children, child, is_sealed, StandsBelow, IsBranch, IsSeat, listed};

use crate::entry::{Entry, entry_for};
use crate::listing::in_list;
use crate::summary::Summary;
use hash_path::index_at;
use std::alloc::Allocator;
use std::marker::Model;
use std::sync::Arc;

// A node of the trie, seen as its height, its entries by word, whether it is sealed, and its stamp. It is stamped with the
// generation that wrote it, and no node below it with a later one. It keeps the summary of its entries from a seal on to the next
// write: then each node below it keeps its own.
#[cycle(node)]
#[derive(Drop)]
pub(crate) struct Node<V, M: Summary<V>, A: Allocator> {
    pub stamp: u64,
    pub kept: Option<M>,
    pub shape: Shape<V, M, A>,
}

#[cycle(node)]
#[derive(Drop)]
pub(crate) enum Shape<V, M: Summary<V>, A: Allocator> {
    // The levels of branches below, the bitmap of the indices that have a child, and the children by index.
    Branch(u32, u32, Vec<Slot<V, M, A>, A>),
    // Past the last index: the entries of keys with equal hashes, by key bytes.
    Keys(Vec<Arc<Entry<V, A>, A>, A>),
}

// A child, with its index.
#[cycle(node)]
#[derive(Drop)]
pub(crate) enum Slot<V, M: Summary<V>, A: Allocator> {
    // One key alone.
    One(u32, Arc<Entry<V, A>, A>),
    // A node of two keys or more.
    Many(u32, Arc<Node<V, M, A>, A>),
}

impl<V, M: Summary<V>, A: Allocator> Model for Node<V, M, A> {
    ghost use Rattle.std.specs.Prelude.{ℕ, List, Bool};

    ghost Value = { ℕ × (List (List ℕ × V) × (Bool × ℕ)) };

    ghost use Rattle.gen_trie.specs.Shapes.{shows, AreNoNewer, IsCanonical};
    ghost use Rattle.gen_trie.specs.Kept.{IsKept};

    ghost view = { λ a. shows a.stamp a.kept a.shape };

    ghost invariant = { λ a. IsCanonical a.shape × IsKept M.calls a.kept a.shape × AreNoNewer a.stamp a.shape };

    ghost size = { λ d. d.0 };

    ghost use Rattle.gen_trie.specs.Falls.{falls};

    ghost size_decreases = { λ a h. falls V M A M.Summary A.Allocator a.shape h.0 };
}

impl<V, M: Summary<V>, A: Allocator> Slot<V, M, A> {
    fn index(&self) -> u32
        ensures { (below : ℕ) → result ≡ (child below self.now).0 }
    {
        match self {
            Slot::One(index, _) => *index,
            Slot::Many(index, _) => *index,
        }
    }

    // Whether each node of the child keeps its summary.
    pub(crate) fn keeps_summaries(&self) -> bool
        ensures { result ≡ is_sealed self.now }
    {
        match self {
            Slot::One(_, _) => true,
            Slot::Many(_, node) => node.kept.is_some(),
        }
    }
}

// The index of a hash where so many levels of branches are below.
pub(crate) fn digit_of(below: u32, hash: u32) -> u32
    requires { below ≤ 6 }
    ensures value { result ≡ digit below hash }
    ensures bound { result < 32 }
{
    match index_at(hash, 6 - below) {
        None => unreachable!(),
        Some(index) => index,
    }
}

// How many indices below this one the bitmap has.
fn position(bitmap: u32, index: u32) -> usize
    requires { index < 32 }
    ensures { result ≡ count_ones (bitmap % 2 ^ index) }
{
    (bitmap & ((1 << index) - 1)).count_ones() as usize
}

// Whether the child at a position has this index. The position is where it would stand.
fn is_there<V, M: Summary<V>, A: Allocator>(
    slots: &Vec<Slot<V, M, A>, A>,
    at: usize,
    index: u32,
) -> bool
    ensures { (below : ℕ) → at ≡ place index (children below slots.now.items) → result ≡ there index (children below slots.now.items) }
{
    match slots.get(at) {
        Some(slot) => slot.index() == index,
        None => false,
    }
}

// Where the child at the index of a hash stands, or would stand.
#[derive(Clone, Copy)]
pub(crate) struct Seat {
    pub index: u32,
    pub at: usize,
    pub taken: bool,
}

pub(crate) fn seat_of<V, M: Summary<V>, A: Allocator>(
    slots: &Vec<Slot<V, M, A>, A>,
    below: u32,
    bitmap: u32,
    hash: u32,
) -> Seat
    requires { IsBranch below bitmap slots.now.items }
    ensures { IsSeat (digit below hash) (children below slots.now.items) (vec_len slots.now) result.index result.at result.taken }
{
    let index = digit_of(below, hash);
    seat_at(slots, below, bitmap, index)
}

// Where the child at an index stands, or would stand.
fn seat_at<V, M: Summary<V>, A: Allocator>(
    slots: &Vec<Slot<V, M, A>, A>,
    below: u32,
    bitmap: u32,
    index: u32,
) -> Seat
    requires branch { IsBranch below bitmap slots.now.items }
    requires bound { index < 32 }
    ensures { IsSeat index (children below slots.now.items) (vec_len slots.now) result.index result.at result.taken }
{
    let at = position(bitmap, index);
    let taken = is_there(slots, at, index);
    Seat { index, at, taken }
}

// The child at an index.
pub(crate) fn slot_of<V, M: Summary<V>, A: Allocator>(
    slots: &Vec<Slot<V, M, A>, A>,
    below: u32,
    bitmap: u32,
    index: u32,
) -> Option<&Slot<V, M, A>>
    requires branch { IsBranch below bitmap slots.now.items }
    requires bound { index < 32 }
    ensures { MatchOption result (at index (children below slots.now.items) ≡ [])
        (λ slot. (child below slot.now ≡ (index, at index (children below slots.now.items))) × StandsBelow below slot.now) }
{
    let seat = seat_at(slots, below, bitmap, index);
    if seat.taken {
        Some(&slots[seat.at])
    } else {
        None
    }
}

// The child at the index of a hash.
fn slot_at<V, M: Summary<V>, A: Allocator>(
    slots: &Vec<Slot<V, M, A>, A>,
    below: u32,
    bitmap: u32,
    hash: u32,
) -> Option<&Slot<V, M, A>>
    requires { IsBranch below bitmap slots.now.items }
    ensures { MatchOption result (at (digit below hash) (children below slots.now.items) ≡ [])
        (λ slot. (child below slot.now ≡ (digit below hash, at (digit below hash) (children below slots.now.items))) × StandsBelow below slot.now) }
{
    let index = digit_of(below, hash);
    slot_of(slots, below, bitmap, index)
}

impl<V, M: Summary<V>, A: Allocator> Node<V, M, A> {
    // The entry of this hash and these bytes.
    pub fn lookup<'a>(&'a self, hash: u32, key: &[u8]) -> Option<&'a Arc<Entry<V, A>, A>>
        requires { T (is_sorted bytes_cmp self.now.1.0) }
        ensures value { option_map (λ found. found.now.value.value) result ≡ find bytes_cmp (word self.now.0 hash key.now) self.now.1.0 }
        ensures key { IfSome result (λ found. found.now.value.key ≡ key.now) }
    {
        match &self.shape {
            Shape::Branch(below, bitmap, slots) => match slot_at(slots, *below, *bitmap, hash) {
                None => None,
                Some(Slot::One(_, entry)) => entry_for(entry, hash, key),
                Some(Slot::Many(_, node)) => node.lookup(hash, key),
            },
            Shape::Keys(entries) => in_list(entries, hash, key),
        }
    }
}
