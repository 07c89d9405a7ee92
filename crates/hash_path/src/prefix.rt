ghost use Rattle.std.specs.Prelude.{◌≡◌, ◌+◌, ◌<◌, ◌≤◌, ◌⊎◌, ◌↔◌, [], ◌∷◌, ◌++◌, length, refl, IsTrue, MatchOption, IfSome};
ghost use Rattle.std.specs.Cmp.{eq_by_cmp_equiv, partial_equiv_from_equiv, partial_order_from_total};
ghost use Rattle.std.specs.Cmp.Lexicographic.{nat_list_cmp_total};
ghost use Rattle.std.specs.Ordering.{eq_by_cmp, as_partial_cmp};
ghost use Rattle.hash_path.specs.Path.{AreIndices, index_in, indices, last_index, prefix_cmp};

use std::cmp::Ordering;
use std::marker::Model;

/// How many indices a hash has: the depth of a prefix that is a whole path.
pub const DEPTHS: u32 = 7;

/// The index of a hash at a depth from 0 to 6: five of its bits, from the lowest on, so 0 to 31, and 0 to 3 at the
/// depth 6, where two bits are left. None past it.
pub fn index_at(hash: u32, depth: u32) -> Option<u32>
    ensures { MatchOption result (6 < depth) (λ index. (depth ≤ 6) × (index ≡ index_in hash depth)) }
{
    if depth >= DEPTHS {
        return None;
    }
    Some((hash >> (5 * depth)) & 31)
}

// The greatest index that a child at this depth can have.
fn last_at(depth: u32) -> u32
    ensures { result ≡ last_index depth }
{
    if depth < DEPTHS - 1 { 31 } else { 3 }
}

/// The indices from the root of a trie down to a node, of which there are at most seven. Prefixes are ordered index by
/// index from the first on, one that another begins with before it. Each call takes constant time, and no memory. After the
/// hash paths of Prokopec, Bronson, Bagwell and Odersky, "Concurrent Tries with Efficient Non-Blocking Snapshots" (2012).
#[derive(Clone, Copy, Debug)]
pub struct Prefix {
    depth: u32,
    // The indices, each in five bits, the first in the lowest.
    bits: u32,
}

impl Model for Prefix {
    ghost use Rattle.std.specs.Prelude.{ℕ, ◌*◌, ◌^◌, ◌<◌, ◌≤◌, List, length};
    ghost use Rattle.hash_path.specs.Path.{indices, packed};
    ghost use Rattle.hash_path.specs.PathLaws.{unpacked};

    ghost Value = { List ℕ };

    ghost view = { λ a. indices a.depth a.bits };

    ghost invariant = { λ a. (a.depth ≤ 7) × (a.bits < 2 ^ (5 * a.depth)) × (a.bits < 2 ^ 32) };

    ghost inverse = { λ path. record { depth = length path; bits = packed path } };

    ghost inverse_ok = { λ a h i. record { depth = (unpacked a.depth a.bits h.1).0 i; bits = (unpacked a.depth a.bits h.1).1 i } };
}

impl Prefix {
    /// The prefix of no indices, which each hash is under.
    pub fn root() -> Prefix
        ensures { result ≡ [] }
    {
        Prefix { depth: 0, bits: 0 }
    }

    /// This prefix and one index more. None at the depth 7, and for an index past the greatest there: 31, at the
    /// seventh 3.
    pub fn child(self, index: u32) -> Option<Prefix>
        ensures { MatchOption result ((length self ≡ 7) ⊎ (last_index (length self) < index)) (λ child. child ≡ self ++ index ∷ []) }
    {
        if self.depth >= DEPTHS || index > last_at(self.depth) {
            return None;
        }
        Some(Prefix {
            depth: self.depth + 1,
            bits: self.bits + (index << (5 * self.depth)),
        })
    }

    /// The greatest index that a child can have: 31, and 3 at the depth 6. None exactly at the depth 7, which has no child.
    pub fn last_child(self) -> Option<u32>
        ensures { MatchOption result (length self ≡ 7) (λ last. (length self < 7) × (last ≡ last_index (length self))) }
    {
        if self.depth >= DEPTHS {
            return None;
        }
        Some(last_at(self.depth))
    }

    /// The first index, and the prefix of those after it. None at the root.
    pub fn split_first(self) -> Option<(u32, Prefix)>
        ensures parts { MatchOption result (self ≡ []) (λ parts. self ≡ parts.0 ∷ parts.1) }
        ensures bound { IfSome result (λ parts. parts.0 < 32) }
        ensures length { length self ≤ 7 }
    {
        if self.depth == 0 {
            return None;
        }
        let rest = Prefix {
            depth: self.depth - 1,
            bits: self.bits / 32,
        };
        Some((self.bits % 32, rest))
    }

    /// The number of indices, from 0 to 7.
    pub fn depth(self) -> u32
        ensures length { result ≡ length self }
        ensures bound { result ≤ 7 }
        ensures indices { AreIndices 0 self }
    {
        self.depth
    }

    /// Whether the path of a hash begins with this prefix.
    pub fn covers(self, hash: u32) -> bool
        ensures { IsTrue result ↔ (indices (length self) hash ≡ self) }
    {
        if self.depth >= DEPTHS {
            return hash == self.bits;
        }
        hash % (1 << (5 * self.depth)) == self.bits
    }
}

// The order of two prefixes whose first indices are these, and whose rests are.
#[cycle(order)]
fn order_behind(mine: (u32, Prefix), yours: (u32, Prefix)) -> Ordering
    ensures { result ≡ prefix_cmp (mine.0 ∷ mine.1) (yours.0 ∷ yours.1) }
{
    mine.0.cmp(&yours.0).then(order(mine.1, yours.1))
}

// The order of two prefixes.
#[cycle(order)]
fn order(mine: Prefix, yours: Prefix) -> Ordering
    ensures { result ≡ prefix_cmp mine yours }
{
    match (mine.split_first(), yours.split_first()) {
        (None, None) => Ordering::Equal,
        (None, Some(_)) => Ordering::Less,
        (Some(_), None) => Ordering::Greater,
        (Some(first), Some(other)) => order_behind(first, other),
    }
}

impl PartialEq for Prefix {
    ghost eq = { eq_by_cmp prefix_cmp };

    ghost laws = { partial_equiv_from_equiv (eq_by_cmp_equiv nat_list_cmp_total) };

    fn eq(&self, other: &Prefix) -> bool {
        self.cmp(other).is_eq()
    }
}

impl Eq for Prefix {
    ghost laws = { eq_by_cmp_equiv nat_list_cmp_total };
}

impl PartialOrd for Prefix {
    ghost partial_cmp = { as_partial_cmp prefix_cmp };

    ghost laws = { partial_order_from_total nat_list_cmp_total };

    fn partial_cmp(&self, other: &Prefix) -> Option<Ordering> {
        Some(self.cmp(other))
    }
}

impl Ord for Prefix {
    ghost cmp = { prefix_cmp };

    ghost total = { nat_list_cmp_total };

    ghost matches_partial_cmp = { λ x y. refl };

    ghost matches_eq = { λ x y. refl };

    fn cmp(&self, other: &Prefix) -> Ordering {
        order(*self, *other)
    }
}
