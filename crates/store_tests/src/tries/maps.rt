// A trie and a frozen map, after calls at them. How many nodes a seal reaches and the walk of a thousand keys were computed by
// a program in python, from the paths of the keys.
use crate::tries::made::{Kept, Trie, bytes_of, first_of, put, put_all, taken};
use gen_trie::{Frozen, GenTrie, Iter, NoSummary};
use hash_path::{Fnv1a, PathHash, SameHash};
use std::alloc::Global;
use std::process::Abort;

// A call at a trie or a frozen map.
#[derive(Clone, Copy)]
enum Step {
    Put(&'static [u8], u64),
    // Each number below this one at its key.
    PutAll(u64),
    // A number at its key.
    PutNumber(u64),
    // Takes a key out that has this value, or None where it is not there.
    Take(&'static [u8], Option<u64>),
    Clear,
    Seal,
    // A frozen map that takes the place of the one before.
    Freeze,
    Share,
    Copy,
    SealFrozen,
    // The frozen map as a trie, in the place of the one before.
    Thaw,
}

// Writes the trie, and tells whether the call answers what it has to.
fn is_written<H: PathHash>(rt: &impl Abort, alloc: Global, trie: &mut Trie<H>, step: Step) -> bool {
    match step {
        Step::Put(key, value) => put(rt, alloc, trie, key, value),
        Step::PutAll(count) => put_all(rt, alloc, trie, count),
        Step::PutNumber(number) => put(rt, alloc, trie, &bytes_of(number), number),
        Step::Take(key, value) => return taken(rt, alloc, trie, key) == value,
        Step::Clear => trie.clear(),
        _ => trie.seal().expect(rt, "memory"),
    }
    true
}

// Makes the call, and tells whether it answers what it has to.
fn is_made<H: PathHash>(
    rt: &impl Abort,
    alloc: Global,
    trie: &mut Trie<H>,
    frozen: &mut Kept<H>,
    step: Step,
) -> bool {
    match step {
        Step::Freeze => *frozen = trie.freeze().expect(rt, "memory"),
        Step::Share => *frozen = trie.share().expect(rt, "memory"),
        Step::Copy => *frozen = frozen.copy().expect(rt, "memory"),
        Step::SealFrozen => frozen.seal().expect(rt, "memory"),
        Step::Thaw => *trie = frozen.thaw().expect(rt, "memory"),
        _ => return is_written(rt, alloc, trie, step),
    }
    true
}

// The same of several calls.
fn are_made<H: PathHash>(
    rt: &impl Abort,
    alloc: Global,
    trie: &mut Trie<H>,
    frozen: &mut Kept<H>,
    steps: &[Step],
) -> bool {
    let mut right = true;
    for step in steps {
        right = is_made(rt, alloc, trie, frozen, *step) && right;
    }
    right
}

// The walk as the digits of a number: three of the first byte of each key, and one of its value.
fn walked(walk: Iter<'_, u64, NoSummary>) -> u64 {
    let mut digits: u64 = 0;
    for (key, value) in walk {
        let with_key = digits.wrapping_mul(1_000).wrapping_add(first_of(key));
        digits = with_key.wrapping_mul(10).wrapping_add(*value);
    }
    digits
}

// How many keys there are, their walk, and whether all nodes keep their summaries.
type Seen = (u64, u64, bool);

// What is seen of a trie, how many nodes it has sealed, and what is seen of a frozen map.
type Both = (Seen, u64, Seen);

fn seen<H: PathHash>(trie: &Trie<H>, frozen: &Kept<H>) -> Both {
    let of_trie = walked(trie.into_iter());
    let of_frozen = walked(frozen.into_iter());
    (
        (trie.size(), of_trie, trie.is_sealed()),
        trie.stamped(),
        (frozen.size(), of_frozen, frozen.is_sealed()),
    )
}

// Of what, the calls at an empty trie and an empty frozen map, and what is seen of both then.
type Row = (&'static str, &'static [Step], Both);

// Whether it is so of these.
fn is_so_of<H: PathHash>(
    rt: &impl Abort,
    alloc: Global,
    trie: &mut Trie<H>,
    frozen: &mut Kept<H>,
    row: &Row,
) -> bool {
    let are_made = are_made(rt, alloc, trie, frozen, row.1);
    let are_seen = seen(trie, frozen) == row.2;
    are_seen && are_made
}

// The same of new ones by this hash, in boxes, as such a local is dear to prove.
fn is_so<H: PathHash>(rt: &impl Abort, alloc: Global, hash: H, row: &Row) -> bool {
    let mut trie = Box::new(alloc, GenTrie::new(alloc, hash)).expect(rt, "memory");
    let mut frozen = Box::new(alloc, Frozen::new(alloc, hash)).expect(rt, "memory");
    is_so_of(rt, alloc, &mut *trie, &mut *frozen, row)
}

const A: Step = Step::Put(b"a", 1);

const B: Step = Step::Put(b"b", 2);

const C: Step = Step::Put(b"c", 3);

const B_AGAIN: Step = Step::Put(b"b", 9);

const NONE: Seen = (0, 0, true);

// The walk of a, b and c by FNV-1a.
const THREE: u64 = 982_0971_0993;

// The same with 9 at b.
const REPLACED: u64 = 989_0971_0993;

const THOUSAND: u64 = 8_212_025_285_414_519_596;

const BY_FNV1A: &[Row] = &[
    ("new ones have no keys", &[], (NONE, 0, NONE)),
    (
        "a walk goes by the lowest bits of the hash",
        &[A, B, C],
        ((3, THREE, false), 0, NONE),
    ),
    (
        "a value is replaced",
        &[A, B, C, B_AGAIN],
        ((3, REPLACED, false), 0, NONE),
    ),
    (
        "a key is taken out once",
        &[A, B, C, Step::Take(b"a", Some(1)), Step::Take(b"a", None)],
        ((2, 982_0993, false), 0, NONE),
    ),
    (
        "a clear takes all keys out",
        &[A, B, C, Step::Clear],
        (NONE, 0, NONE),
    ),
    (
        "a freeze keeps the summaries",
        &[A, B, C, Step::Freeze],
        ((3, THREE, true), 0, (3, THREE, true)),
    ),
    (
        "a frozen map stays what it was",
        &[A, B, C, Step::Freeze, B_AGAIN, Step::Take(b"a", Some(1))],
        ((2, 989_0993, false), 0, (3, THREE, true)),
    ),
    (
        "a copy of a frozen map stays what it was",
        &[A, B, C, Step::Freeze, Step::Copy, Step::Clear],
        (NONE, 0, (3, THREE, true)),
    ),
    (
        "a frozen map that was thawed stays what it was",
        &[A, B, C, Step::Freeze, Step::Thaw, B_AGAIN],
        ((3, REPLACED, false), 0, (3, THREE, true)),
    ),
    (
        "a seal reaches each node",
        &[Step::PutAll(1_000), Step::Seal],
        ((1_000, THOUSAND, true), 315, NONE),
    ),
    (
        "a seal after a freeze reaches what was written",
        &[
            Step::PutAll(1_000),
            Step::Freeze,
            Step::PutNumber(1_000),
            Step::Seal,
        ],
        ((1_001, THOUSAND, true), 3, (1_000, THOUSAND, true)),
    ),
    (
        "a share keeps what summaries there are",
        &[Step::PutAll(1_000), Step::Share],
        ((1_000, THOUSAND, false), 0, (1_000, THOUSAND, false)),
    ),
    (
        "a share is sealed by itself",
        &[Step::PutAll(1_000), Step::Share, Step::SealFrozen],
        ((1_000, THOUSAND, false), 0, (1_000, THOUSAND, true)),
    ),
    (
        "a seal copies the nodes that are shared",
        &[Step::PutAll(1_000), Step::Share, Step::Seal],
        ((1_000, THOUSAND, true), 315, (1_000, THOUSAND, false)),
    ),
    (
        "as few nodes are sealed after a share as after a freeze",
        &[
            Step::PutAll(1_000),
            Step::Seal,
            Step::Share,
            Step::PutNumber(1_000),
            Step::Seal,
        ],
        ((1_001, THOUSAND, true), 3, (1_000, THOUSAND, true)),
    ),
];

#[test]
fn calls_leave_what_they_have_to(rt: HostRuntime) {
    for row in BY_FNV1A {
        assert!(rt; is_so(&rt, rt.alloc(), Fnv1a, row), "{}", row.0);
    }
}

const BY_ONE_HASH: &[Row] = &[
    (
        "a walk goes by bytes",
        &[A, B, C],
        ((3, 971_0982_0993, false), 0, NONE),
    ),
    (
        "keys are told apart, and one alone has no node that lacks a summary",
        &[
            A,
            B,
            C,
            Step::Take(b"b", Some(2)),
            Step::Take(b"c", Some(3)),
        ],
        ((1, 971, true), 0, NONE),
    ),
    (
        "keys of equal hashes are a list",
        &[A, B, C, Step::Freeze],
        ((3, 971_0982_0993, true), 0, (3, 971_0982_0993, true)),
    ),
];

#[test]
fn keys_of_one_hash_are_told_apart(rt: HostRuntime) {
    for row in BY_ONE_HASH {
        assert!(rt; is_so(&rt, rt.alloc(), SameHash(0), row), "{}", row.0);
    }
}
