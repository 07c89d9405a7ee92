// Workiva's calls: tries with snapshots, by single acts and by runs of them.
use ctrie_api::{Act, Ctrie, Tries};
use dots::{Key, Refusal};
use hash_path::Fnv1a;
use std::alloc::Global;
use std::process::Abort;

type Map = Ctrie<u64, Fnv1a>;

type Maps = Tries<u64, Fnv1a>;

// An act at the trie of an index. Each key is one byte.
#[derive(Clone, Copy)]
enum Step {
    Put(usize, u8, u64),
    Take(usize, u8),
    Clear(usize),
    Snapshot(usize),
    ReadOnlySnapshot(usize),
}

fn key_of(rt: &impl Abort, alloc: Global, byte: u8) -> Key {
    Key::new(alloc, &[byte]).expect(rt, "memory")
}

fn act_of(rt: &impl Abort, alloc: Global, step: Step) -> Act<u64> {
    match step {
        Step::Put(index, byte, value) => Act::Insert(index, key_of(rt, alloc, byte), value),
        Step::Take(index, byte) => Act::Remove(index, key_of(rt, alloc, byte)),
        Step::Clear(index) => Act::Clear(index),
        Step::Snapshot(index) => Act::Snapshot(index),
        Step::ReadOnlySnapshot(index) => Act::ReadOnlySnapshot(index),
    }
}

// An act, and whether its trie is there, or how it is refused.
type Told = (Step, Result<bool, Refusal>);

const THERE: Result<bool, Refusal> = Ok(true);

const ABSENT: Result<bool, Refusal> = Ok(false);

const REFUSED: Result<bool, Refusal> = Err(Refusal::ReadOnly);

// Carries the acts out one by one, and tells whether each answers what it has to.
fn are_told(rt: &impl Abort, alloc: Global, tries: &mut Maps, acts: &[Told]) -> bool {
    let mut right = true;
    for (step, told) in acts {
        let act = act_of(rt, alloc, *step);
        right = tries.act(act) == *told && right;
    }
    right
}

// The acts as a list.
fn listed(rt: &impl Abort, alloc: Global, acts: &[Told]) -> Vec<Act<u64>> {
    let mut list = Vec::new(alloc);
    for (step, _) in acts {
        list.push(act_of(rt, alloc, *step)).expect(rt, "memory");
    }
    list
}

// What a trie shows: how many keys, the values in the order of its walk as the digits of a number, and whether it is read-only.
type Shown = (u64, u64, bool);

fn digits(trie: &Map) -> u64 {
    let mut number: u64 = 0;
    for (_, value) in trie {
        number = number.wrapping_mul(10).wrapping_add(*value);
    }
    number
}

fn shown(tries: &Maps, index: usize) -> Option<Shown> {
    let trie = tries.trie(index)?;
    Some((trie.size(), digits(trie), trie.is_read_only()))
}

// Whether there are just these tries.
fn are_shown(tries: &Maps, wanted: &[Shown]) -> bool {
    let mut same = tries.len() == wanted.len() && shown(tries, wanted.len()).is_none();
    for (index, one) in wanted.iter().enumerate() {
        same = same && shown(tries, index) == Some(*one);
    }
    same
}

// An empty trie alone.
fn first(rt: &impl Abort, alloc: Global) -> Maps {
    Tries::new(alloc, Ctrie::new(alloc, Fnv1a)).expect(rt, "memory")
}

// Whether there are those tries after these acts at an empty one, each of which answers what it has to.
fn are_shown_after(rt: &impl Abort, alloc: Global, acts: &[Told], wanted: &[Shown]) -> bool {
    let mut tries = first(rt, alloc);
    are_told(rt, alloc, &mut tries, acts) & are_shown(&tries, wanted)
}

// The same after a run of the acts.
fn are_shown_after_a_run(rt: &impl Abort, alloc: Global, acts: &[Told], wanted: &[Shown]) -> bool {
    let mut tries = first(rt, alloc);
    let is_made = tries.run(listed(rt, alloc, acts)) == Ok(());
    are_shown(&tries, wanted) && is_made
}

// Of what, the acts, and the tries then.
type Row = (&'static str, &'static [Told], &'static [Shown]);

const A: Told = (Step::Put(0, b'a', 1), THERE);

const B: Told = (Step::Put(0, b'b', 2), THERE);

const C: Told = (Step::Put(0, b'c', 3), THERE);

const B_AGAIN: Told = (Step::Put(0, b'b', 9), THERE);

const ROWS: &[Row] = &[
    (
        "a trie is walked by the lowest bits of the hash",
        &[A, B, C],
        &[(3, 213, false)],
    ),
    (
        "a value is replaced",
        &[A, B, C, B_AGAIN],
        &[(3, 913, false)],
    ),
    (
        "a key is taken out once",
        &[
            A,
            B,
            C,
            (Step::Take(0, b'a'), THERE),
            (Step::Take(0, b'a'), THERE),
        ],
        &[(2, 23, false)],
    ),
    (
        "a trie and its snapshot do not see what is written into the other",
        &[
            A,
            (Step::Snapshot(0), THERE),
            B,
            (Step::Take(0, b'a'), THERE),
            (Step::Put(1, b'c', 3), THERE),
        ],
        &[(1, 2, false), (2, 13, false)],
    ),
    (
        "a read-only snapshot stays what it was",
        &[A, B, C, (Step::ReadOnlySnapshot(0), THERE), B_AGAIN],
        &[(3, 913, false), (3, 213, true)],
    ),
    (
        "a read-only snapshot and its snapshots refuse writes",
        &[
            A,
            (Step::ReadOnlySnapshot(0), THERE),
            (Step::Snapshot(1), THERE),
            (Step::ReadOnlySnapshot(2), THERE),
            (Step::Clear(0), THERE),
            (Step::Put(1, b'e', 4), REFUSED),
            (Step::Take(1, b'a'), REFUSED),
            (Step::Clear(1), REFUSED),
            (Step::Put(2, b'e', 4), REFUSED),
            (Step::Take(2, b'a'), REFUSED),
            (Step::Clear(2), REFUSED),
            (Step::Clear(3), REFUSED),
        ],
        &[(0, 0, false), (1, 1, true), (1, 1, true), (1, 1, true)],
    ),
    (
        "an act at a trie that is not there changes nothing",
        &[
            A,
            (Step::Put(1, b'b', 2), ABSENT),
            (Step::Take(1, b'a'), ABSENT),
            (Step::Clear(2), ABSENT),
            (Step::Snapshot(1), ABSENT),
            (Step::ReadOnlySnapshot(1), ABSENT),
        ],
        &[(1, 1, false)],
    ),
];

#[test]
fn acts_write_each_trie_alone(rt: HostRuntime) {
    for (of, acts, wanted) in ROWS {
        assert!(rt; are_shown_after(&rt, rt.alloc(), acts, wanted), "{of}");
        assert!(rt;
            are_shown_after_a_run(&rt, rt.alloc(), acts, wanted),
            "{of}, by a run"
        );
    }
}
