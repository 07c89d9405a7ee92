// Live pairs, by deltas that are joined in, and their stores, through the calls of every dot store.
use crate::live::made::{Held, LiveSets, join, map_of, stands};
use crate::live::stores::{Kept, is_copied, is_in_order, is_joined_with_an_empty_one, is_sealed};
use crate::made::{Pair, context_of, dot};
use causal_context::Context;
use dot_store::DotSet;
use dots::Name;
use hash_path::Fnv1a;
use live_map::Live;
use std::alloc::Global;
use std::process::Abort;

type LivePair = LiveSets<Fnv1a>;

// What a delta knows.
#[derive(Clone, Copy)]
enum Known {
    Dots(&'static [Pair]),
    // All dots of the name 1 up to the number.
    UpTo(u64),
}

// A delta: what it holds, and what it knows.
type Step = (Held<'static>, Known);

// The context of the dots of the name 1 up to the number.
fn up_to(rt: &impl Abort, alloc: Global, number: u64) -> Context {
    let name = Name::new(1).expect(rt, "a name");
    let vector = Vec::from_slice(alloc, &[(name, number)]).expect(rt, "memory");
    Context::from_parts(vector, Vec::new(alloc)).expect(rt, "canonical")
}

fn known_of(rt: &impl Abort, alloc: Global, known: Known) -> Context {
    match known {
        Known::Dots(dots) => context_of(rt, alloc, dots),
        Known::UpTo(number) => up_to(rt, alloc, number),
    }
}

// Joins these deltas in.
fn join_all(rt: &impl Abort, alloc: Global, live: &mut LivePair, steps: &[Step]) {
    for (held, known) in steps {
        let known = known_of(rt, alloc, *known);
        join(rt, alloc, live, map_of(rt, alloc, held), known);
    }
}

// What a pair is to have: so many keys, whether the dots stand at their keys, if any does, and whether the others are known.
type Wanted = (
    u64,
    &'static [(&'static [u8], Pair, Option<bool>)],
    &'static [(Pair, bool)],
);

fn stand_as_wanted(rt: &impl Abort, alloc: Global, live: &LivePair, wanted: &Wanted) -> bool {
    let mut all = live.store().size() == wanted.0;
    for (key, one, is_there) in wanted.1 {
        all = all && stands(rt, alloc, live, key, *one) == *is_there;
    }
    all
}

fn are_known_as_wanted(rt: &impl Abort, live: &LivePair, wanted: &Wanted) -> bool {
    let mut all = true;
    for (one, is_known) in wanted.2 {
        all = all && live.context().contains(dot(rt, one.0, one.1)) == *is_known;
    }
    all
}

// Puts forty keys, the dot of a key's number plus one at each.
fn put_forty(rt: &impl Abort, alloc: Global, live: &mut LivePair) {
    for number in 0..40u8 {
        let one = (1, number as u64 + 1);
        let known = context_of(rt, alloc, &[one]);
        join(
            rt,
            alloc,
            live,
            map_of(rt, alloc, &[(&[number], one)]),
            known,
        );
    }
}

// What is seen of a pair after its deltas.
#[derive(Clone, Copy)]
enum Asked {
    Has(Wanted),
    // Of 1:1 at a and 1:2 at b: its copy and its join are what they have to be.
    Copied,
    Joined,
    // Of forty keys: they stand in order.
    InOrder,
    // Of forty keys: it keeps the summaries of its nodes from a seal on.
    Sealed,
}

fn is_so_of_store(rt: &impl Abort, alloc: Global, store: &Kept<DotSet>, asked: Asked) -> bool {
    match asked {
        Asked::Copied => is_copied(rt, alloc, store),
        Asked::Joined => is_joined_with_an_empty_one(rt, alloc, store),
        _ => is_in_order(rt, alloc, store),
    }
}

fn is_so(rt: &impl Abort, alloc: Global, live: &mut LivePair, asked: Asked) -> bool {
    match asked {
        Asked::Has(wanted) => {
            let are_known = are_known_as_wanted(rt, live, &wanted);
            stand_as_wanted(rt, alloc, live, &wanted) && are_known
        }
        Asked::Sealed => is_sealed(rt, live),
        _ => is_so_of_store(rt, alloc, live.store(), asked),
    }
}

// The same of this pair, to which nothing happened, after these deltas.
fn is_so_after(
    rt: &impl Abort,
    alloc: Global,
    live: &mut LivePair,
    steps: &[Step],
    asked: Asked,
) -> bool {
    join_all(rt, alloc, live, steps);
    if matches!(asked, Asked::InOrder | Asked::Sealed) {
        put_forty(rt, alloc, live);
    }
    is_so(rt, alloc, live, asked)
}

// The same of a new pair, in a box, as such a local is dear to prove.
fn holds(rt: &impl Abort, alloc: Global, steps: &[Step], asked: Asked) -> bool {
    let live: LivePair = Live::new(alloc, Fnv1a);
    let mut boxed = Box::new(alloc, live).expect(rt, "memory");
    is_so_after(rt, alloc, &mut *boxed, steps, asked)
}

const LAST: Pair = (u64::MAX, u64::MAX);

// A write of 1:1 at a, one of 1:2 at b, and a remove that observed 1:1.
const AT_A: Step = (&[(b"a", (1, 1))], Known::Dots(&[(1, 1)]));

const AT_B: Step = (&[(b"b", (1, 2))], Known::Dots(&[(1, 2)]));

const REMOVE: Step = (&[], Known::Dots(&[(1, 1)]));

// A delta that no replica makes: 1:1 at a and at b.
const FORGED: Step = (&[(b"a", (1, 1)), (b"b", (1, 1))], Known::Dots(&[(1, 1)]));

const ROWS: &[(&str, &[Step], Asked)] = &[
    (
        "a write stands at its key and is known",
        &[AT_A],
        Asked::Has((
            1,
            &[(b"a", (1, 1), Some(true)), (b"b", (1, 1), None)],
            &[((1, 1), true), ((1, 2), false)],
        )),
    ),
    (
        "a remove that names no key finds the key",
        &[AT_A, REMOVE],
        Asked::Has((0, &[(b"a", (1, 1), None)], &[((1, 1), true)])),
    ),
    (
        "a dot that was removed stays removed",
        &[REMOVE, AT_A],
        Asked::Has((0, &[], &[])),
    ),
    (
        "a write over another takes its dot away",
        &[AT_A, (&[(b"a", (2, 1))], Known::Dots(&[(1, 1), (2, 1)]))],
        Asked::Has((
            1,
            &[(b"a", (2, 1), Some(true)), (b"a", (1, 1), Some(false))],
            &[],
        )),
    ),
    (
        "a dot can be at two keys",
        &[FORGED],
        Asked::Has((2, &[], &[])),
    ),
    (
        "a dot at two keys goes from both",
        &[FORGED, REMOVE],
        Asked::Has((0, &[], &[])),
    ),
    (
        "a write at one of two keys ends the dot at the other",
        &[FORGED, (&[(b"a", (1, 2))], Known::Dots(&[(1, 1), (1, 2)]))],
        Asked::Has((1, &[(b"a", (1, 2), Some(true))], &[])),
    ),
    (
        "a long run of dots costs what stands there",
        &[AT_A, (&[], Known::UpTo(u64::MAX - 1))],
        Asked::Has((0, &[], &[((1, u64::MAX - 1), true), ((1, u64::MAX), false)])),
    ),
    (
        "the last number of the last name can be removed",
        &[
            AT_A,
            (&[(b"b", LAST)], Known::Dots(&[LAST])),
            (&[], Known::Dots(&[LAST])),
        ],
        Asked::Has((1, &[(b"a", (1, 1), Some(true))], &[])),
    ),
    ("a copy is the same store", &[AT_A, AT_B], Asked::Copied),
    (
        "a join takes out just what the other side removed",
        &[AT_A, AT_B],
        Asked::Joined,
    ),
    (
        "the map of forty keys is in their order",
        &[],
        Asked::InOrder,
    ),
    (
        "a seal has the nodes keep their summaries",
        &[],
        Asked::Sealed,
    ),
];

#[test]
fn a_pair_has_what_its_deltas_leave(rt: HostRuntime) {
    for (what, steps, asked) in ROWS {
        assert!(rt; holds(&rt, rt.alloc(), steps, *asked), "{what}");
    }
}
