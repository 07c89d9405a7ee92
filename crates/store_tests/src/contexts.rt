// Contexts, by their version vectors and clouds.
use crate::forms::has_form;
use crate::made::{Pair, context_of, dot};
use causal_context::{Context, Growth};
use dots::Dot;
use std::alloc::Global;
use std::process::Abort;

// Whether the context of these dots has this vector and this cloud, and is empty just where there is no dot.
fn are_formed(
    rt: &impl Abort,
    alloc: Global,
    dots: &[Pair],
    vector: &[Pair],
    cloud: &[Pair],
) -> bool {
    let context = context_of(rt, alloc, dots);
    let is_told = context.is_empty() == dots.is_empty();
    has_form(rt, alloc, &context, vector, cloud) && is_told
}

// What holds, dots, and the version vector and the cloud of their context.
const FORMS: &[(&str, &[Pair], &[Pair], &[Pair])] = &[
    ("no dots", &[], &[], &[]),
    ("a dot past a gap", &[(1, 2)], &[], &[(1, 2)]),
    ("a gap is kept", &[(1, 3), (1, 1)], &[(1, 1)], &[(1, 3)]),
    (
        "a dot that closes a gap folds the cloud",
        &[(1, 3), (1, 1), (1, 2)],
        &[(1, 3)],
        &[],
    ),
    (
        "the cloud is in order",
        &[(3, 9), (1, 3), (2, 4), (2, 6), (2, 1), (2, 3)],
        &[(2, 1)],
        &[(1, 3), (2, 3), (2, 4), (2, 6), (3, 9)],
    ),
    (
        "a run is taken out from among other dots",
        &[(3, 9), (1, 3), (2, 4), (2, 6), (2, 1), (2, 3), (2, 2)],
        &[(2, 4)],
        &[(1, 3), (2, 6), (3, 9)],
    ),
    (
        "the greatest number alone is one dot",
        &[(1, u64::MAX)],
        &[],
        &[(1, u64::MAX)],
    ),
];

#[test]
fn dots_are_folded_into_a_vector_beside_a_cloud(rt: HostRuntime) {
    for (what, dots, vector, cloud) in FORMS {
        assert!(rt; are_formed(&rt, rt.alloc(), dots, vector, cloud), "{what}");
    }
}

// The union of the two.
fn united(rt: &impl Abort, alloc: Global, mine: &Context, yours: &Context) -> Context {
    mine.union(alloc, yours).expect(rt, "memory")
}

// Whether the first includes the other, and not the other way round.
fn is_above(one: &Context, other: &Context) -> bool {
    one.includes(other) && !other.includes(one)
}

// Whether the union has this vector and this cloud, and is more than the first of the two.
fn is_union_of(
    rt: &impl Abort,
    alloc: Global,
    mine: &Context,
    yours: &Context,
    vector: &[Pair],
    cloud: &[Pair],
) -> bool {
    let both = united(rt, alloc, mine, yours);
    let is_more = is_above(&both, mine);
    let is_formed = has_form(rt, alloc, &both, vector, cloud);
    is_formed && is_more
}

// The context of the first so many writes of a name.
fn row(rt: &impl Abort, alloc: Global, of: u64, last: u64) -> Context {
    let mut context = Context::new(alloc);
    for number in 0..last {
        context.add(dot(rt, of, number + 1)).expect(rt, "memory");
    }
    context
}

// Whether a million dots and the one after the next are one entry and one dot, which is more than the million.
fn is_one_entry_beside(rt: &impl Abort, alloc: Global, million: &Context) -> bool {
    let other = context_of(rt, alloc, &[(5, 1_000_002)]);
    let (vector, cloud) = ([(5, 1_000_000)], [(5, 1_000_002)]);
    is_union_of(rt, alloc, million, &other, &vector, &cloud)
}

// Whether so many writes of a name are one entry, also beside the dot after the next.
fn is_one_entry(rt: &impl Abort, alloc: Global) -> bool {
    let million = row(rt, alloc, 5, 1_000_000);
    let is_alone = has_form(rt, alloc, &million, &[(5, 1_000_000)], &[]);
    is_one_entry_beside(rt, alloc, &million) & is_alone
}

#[test]
fn a_million_writes_of_one_name_are_one_entry(rt: HostRuntime) {
    assert!(rt; is_one_entry(&rt, rt.alloc()));
}

// What a context lacks of another.
#[derive(Clone, Copy)]
enum Lacks {
    Nothing,
    One(Pair),
    More,
}

// Whether this dot alone is lacking.
fn is_one(found: Dot, lacks: Lacks) -> bool {
    match lacks {
        Lacks::One((of, number)) => found.name().number() == of && found.number() == number,
        _ => false,
    }
}

fn is_growth(growth: Growth, lacks: Lacks) -> bool {
    match growth {
        Growth::Nothing => matches!(lacks, Lacks::Nothing),
        Growth::One(found) => is_one(found, lacks),
        Growth::More => matches!(lacks, Lacks::More),
    }
}

// Whether the context of the first dots lacks this of that of the others.
fn lacks_so(rt: &impl Abort, alloc: Global, mine: &[Pair], yours: &[Pair], lacks: Lacks) -> bool {
    let here = context_of(rt, alloc, mine);
    let there = context_of(rt, alloc, yours);
    is_growth(here.growth(&there), lacks)
}

// What holds, the dots of a context and of another, and what the first lacks.
const GROWTHS: &[(&str, &[Pair], &[Pair], Lacks)] = &[
    ("two without dots", &[], &[], Lacks::Nothing),
    (
        "each is there",
        &[(1, 1), (1, 2), (1, 4), (2, 3)],
        &[(1, 1), (1, 4)],
        Lacks::Nothing,
    ),
    (
        "the one above an entry",
        &[(1, 1), (2, 1)],
        &[(1, 1), (1, 2), (2, 1)],
        Lacks::One((1, 2)),
    ),
    (
        "the first of a name",
        &[(1, 1)],
        &[(2, 1)],
        Lacks::One((2, 1)),
    ),
    (
        "one of the cloud",
        &[(1, 1)],
        &[(1, 1), (1, 3)],
        Lacks::One((1, 3)),
    ),
    (
        "the one in a gap",
        &[(1, 1), (1, 3)],
        &[(1, 1), (1, 2)],
        Lacks::One((1, 2)),
    ),
    (
        "two above entries",
        &[(1, 1)],
        &[(1, 1), (1, 2), (2, 1)],
        Lacks::More,
    ),
    (
        "two above one entry",
        &[(1, 1)],
        &[(1, 1), (1, 2), (1, 3)],
        Lacks::More,
    ),
    (
        "two of the cloud",
        &[(1, 1)],
        &[(1, 3), (2, 3)],
        Lacks::More,
    ),
    (
        "one above an entry and one of the cloud",
        &[],
        &[(1, 1), (1, 3)],
        Lacks::More,
    ),
];

#[test]
fn a_context_tells_what_it_lacks(rt: HostRuntime) {
    for (what, mine, yours, lacks) in GROWTHS {
        assert!(rt; lacks_so(&rt, rt.alloc(), mine, yours, *lacks), "{what}");
    }
}

// Takes a dot out, where it is there and the one above is not. Whether that is so.
fn is_taken_out(context: &mut Context, dot: Dot) -> bool {
    if !context.contains(dot) {
        return false;
    }
    if context.contains_above(dot) {
        return false;
    }
    context.take_out(dot);
    true
}

// Raises the entry to a dot, where it is just below and the dot above is not there. Whether that is so.
fn is_raised(context: &mut Context, dot: Dot) -> bool {
    let entry = context.entry(dot.name());
    if entry == 0 || entry == u64::MAX {
        return false;
    }
    if dot.number() != entry + 1 || context.contains_above(dot) {
        return false;
    }
    context.raise(dot);
    true
}

// The context with the dot besides.
fn added(rt: &impl Abort, alloc: Global, context: &Context, dot: Dot) -> Context {
    let mut more = context.copy(alloc).expect(rt, "memory");
    more.add(dot).expect(rt, "memory");
    more
}

// Whether the dot is taken out again, which leaves what was there.
fn is_given_back(rt: &impl Abort, alloc: Global, context: &Context, dot: Dot) -> bool {
    let mut more = added(rt, alloc, context, dot);
    let is_taken = is_taken_out(&mut more, dot);
    let is_same = more == *context;
    is_taken && is_same
}

// Whether the entry is raised to the dot, which leaves what an add does.
fn is_raised_so(rt: &impl Abort, alloc: Global, context: &Context, dot: Dot) -> bool {
    let mut raised = context.copy(alloc).expect(rt, "memory");
    let is_raised = is_raised(&mut raised, dot);
    let is_same = raised == added(rt, alloc, context, dot);
    is_raised && is_same
}

// A dot that comes to a context: whether the dot above is not there, and whether it is just above its entry besides.
type Come = (Pair, bool, bool);

fn comes_so(rt: &impl Abort, alloc: Global, dots: &[Pair], come: Come) -> bool {
    let context = context_of(rt, alloc, dots);
    let dot = dot(rt, come.0.0, come.0.1);
    let is_last = !context.contains_above(dot);
    let is_given_back = is_given_back(rt, alloc, &context, dot);
    let is_raised = is_raised_so(rt, alloc, &context, dot);
    is_last == come.1 && is_given_back == come.1 && is_raised == come.2
}

// What holds, the dots of a context, and one that comes.
const COMES: &[(&str, &[Pair], Come)] = &[
    ("the first dot", &[], ((1, 1), true, false)),
    (
        "the first of a name",
        &[(2, 1), (3, 1)],
        ((1, 1), true, false),
    ),
    (
        "the one above an entry",
        &[(1, 1), (1, 2), (2, 1)],
        ((1, 3), true, true),
    ),
    (
        "the one above an entry below a gap",
        &[(1, 1), (1, 4), (2, 3)],
        ((1, 2), true, true),
    ),
    (
        "one past a gap",
        &[(1, 1), (1, 5), (2, 2)],
        ((1, 3), true, false),
    ),
    (
        "the last of a name",
        &[(1, 1)],
        ((1, u64::MAX), true, false),
    ),
    (
        "one that closes a gap",
        &[(1, 1), (1, 3)],
        ((1, 2), false, false),
    ),
    (
        "one below another of the cloud",
        &[(1, 5)],
        ((1, 4), false, false),
    ),
];

#[test]
fn a_dot_that_came_is_taken_out_again(rt: HostRuntime) {
    for (what, dots, come) in COMES {
        assert!(rt; comes_so(&rt, rt.alloc(), dots, *come), "{what}");
    }
}
