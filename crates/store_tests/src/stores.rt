use crate::made::{Pair, dot, set_of};
use causal_context::Context;
use dot_store::{DotStore, Kept};
use std::alloc::Global;
use std::process::Abort;

// The dots of the store and these others.
fn known_by<S: DotStore<Global>>(
    rt: &impl Abort,
    alloc: Global,
    store: &S,
    others: &[Pair],
) -> Context {
    let mut known = store.dots(alloc).expect(rt, "memory");
    for (of, number) in others {
        known.add(dot(rt, *of, *number)).expect(rt, "memory");
    }
    known
}

// The join where each side knows its own dots and the others that are named.
fn joined<S: DotStore<Global>>(
    rt: &impl Abort,
    alloc: Global,
    mine: &S,
    seen: &[Pair],
    yours: &S,
    known: &[Pair],
) -> S {
    let own = known_by(rt, alloc, mine, seen);
    let theirs = known_by(rt, alloc, yours, known);
    mine.join(alloc, &own, yours, &theirs).expect(rt, "memory")
}

// Whether the store and its copy are the same as the one that is wanted.
fn is_wanted<S: DotStore<Global>>(rt: &impl Abort, alloc: Global, store: &S, wanted: &S) -> bool {
    let copy = wanted.copy(alloc).expect(rt, "memory");
    let (is_same, is_copied) = (store.same(wanted), copy.same(store));
    is_same && is_copied
}

// Whether the join, where each side knows its own dots and the others that are named, is the store that is wanted.
fn gives<S: DotStore<Global>>(
    rt: &impl Abort,
    alloc: Global,
    mine: &S,
    seen: &[Pair],
    yours: &S,
    known: &[Pair],
    wanted: &S,
) -> bool {
    let both = joined(rt, alloc, mine, seen, yours, known);
    is_wanted(rt, alloc, &both, wanted)
}

// Whether the join of the two sets is the set of the wanted dots.
fn joins_to(
    rt: &impl Abort,
    alloc: Global,
    mine: &[Pair],
    seen: &[Pair],
    yours: &[Pair],
    known: &[Pair],
    wanted: &[Pair],
) -> bool {
    let mine = set_of(rt, alloc, mine);
    let yours = set_of(rt, alloc, yours);
    let wanted = set_of(rt, alloc, wanted);
    gives(rt, alloc, &mine, seen, &yours, known, &wanted)
}

// The dots of name 1 whose numbers are above the one and at most the other.
fn row(rt: &impl Abort, alloc: Global, above: u64, last: u64) -> Vec<Pair> {
    let mut dots = Vec::new(alloc);
    for number in above..last {
        dots.push((1, number + 1)).expect(rt, "memory");
    }
    dots
}

// Whether of forty dots, of which the other side knows the first 30 and holds one of those and one of the others, the last
// ten and that one are left in either join.
fn are_joined_to_their_ends(rt: &impl Abort, alloc: Global, two: &[Pair]) -> bool {
    let forty = row(rt, alloc, 0, 40);
    let known = row(rt, alloc, 0, 30);
    let mut kept = row(rt, alloc, 30, 40);
    kept.push((1, 7)).expect(rt, "memory");
    let is_mine = joins_to(rt, alloc, &forty, &[], two, &known, &kept);
    let is_yours = joins_to(rt, alloc, two, &known, &forty, &[], &kept);
    is_mine && is_yours
}

#[test]
fn lists_of_different_lengths_are_joined_to_their_ends(rt: HostRuntime) {
    assert!(rt; are_joined_to_their_ends(&rt, rt.alloc(), &[(1, 40), (1, 7)]));
}

// A dot can stand as a value, so it can be copied.
#[test]
fn a_dot_is_copied(rt: HostRuntime) {
    let one = dot(&rt, 2, 7);
    assert!(rt; one.copy(rt.alloc()) == Ok(one));
}
