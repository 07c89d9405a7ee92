use crate::made::{Pair, context_of, set_of, under};
use causal_context::Context;
use causal_join::Causal;
use dot_store::DotStore;
use std::alloc::Global;
use std::process::Abort;

// Whether the pairs have the same store and the same context.
pub fn are_same<S: DotStore<Global>>(one: &Causal<S>, other: &Causal<S>) -> bool {
    one.store().same(other.store())
        && one.context().includes(other.context())
        && other.context().includes(one.context())
}

// Whether the join of the two is the second.
fn join_is<S: DotStore<Global>>(
    rt: &impl Abort,
    alloc: Global,
    mine: &Causal<S>,
    theirs: &Causal<S>,
) -> bool {
    let both = mine.join(alloc, theirs).expect(rt, "memory");
    are_same(&both, theirs)
}

// Whether the first becomes the second once that is joined into it.
fn join_into_is<S: DotStore<Global>>(
    rt: &impl Abort,
    alloc: Global,
    mine: &Causal<S>,
    theirs: &Causal<S>,
) -> bool {
    let mut copy = mine.copy(alloc).expect(rt, "memory");
    copy.join_into(alloc, theirs).expect(rt, "memory");
    are_same(&copy, theirs)
}

// Whether the first is below the other.
fn is_below<S: DotStore<Global>>(
    rt: &impl Abort,
    alloc: Global,
    one: &Causal<S>,
    other: &Causal<S>,
) -> bool {
    one.is_below(alloc, other).expect(rt, "memory")
}

// The pair of the store and the context of these dots.
fn pair<S: DotStore<Global>>(
    rt: &impl Abort,
    alloc: Global,
    store: S,
    known: &[Pair],
) -> Causal<S> {
    let known = context_of(rt, alloc, known);
    Causal::from_parts(store, known).expect(rt, "inside")
}

// Whether both joins of the two give the second, which is more than the first.
fn is_more<S: DotStore<Global>>(
    rt: &impl Abort,
    alloc: Global,
    mine: &Causal<S>,
    theirs: &Causal<S>,
) -> bool {
    let is_joined = join_is(rt, alloc, mine, theirs);
    let is_joined_into = join_into_is(rt, alloc, mine, theirs);
    let is_less = is_below(rt, alloc, mine, theirs);
    let is_same = is_below(rt, alloc, theirs, mine);
    is_joined && is_joined_into && is_less && !is_same
}

// The same of the pairs of these stores and contexts.
fn join_to_theirs<S: DotStore<Global>>(
    rt: &impl Abort,
    alloc: Global,
    mine: S,
    my_dots: &[Pair],
    theirs: S,
    their_dots: &[Pair],
) -> bool {
    let mine = pair(rt, alloc, mine, my_dots);
    let theirs = pair(rt, alloc, theirs, their_dots);
    is_more(rt, alloc, &mine, &theirs)
}

#[test]
fn a_removed_dot_stays_removed_in_the_join(rt: HostRuntime) {
    let (alloc, my_dots) = (rt.alloc(), [(1, 1), (1, 2)]);
    let mine = set_of(&rt, alloc, &my_dots);
    let theirs = set_of(&rt, alloc, &[(1, 2), (2, 1)]);
    let known = [(1, 1), (1, 2), (2, 1)];
    assert!(rt; join_to_theirs(&rt, alloc, mine, &my_dots, theirs, &known));
}

// Whether a store of the dot 1:1 goes where the other side knows it.
fn goes<S: DotStore<Global>>(rt: &impl Abort, alloc: Global, store: S) -> bool {
    let empty = S::empty(alloc);
    join_to_theirs(rt, alloc, store, &[(1, 1)], empty, &[(1, 1)])
}

// The same of it under the key k. It is a function of its own, as one over two levels of keys is dear to prove.
fn goes_from_k<S: DotStore<Global>>(rt: &impl Abort, alloc: Global, store: S) -> bool {
    let keys = under(rt, alloc, b"k", store);
    goes(rt, alloc, keys)
}

// The same of the set under the field f there.
fn goes_from_f_of_k<S: DotStore<Global>>(rt: &impl Abort, alloc: Global, store: S) -> bool {
    let fields = under(rt, alloc, b"f", store);
    goes_from_k(rt, alloc, fields)
}

#[test]
fn a_dot_removed_under_two_keys_leaves_no_key(rt: HostRuntime) {
    let set = set_of(&rt, rt.alloc(), &[(1, 1)]);
    assert!(rt; goes_from_f_of_k(&rt, rt.alloc(), set));
}

// Whether the store and the context of no dots make a pair.
fn is_pair<S: DotStore<Global>>(alloc: Global, store: S) -> bool {
    Causal::from_parts(store, Context::new(alloc)).is_some()
}

#[test]
fn a_dot_outside_the_context_makes_no_pair(rt: HostRuntime) {
    let set = set_of(&rt, rt.alloc(), &[(1, 1)]);
    assert!(rt; !is_pair(rt.alloc(), set));
}
