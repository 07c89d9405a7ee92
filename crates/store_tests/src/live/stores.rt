// A store that is kept as a trie, through the calls of every dot store.
use crate::made::{Pair, context_of, dot};
use dot_store::{DotMap, DotStore};
use dots::Key;
use gen_trie::NoSummary;
use hash_path::Fnv1a;
use live_map::Live;
use std::alloc::Global;
use std::process::Abort;
use trie_map::TrieMap;

pub type Kept<S> = TrieMap<S, NoSummary, Fnv1a>;

// Whether the store has just these dots.
fn has_just<S: DotStore<Global>>(rt: &impl Abort, alloc: Global, store: &S, dots: &[Pair]) -> bool {
    let context = context_of(rt, alloc, dots);
    let all = store.dots(alloc).expect(rt, "memory");
    all == context && store.is_inside(&context)
}

// Whether the join of two stores, each with the dots that it knows, has just these.
fn is_joined<S: DotStore<Global>>(
    rt: &impl Abort,
    alloc: Global,
    first: (&S, &[Pair]),
    second: (&S, &[Pair]),
    wanted: &[Pair],
) -> bool {
    let own = context_of(rt, alloc, first.1);
    let theirs = context_of(rt, alloc, second.1);
    let both = first
        .0
        .join(alloc, &own, second.0, &theirs)
        .expect(rt, "memory");
    has_just(rt, alloc, &both, wanted)
}

// Whether of a store of 1:1 and 1:2 the second is left in the join with an empty one, which knows the first.
pub fn is_joined_with_an_empty_one<S: DotStore<Global>>(
    rt: &impl Abort,
    alloc: Global,
    store: &S,
) -> bool {
    let empty = S::empty(alloc);
    is_joined(
        rt,
        alloc,
        (store, &[(1, 1), (1, 2)]),
        (&empty, &[(1, 1)]),
        &[(1, 2)],
    )
}

// Whether a copy of the store is the same, and an empty one is another.
pub fn is_copied<S: DotStore<Global>>(rt: &impl Abort, alloc: Global, store: &S) -> bool {
    let copy = store.copy(alloc).expect(rt, "memory");
    let empty = S::empty(alloc);
    copy.same(store)
        & empty.is_empty()
        & !copy.is_empty()
        & !empty.same(store)
        & !store.same(&empty)
}

// Whether each key of the map is at its place with its dot.
fn are_placed<S: DotStore<Global>>(rt: &impl Abort, map: &DotMap<Key, S>) -> bool {
    let mut placed = map.entries().len() == 40;
    for (number, (key, set)) in map.entries().iter().enumerate() {
        placed = placed
            && key.bytes() == [(number % 0x100) as u8].as_slice()
            && set.contains(dot(rt, 1, (number as u64).wrapping_add(1)));
    }
    placed
}

// Whether the map in order has forty keys, and each is at its place with its dot.
pub fn is_in_order<S: DotStore<Global>>(rt: &impl Abort, alloc: Global, store: &Kept<S>) -> bool {
    let map = store.to_map(alloc).expect(rt, "memory");
    are_placed(rt, &map)
}

// Whether a map that shares the nodes of the store keeps the summaries of its nodes from a seal on, and not before.
fn is_share_sealed<S: DotStore<Global>>(rt: &impl Abort, store: &Kept<S>) -> bool {
    let mut map = store.share().expect(rt, "memory");
    let before = map.frozen().is_sealed();
    map.seal().expect(rt, "memory");
    map.frozen().is_sealed() && !before
}

// The same of that map, and then of the pair.
pub fn is_sealed<S: DotStore<Global>>(rt: &impl Abort, live: &mut Live<S>) -> bool {
    let is_share_sealed = is_share_sealed(rt, live.store());
    let before = live.store().frozen().is_sealed();
    live.seal().expect(rt, "memory");
    let after = live.store().frozen().is_sealed();
    after && is_share_sealed && !before
}
