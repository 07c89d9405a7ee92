// Live pairs of a map from keys to sets of dots, and the deltas that are joined into them.
use crate::made::{Pair, dot, set_of};
use causal_context::Context;
use causal_join::Causal;
use dot_store::{DotMap, DotSet, DotStore};
use dots::Key;
use gen_trie::NoSummary;
use hash_path::PathHash;
use live_map::Live;
use std::alloc::Global;
use std::process::Abort;

// Keys, and the one dot that a delta holds at each.
pub type Held<'a> = &'a [(&'a [u8], Pair)];

pub type LiveSets<H> = Live<DotSet, NoSummary, H>;

// Puts the set of the dot at the key, besides what the map has at other keys.
fn put(rt: &impl Abort, alloc: Global, map: &mut DotMap<Key, DotSet>, key: &[u8], one: Pair) {
    let key = Key::new(alloc, key).expect(rt, "memory");
    map.insert(key, set_of(rt, alloc, &[one]))
        .expect(rt, "memory");
}

// The map of these sets of one dot each.
pub fn map_of(rt: &impl Abort, alloc: Global, held: Held) -> DotMap<Key, DotSet> {
    let mut map = DotMap::empty(alloc);
    for (key, one) in held {
        put(rt, alloc, &mut map, key, *one);
    }
    map
}

// Joins in the delta of this map and this context, none of the map's dots being outside.
pub fn join<S: DotStore<Global>, H: PathHash>(
    rt: &impl Abort,
    alloc: Global,
    live: &mut Live<S, NoSummary, H>,
    map: DotMap<Key, S>,
    known: Context,
) {
    let delta = Causal::from_parts(map, known).expect(rt, "inside");
    live.join_delta(alloc, &delta).expect(rt, "memory");
}

// Whether the dot stands at the key, if any does.
pub fn stands<S: DotStore<Global>, H: PathHash>(
    rt: &impl Abort,
    alloc: Global,
    live: &Live<S, NoSummary, H>,
    key: &[u8],
    one: Pair,
) -> Option<bool> {
    let key = Key::new(alloc, key).expect(rt, "memory");
    let set = live.store().get(&key)?;
    Some(set.contains(dot(rt, one.0, one.1)))
}
