use causal_context::Context;
use dot_store::{DotMap, DotSet, DotStore};
use dots::{Dot, Key, Name};
use hash_path::Prefix;
use std::alloc::Global;
use std::process::Abort;

// The name and the number of a dot, neither of them 0.
pub type Pair = (u64, u64);

// The name of this number, which is not 0.
pub fn name(rt: &impl Abort, number: u64) -> Name {
    Name::new(number).expect(rt, "a name")
}

// The dot of this name and number, neither of them 0.
pub fn dot(rt: &impl Abort, of: u64, number: u64) -> Dot {
    Dot::new(name(rt, of), number).expect(rt, "a number")
}

pub fn context_of(rt: &impl Abort, alloc: Global, dots: &[Pair]) -> Context {
    let mut context = Context::new(alloc);
    for (of, number) in dots {
        context.add(dot(rt, *of, *number)).expect(rt, "memory");
    }
    context
}

pub fn set_of(rt: &impl Abort, alloc: Global, dots: &[Pair]) -> DotSet {
    let mut set = DotSet::empty(alloc);
    for (of, number) in dots {
        set.insert(dot(rt, *of, *number)).expect(rt, "memory");
    }
    set
}

// The store under the key.
pub fn under<S: DotStore<Global>>(
    rt: &impl Abort,
    alloc: Global,
    key: &[u8],
    store: S,
) -> DotMap<Key, S> {
    let mut map = DotMap::empty(alloc);
    let key = Key::new(alloc, key).expect(rt, "memory");
    map.insert(key, store).expect(rt, "memory");
    map
}

// The prefix of these indices.
pub fn prefix(rt: &impl Abort, indices: &[u32]) -> Prefix {
    let mut prefix = Prefix::root();
    for index in indices {
        prefix = prefix.child(*index).expect(rt, "an index");
    }
    prefix
}
