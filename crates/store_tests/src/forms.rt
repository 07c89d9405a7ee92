// Contexts by numbers.
use crate::made::Pair;
use causal_context::Context;
use std::alloc::Global;
use std::process::Abort;

// The version vector.
fn vector_of(rt: &impl Abort, alloc: Global, context: &Context) -> Vec<Pair> {
    let mut entries = Vec::new(alloc);
    for (name, number) in context.vector() {
        entries.push((name.number(), *number)).expect(rt, "memory");
    }
    entries
}

// The names and numbers of the cloud.
fn cloud_of(rt: &impl Abort, alloc: Global, context: &Context) -> Vec<Pair> {
    let mut pairs = Vec::new(alloc);
    for dot in context.cloud() {
        pairs
            .push((dot.name().number(), dot.number()))
            .expect(rt, "memory");
    }
    pairs
}

// Whether these are the version vector and the cloud.
pub fn has_form(
    rt: &impl Abort,
    alloc: Global,
    context: &Context,
    vector: &[Pair],
    cloud: &[Pair],
) -> bool {
    let entries = vector_of(rt, alloc, context);
    let dots = cloud_of(rt, alloc, context);
    (entries.as_slice() == vector) & (dots.as_slice() == cloud)
}
