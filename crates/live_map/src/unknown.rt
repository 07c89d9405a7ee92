// The dots of a context that another one does not know.
ghost use Rattle.std.specs.Prelude.{◌≡◌, ◌≤◌, false, IsTrue, ◌⊎◌, IfOk, OnOk, IsOkUnless};
ghost use Rattle.std.specs.List.{All};
ghost use Rattle.causal_context.specs.Context.{has};
ghost use Rattle.dots.specs.Dot.{DotValue};

use crate::dot_span::dot_at;
use causal_context::Context;
use dots::{Dot, Name, Refusal};
use std::alloc::Allocator;

// Whether more dots than these may be unknown, as a forged context may say that it knows any number.
pub(crate) fn has_more_unknown<A: Allocator + Copy>(
    dots: &Context<A>,
    known: &Context<A>,
    most: u64,
) -> bool {
    let mut number = dots.cloud().len() as u64;
    for (name, last) in dots.vector() {
        number = number.saturating_add(last.saturating_sub(known.entry(*name)));
    }
    number > most
}

// The dots that are not known, as a context.
pub(crate) fn unknown_of<A: Allocator + Copy>(
    alloc: A,
    dots: &Context<A>,
    known: &Context<A>,
) -> Result<Context<A>, Refusal>
    ensures all { IfOk result (λ found. (d : DotValue) → IsTrue (has dots.now d) → has known.now d ≡ false → IsTrue (has found d)) }
    ensures only { IfOk result (λ found. (d : DotValue) → IsTrue (has found d) → IsTrue (has dots.now d)) }
    ensures err { IsOkUnless result Refusal.OutOfMemory }
{
    let mut found = Context::new(alloc);
    if let Err(refusal) = add_unknown(&mut found, dots, known) {
        drop(found);
        return Err(refusal);
    }
    Ok(found)
}

// Adds the dots that are not known.
fn add_unknown<A: Allocator + Copy>(
    found: &mut Context<A>,
    dots: &Context<A>,
    known: &Context<A>,
) -> Result<(), Refusal>
    ensures all { OnOk result ((d : DotValue) → IsTrue (has dots.now d) → has known.now d ≡ false → IsTrue (has found.new d)) }
    ensures only { OnOk result ((d : DotValue) → IsTrue (has found.new d) → IsTrue (has found.old d) ⊎ IsTrue (has dots.now d)) }
    ensures err { IsOkUnless result Refusal.OutOfMemory }
{
    add_vector(found, dots, known, dots.vector())?;
    add_cloud(found, dots, known, dots.cloud())
}

// Adds those of the dots that stand in this vector and are not known.
fn add_vector<A: Allocator + Copy>(
    found: &mut Context<A>,
    dots: &Context<A>,
    known: &Context<A>,
    vector: &[(Name, u64)],
) -> Result<(), Refusal>
    ensures there { OnOk result (All (λ entry. (d : DotValue) → d.name ≡ entry.0 → 1 ≤ d.number → d.number ≤ entry.1
        → IsTrue (has dots.now d) → has known.now d ≡ false → IsTrue (has found.new d)) vector.now) }
    ensures kept { OnOk result ((d : DotValue) → IsTrue (has found.old d) → IsTrue (has found.new d)) }
    ensures only { OnOk result ((d : DotValue) → IsTrue (has found.new d) → IsTrue (has found.old d) ⊎ IsTrue (has dots.now d)) }
    ensures err { IsOkUnless result Refusal.OutOfMemory }
{
    for (name, last) in vector {
        add_run(found, dots, known, *name, *last)?;
    }
    Ok(())
}

// Adds those of the dots of this name up to this number that are not known.
fn add_run<A: Allocator + Copy>(
    found: &mut Context<A>,
    dots: &Context<A>,
    known: &Context<A>,
    name: Name,
    last: u64,
) -> Result<(), Refusal>
    ensures there { OnOk result ((d : DotValue) → d.name ≡ name → 1 ≤ d.number → d.number ≤ last
        → IsTrue (has dots.now d) → has known.now d ≡ false → IsTrue (has found.new d)) }
    ensures kept { OnOk result ((d : DotValue) → IsTrue (has found.old d) → IsTrue (has found.new d)) }
    ensures only { OnOk result ((d : DotValue) → IsTrue (has found.new d) → IsTrue (has found.old d) ⊎ IsTrue (has dots.now d)) }
    ensures err { IsOkUnless result Refusal.OutOfMemory }
{
    for number in known.entry(name)..last {
        add_one(found, dots, known, dot_at(name, number + 1))?;
    }
    Ok(())
}

// Adds those of the dots that stand in this cloud and are not known.
fn add_cloud<A: Allocator + Copy>(
    found: &mut Context<A>,
    dots: &Context<A>,
    known: &Context<A>,
    cloud: &[Dot],
) -> Result<(), Refusal>
    ensures there { OnOk result (All (λ d. IsTrue (has dots.now d) → has known.now d ≡ false → IsTrue (has found.new d)) cloud.now) }
    ensures kept { OnOk result ((d : DotValue) → IsTrue (has found.old d) → IsTrue (has found.new d)) }
    ensures only { OnOk result ((d : DotValue) → IsTrue (has found.new d) → IsTrue (has found.old d) ⊎ IsTrue (has dots.now d)) }
    ensures err { IsOkUnless result Refusal.OutOfMemory }
{
    for dot in cloud {
        add_one(found, dots, known, *dot)?;
    }
    Ok(())
}

// Adds the dot, where it is one of the dots and is not known.
fn add_one<A: Allocator + Copy>(
    found: &mut Context<A>,
    dots: &Context<A>,
    known: &Context<A>,
    dot: Dot,
) -> Result<(), Refusal>
    ensures there { OnOk result (IsTrue (has dots.now dot) → has known.now dot ≡ false → IsTrue (has found.new dot)) }
    ensures kept { OnOk result ((d : DotValue) → IsTrue (has found.old d) → IsTrue (has found.new d)) }
    ensures only { OnOk result ((d : DotValue) → IsTrue (has found.new d) → IsTrue (has found.old d) ⊎ IsTrue (has dots.now d)) }
    ensures err { IsOkUnless result Refusal.OutOfMemory }
{
    if known.contains(dot) {
        return Ok(());
    }
    if !dots.contains(dot) {
        return Ok(());
    }
    found.add(dot)
}
