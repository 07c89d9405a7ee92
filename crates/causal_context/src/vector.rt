// The version vector: for each name the number up to which all its dots are known.
ghost use Rattle.std.specs.Prelude.{◌≡◌, ℕ, ◌≤◌, ◌-◌, ◌==◌, ◌↔◌, cond, max, unwrap_or, IsTrue, IfOk, IsOkUnless};
ghost use Rattle.std.specs.Option.{option_copied};
ghost use Rattle.std.specs.Ordering.{nat_cmp};
ghost use Rattle.std.specs.List.Sorted.{IsStrictlySortedBy};
ghost use Rattle.std.specs.Map.{keys_of};
ghost use Rattle.causal_context.specs.Context.{known_up_to};
ghost use Rattle.causal_context.specs.Canonical.{HasNoZero};

use dots::{Dot, Name, Refusal};
use ordered_list::{Merge, OrderedList};
use std::alloc::Allocator;

// The entry of the name, or 0 where there is none.
pub(crate) fn known_up_to<A: Allocator>(vector: &OrderedList<Name, u64, A>, name: Name) -> u64
    ensures { result ≡ known_up_to vector.now name }
{
    vector.get(&name).copied().unwrap_or(0)
}

// Whether no entry of the other is above the one here.
pub(crate) fn covers<A: Allocator>(
    vector: &OrderedList<Name, u64, A>,
    other: &OrderedList<Name, u64, A>,
) -> bool
    ensures { IsTrue result ↔ ((name : ℕ) → known_up_to other.now name ≤ known_up_to vector.now name) }
{
    for (name, number) in other.entries() {
        if *number > known_up_to(vector, *name) {
            return false;
        }
    }
    true
}

// The entries of both, the greater one where both have the name, in one pass over them.
pub(crate) fn merged<A: Allocator + Copy>(
    alloc: A,
    mine: &OrderedList<Name, u64, A>,
    yours: &OrderedList<Name, u64, A>,
) -> Result<OrderedList<Name, u64, A>, Refusal>
    requires mine { HasNoZero mine.now }
    requires yours { HasNoZero yours.now }
    ensures ok { IfOk result (λ both. (name : ℕ) → known_up_to both name
        ≡ max (known_up_to mine.now name) (known_up_to yours.now name)) }
    ensures no_zero { IfOk result HasNoZero }
    ensures ascend { IfOk result (λ both. IsStrictlySortedBy nat_cmp (keys_of both)) }
    ensures err { IsOkUnless result Refusal.OutOfMemory }
{
    let room = mine.entries().len().max(yours.entries().len());
    let mut both = OrderedList::with_capacity(alloc, room)?;
    let mut merge = Merge::new(mine.entries(), yours.entries());
    while let Some((name, x, y)) = merge.next() {
        both.insert(*name, greater_of(x, y))?;
    }
    Ok(both)
}

// Lowers the entry by one, which takes it out of the vector where it is 1.
pub(crate) fn lower<A: Allocator + Copy>(vector: &mut OrderedList<Name, u64, A>, dot: Dot)
    requires last { dot.number ≡ known_up_to vector.old dot.name }
    requires no_zero { HasNoZero vector.old }
    requires ascend { IsStrictlySortedBy nat_cmp (keys_of vector.old) }
    ensures lowered { (name : ℕ) → known_up_to vector.new name
        ≡ cond (dot.name == name) (dot.number - 1) (known_up_to vector.old name) }
    ensures no_zero { HasNoZero vector.new }
    ensures ascend { IsStrictlySortedBy nat_cmp (keys_of vector.new) }
{
    let name = dot.name();
    if dot.number() == 1 {
        vector.remove(&name);
        return;
    }
    vector.replace(&name, dot.number() - 1);
}

// The greater of the two numbers, one that is not there counting as 0.
fn greater_of(x: Option<&u64>, y: Option<&u64>) -> u64
    ensures { result ≡ max (unwrap_or (option_copied x.entry) 0) (unwrap_or (option_copied y.entry) 0) }
{
    x.copied().unwrap_or(0).max(y.copied().unwrap_or(0))
}

// Whether no entry is 0.
pub(crate) fn has_no_zero<A: Allocator>(vector: &OrderedList<Name, u64, A>) -> bool
    ensures { IsTrue result ↔ HasNoZero vector.now }
{
    for (_, number) in vector.entries() {
        if *number == 0 {
            return false;
        }
    }
    true
}
