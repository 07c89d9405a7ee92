// The values that a page names and that who asks for it lacks.
ghost use Rattle.std.specs.Prelude.{◌≡◌, ◌++◌, ◌∷◌, [], cond, IfOk, OnOk, IsOkUnless};
ghost use Rattle.causal_context.specs.Context.{has};
ghost use Rattle.hash_path.specs.Map.{walk_under};
ghost use Rattle.prefix_digest.specs.Values.{unknown_in_values, unknown_in_fields, unknown_in, unknown_at};

use crate::pages::FrozenMap;
use crate::told::{Told, look_under};
use causal_context::Context;
use causal_join::Fields;
use dot_store::DotFun;
use dots::{Dot, Refusal, Value};
use hash_path::{DEPTHS, PathHash, Prefix};
use std::alloc::Allocator;

/// The values that the page of a map at a prefix names, of those dots that are not known: in the order of keys, fields and
/// dots. A page that is a branch names none. Takes memory in these values, and time in them and in the dots of the page,
/// with a look in the context for each.
/// Its only refusal is OutOfMemory.
pub fn values_for<H: PathHash, A: Allocator + Copy>(
    alloc: A,
    frozen: &FrozenMap<H, A>,
    prefix: Prefix,
    known: &Context<A>,
) -> Result<Vec<Value<A>, A>, Refusal>
    ensures ok { IfOk result (λ values. values.items ≡ unknown_at (has known.now) (H.hash_of frozen.now.hash) frozen.now.map prefix) }
    ensures err { IsOkUnless result Refusal.OutOfMemory }
{
    let depth = prefix.depth();
    match look_under(frozen, prefix) {
        Told::Nothing => Ok(Vec::new(alloc)),
        Told::OneKey(_, _) => unknown_values(alloc, frozen, prefix, known),
        Told::Several if depth == DEPTHS => unknown_values(alloc, frozen, prefix, known),
        Told::Several => Ok(Vec::new(alloc)),
    }
}

// The values of all keys under a prefix whose dots are not known.
fn unknown_values<H: PathHash, A: Allocator + Copy>(
    alloc: A,
    frozen: &FrozenMap<H, A>,
    prefix: Prefix,
    known: &Context<A>,
) -> Result<Vec<Value<A>, A>, Refusal>
    ensures ok { IfOk result (λ values. values.items ≡ unknown_in (has known.now) (walk_under (H.hash_of frozen.now.hash) prefix frozen.now.map)) }
    ensures err { IsOkUnless result Refusal.OutOfMemory }
{
    let mut values = Vec::new(alloc);
    for (_, fields) in frozen.iter_under(prefix) {
        add_fields(alloc, &mut values, fields, known)?;
    }
    Ok(values)
}

fn add_fields<A: Allocator + Copy>(
    alloc: A,
    values: &mut Vec<Value<A>, A>,
    fields: &Fields<A>,
    known: &Context<A>,
) -> Result<(), Refusal>
    ensures ok { OnOk result (values.new.items ≡ values.old.items ++ unknown_in_fields (has known.now) fields.now) }
    ensures err { IsOkUnless result Refusal.OutOfMemory }
{
    for (_, held) in fields.entries() {
        add_values(alloc, values, held, known)?;
    }
    Ok(())
}

fn add_values<A: Allocator + Copy>(
    alloc: A,
    values: &mut Vec<Value<A>, A>,
    held: &DotFun<Value<A>, A>,
    known: &Context<A>,
) -> Result<(), Refusal>
    ensures ok { OnOk result (values.new.items ≡ values.old.items ++ unknown_in_values (has known.now) held.now) }
    ensures err { IsOkUnless result Refusal.OutOfMemory }
{
    for (dot, value) in held.entries() {
        add_value(alloc, values, *dot, value, known)?;
    }
    Ok(())
}

// Puts a value behind the others, unless its dot is known.
fn add_value<A: Allocator + Copy>(
    alloc: A,
    values: &mut Vec<Value<A>, A>,
    dot: Dot,
    value: &Value<A>,
    known: &Context<A>,
) -> Result<(), Refusal>
    ensures ok { OnOk result (values.new.items ≡ values.old.items ++ cond (has known.now dot) [] (value.now ∷ [])) }
    ensures err { IsOkUnless result Refusal.OutOfMemory }
{
    if known.contains(dot) {
        return Ok(());
    }
    values.push(value.copy(alloc)?)?;
    Ok(())
}
