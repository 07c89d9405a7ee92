// Fields with each value by its name.
ghost use Rattle.std.specs.Prelude.{◌≡◌, IfOk, IsOkUnless};
ghost use Rattle.sha2.specs.Sha256.{sha256};
ghost use Rattle.prefix_digest.specs.Page as page;

use causal_join::Fields;
use dot_store::DotFun;
use dots::{Refusal, Value};
use ordered_list::OrderedList;
use sha2::{Digest, Sha256};
use std::alloc::Allocator;
use wire_form::{NamedFields, Names};

/// The name of a value in pages: the SHA-256 (FIPS 180-4) of its bytes. Takes time in them, and no memory.
pub fn value_digest<A: Allocator>(value: &Value<A>) -> [u8; 32]
    ensures { result ≡ sha256 value.now }
{
    Sha256::digest(value.bytes())
}

// The dots, each with the name of its value.
fn named_values<A: Allocator + Copy>(
    alloc: A,
    values: &DotFun<Value<A>, A>,
) -> Result<Names<A>, Refusal>
    ensures ok { IfOk result (λ names. names ≡ page.named_values values.now) }
    ensures err { IsOkUnless result Refusal.OutOfMemory }
{
    let entries = values.entries();
    let mut names = Vec::with_capacity(alloc, entries.len())?;
    for (dot, value) in entries {
        names.push((*dot, value_digest(value)))?;
    }
    match DotFun::from_entries(names) {
        Some(names) => Ok(names),
        None => unreachable!(),
    }
}

// The fields, each with its dots and the names of their values.
pub(crate) fn named_fields<A: Allocator + Copy>(
    alloc: A,
    fields: &Fields<A>,
) -> Result<NamedFields<A>, Refusal>
    ensures ok { IfOk result (λ named. named ≡ page.named_fields fields.now) }
    ensures err { IsOkUnless result Refusal.OutOfMemory }
{
    let entries = fields.entries();
    let mut named = Vec::with_capacity(alloc, entries.len())?;
    for (field, values) in entries {
        let names = named_values(alloc, values)?;
        named.push((field.copy(alloc)?, names))?;
    }
    match OrderedList::from_entries(named) {
        Some(named) => Ok(named),
        None => unreachable!(),
    }
}
