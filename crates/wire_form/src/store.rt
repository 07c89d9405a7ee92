// The store of a delta, in either form.
ghost use Rattle.std.specs.Prelude.{◌≡◌, true, false, IfOk, IsOkUnless};
ghost use Rattle.wire_form.specs.Store.{store, IsStoreOf};
ghost use Rattle.wire_form.specs.Reading.{Reads};

use crate::items::read_items;
use crate::plain::{Plain, is_plain_store};
use causal_join::{Fields, OrMapStore};
use dot_store::DotMap;
use dots::{Key, Refusal};
use std::alloc::Allocator;

// The store at the front of the bytes, which is plain or not, and the rest of them.
pub(crate) fn read_store<A: Allocator + Copy>(
    alloc: A,
    plain: bool,
    bytes: &[u8],
) -> Result<(OrMapStore<A>, &[u8]), Refusal>
    ensures { Reads (λ r. (r.0, r.1.now)) (store plain) (IsStoreOf plain) bytes.now result }
{
    if plain {
        read_plain_store(alloc, bytes)
    } else {
        read_full_store(alloc, bytes)
    }
}

fn read_plain_store<A: Allocator + Copy>(
    alloc: A,
    bytes: &[u8],
) -> Result<(OrMapStore<A>, &[u8]), Refusal>
    ensures { Reads (λ r. (r.0, r.1.now)) (store true) (IsStoreOf true) bytes.now result }
{
    let (entries, rest) = read_items::<(Key<A>, Plain<A>), A>(alloc, bytes)?;
    let stores = with_fields(alloc, entries)?;
    match DotMap::from_entries(stores) {
        Some(store) => Ok((store, rest)),
        None => Err(Refusal::NotAMessage),
    }
}

// The same keys, each with its fields.
fn with_fields<A: Allocator + Copy>(
    alloc: A,
    plain: Vec<(Key<A>, Plain<A>), A>,
) -> Result<Vec<(Key<A>, Fields<A>), A>, Refusal>
    ensures ok { IfOk result (λ entries. entries.items ≡ plain.items) }
    ensures err { IsOkUnless result Refusal.OutOfMemory }
{
    let mut entries = Vec::with_capacity(alloc, plain.len())?;
    for (key, plain) in plain {
        entries.push((key, plain.into_fields()))?;
    }
    Ok(entries)
}

// A plain store is not spelled by its fields, so that it has one spelling.
fn read_full_store<A: Allocator + Copy>(
    alloc: A,
    bytes: &[u8],
) -> Result<(OrMapStore<A>, &[u8]), Refusal>
    ensures { Reads (λ r. (r.0, r.1.now)) (store false) (IsStoreOf false) bytes.now result }
{
    let (entries, rest) = read_items::<(Key<A>, Fields<A>), A>(alloc, bytes)?;
    match DotMap::from_entries(entries) {
        Some(store) => {
            if is_plain_store(&store) {
                return Err(Refusal::NotAMessage);
            }
            Ok((store, rest))
        }
        None => Err(Refusal::NotAMessage),
    }
}
