// What is read of a world.
use crate::tests::worlds::{Worlds, seventh};
use crate::trial::{is_there, wanted};
use dots::{Field, Key, Name, Refusal};
use std::alloc::Allocator;

// Of the replica 1, which has put v on 42 keys.
#[derive(Clone, Copy)]
pub(crate) enum What {
    Get,
    GetField,
    Values,
    Fields,
    Keys,
    // The second message, of forty keys.
    Message,
    // The number of keys, the context and the digest.
    Others,
}

pub(crate) fn read<A: Allocator + Copy>(
    heap: A,
    world: &Worlds<A>,
    what: What,
) -> Result<(), Refusal> {
    let one = Name::new(1).ok_or(Refusal::BadLine)?;
    match what {
        What::Others => others(world, one),
        _ => read_at(world, one, &seventh(heap)?, what),
    }
}

// Reads something, with one of the keys at hand.
fn read_at<A: Allocator + Copy>(
    world: &Worlds<A>,
    one: Name,
    key: &Key<A>,
    what: What,
) -> Result<(), Refusal> {
    match what {
        What::Get => are(world.get_at(one, key), 1),
        What::GetField => are(world.get_field_at(one, key, &Field::empty()), 1),
        What::Values => are(world.values_of_key_at(one, key), 1),
        What::Fields => are(world.fields_at(one, key), 1),
        What::Keys => are(world.keys_at(one), 42),
        What::Message => is_there(world.read(2)),
        What::Others => Ok(()),
    }
}

// Whether so many are found.
fn are<X: Drop, A: Allocator>(
    found: Result<Vec<X, A>, Refusal>,
    count: usize,
) -> Result<(), Refusal> {
    let found = found?;
    wanted(found.len() == count)
}

fn others<A: Allocator + Copy>(world: &Worlds<A>, one: Name) -> Result<(), Refusal> {
    let size = world.size_at(one)?;
    let known = world.context_at(one)?.entry(one);
    let digest = world.digest_at(one)?;
    wanted(size == 42 && known == 42 && digest.is_some())
}
