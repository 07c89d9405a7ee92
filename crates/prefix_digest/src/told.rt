// How much a part of a map has to tell.
ghost use Rattle.hash_path.specs.Map.{walk_under};
ghost use Rattle.prefix_digest.specs.Told.{TellsEntries};

use crate::pages::FrozenMap;
use causal_join::Fields;
use dots::Key;
use hash_path::{PathHash, Prefix};
use std::alloc::Allocator;

// The keys under a prefix: none, one with its fields, or several.
#[derive(Drop)]
pub(crate) enum Told<'a, A: Allocator + Copy> {
    Nothing,
    OneKey(&'a Key<A>, &'a Fields<A>),
    Several,
}

// What the map has under the prefix. It looks at two keys at most.
pub(crate) fn look_under<'a, H: PathHash, A: Allocator + Copy>(
    frozen: &'a FrozenMap<H, A>,
    prefix: Prefix,
) -> Told<'a, A>
    ensures { TellsEntries (walk_under (H.hash_of frozen.now.hash) prefix frozen.now.map) result }
{
    let mut entries = frozen.iter_under(prefix);
    let Some((key, fields)) = entries.next() else {
        return Told::Nothing;
    };
    if entries.next().is_some() {
        return Told::Several;
    }
    Told::OneKey(key, fields)
}
