// Whether all dots of what a page tells, and of what is kept of the own map for it, are known.
ghost use Rattle.std.specs.Prelude.{◌≡◌, []};
ghost use Rattle.causal_context.specs.Context.{has};
ghost use Rattle.hash_path.specs.Map.{walk_under};
ghost use Rattle.wire_form.specs.Page as form;
ghost use Rattle.sync_model.specs.Fetch.{entries_of, within_values, within_fields, within};
ghost use Rattle.sync_model.specs.Fetch as model;
ghost use Rattle.sync_model.specs.Laws.{KnowsEachDot};
ghost use Rattle.prefix_digest.specs.Page.{digest_at};

use causal_context::Context;
use dot_store::DotFun;
use dots::{Field, Key};
use hash_path::{PathHash, Prefix};
use prefix_digest::{FrozenMap, digest};
use std::alloc::Allocator;
use wire_form::{NamedFields, Page};

// Whether the dots of a field are known.
fn knows_values<V: Drop, A: Allocator + Copy>(known: &Context<A>, values: &DotFun<V, A>) -> bool
    ensures { result ≡ within_values (has known.now) values.now }
{
    for (dot, _) in values.entries() {
        if !known.contains(*dot) {
            return false;
        }
    }
    true
}

// Whether the dots of the fields of a key are known.
fn knows_fields<V: Drop, A: Allocator + Copy>(
    known: &Context<A>,
    fields: &[(Field<A>, DotFun<V, A>)],
) -> bool
    ensures { result ≡ within_fields (has known.now) fields.now }
{
    for (_, values) in fields {
        if !knows_values(known, values) {
            return false;
        }
    }
    true
}

// Whether the dots of several keys on a page are known.
fn knows_keys<A: Allocator + Copy>(known: &Context<A>, entries: &[(Key<A>, NamedFields<A>)]) -> bool
    ensures { result ≡ within (has known.now) entries.now }
{
    for (_, named) in entries {
        if !knows_fields(known, named.entries()) {
            return false;
        }
    }
    true
}

/// Whether all dots that a page tells are known. Takes a look in the context for each of them, and no memory.
pub(crate) fn knows_page<A: Allocator + Copy>(known: &Context<A>, page: &Page<A>) -> bool
    ensures { result ≡ within (has known.now) (entries_of (form.value_of page.now)) }
{
    match page {
        Page::OneKey(_, named) => knows_fields(known, named.entries()),
        Page::Keys(entries) => knows_keys(known, entries),
        Page::Branch(_) => true,
    }
}

/// Whether all dots of a map under a prefix are known. Takes a look in the context for each of them, up to the first that
/// is not, and no memory.
pub(crate) fn knows_under<H: PathHash, A: Allocator + Copy>(
    known: &Context<A>,
    frozen: &FrozenMap<H, A>,
    prefix: Prefix,
) -> bool
    ensures { result ≡ within (has known.now) (walk_under (H.hash_of frozen.now.hash) prefix frozen.now.map) }
{
    for (_, fields) in frozen.iter_under(prefix) {
        if !knows_fields(known, fields.entries()) {
            return false;
        }
    }
    true
}

/// Whether all dots of the own map are known, where all of them were seen. Takes time in the names and single dots of both
/// contexts, and no memory; where not all that was seen is known, also in the entries of the map.
pub(crate) fn knows_all<H: PathHash, A: Allocator + Copy>(
    own: &FrozenMap<H, A>,
    seen: &Context<A>,
    known: &Context<A>,
) -> bool
    requires { KnowsEachDot (has seen.now) own.now.map }
    ensures { result ≡ within (has known.now) (walk_under (H.hash_of own.now.hash) [] own.now.map) }
{
    if known.includes(seen) {
        return true;
    }
    knows_under(known, own, Prefix::root())
}

// Whether the digest of the map is this one.
pub(crate) fn is_digest<H: PathHash, A: Allocator + Copy>(
    own: &FrozenMap<H, A>,
    root: &[u8; 32],
) -> bool
    ensures { result ≡ model.is_digest (digest_at (H.hash_of own.now.hash) own.now.map []) root.now }
{
    match digest(own, Prefix::root()) {
        Some(digest) => digest == *root,
        None => false,
    }
}
