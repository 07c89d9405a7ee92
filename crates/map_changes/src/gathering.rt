// What differs under one prefix.
ghost use Rattle.std.specs.Prelude.{◌≡◌, ◌↔◌, ℕ, List, Contains, Some, true, OnOk, IsOkUnless, IsTrue};
ghost use Rattle.std.specs.Option.{option_map};
ghost use Rattle.std.specs.FinMap as finite;
ghost use Rattle.causal_join.specs.OrMap.{FieldsValue};
ghost use Rattle.hash_path.specs.Word.{begins};
ghost use Rattle.hash_path.specs.Map.{path};
ghost use Rattle.map_changes.specs.Changes.{AreSame, IsChanged};
ghost use Rattle.map_changes.specs.Searching.{Finds};

use causal_join::Fields;
use dot_store::DotStore;
use dots::{Key, Refusal};
use hash_path::{PathHash, Prefix};
use prefix_digest::FrozenMap;
use std::alloc::Allocator;
use std::collections::BTreeSet;

/// Adds the keys under a prefix of the first map that the second has not, or has otherwise. Takes a look-up in the second for each key of the
/// first there, and what stands at both.
pub fn gather<H: PathHash, A: Allocator + Copy>(
    alloc: A,
    these: &FrozenMap<H, A>,
    others: &FrozenMap<H, A>,
    prefix: Prefix,
    found: &mut BTreeSet<Key<A>, A>,
) -> Result<(), Refusal>
    ensures found { OnOk result (Finds these.now.map others.now.map found.old.keys found.new.keys) }
    ensures each { OnOk result ((key : List ℕ) (fields : FieldsValue) → finite.get these.now.map key ≡ Some fields
        → begins prefix (path (H.hash_of these.now.hash) key) ≡ true → IsChanged these.now.map others.now.map key → Contains found.new.keys key) }
    ensures refused { IsOkUnless result Refusal.OutOfMemory }
{
    for (key, fields) in these.iter_under(prefix) {
        if !is_same(fields, others.lookup(key)) {
            found.insert(key.copy(alloc)?)?;
        }
    }
    Ok(())
}

// Whether what stands at a key is what stands there elsewhere, if anything does.
fn is_same<A: Allocator + Copy>(fields: &Fields<A>, other: Option<&Fields<A>>) -> bool
    ensures { IsTrue result ↔ AreSame (Some fields.now) (option_map (λ fields. fields.now) other.entry) }
{
    match other {
        Some(other) => fields.same(other),
        None => false,
    }
}

/// Whether each of two maps has at most one key under a prefix, so that it costs less to compare what stands there than to go on. Looks at two
/// keys of each at most.
pub fn is_few<H: PathHash, A: Allocator + Copy>(
    older: &FrozenMap<H, A>,
    newer: &FrozenMap<H, A>,
    prefix: Prefix,
) -> bool {
    older.iter_under(prefix).nth(1).is_none() && newer.iter_under(prefix).nth(1).is_none()
}
