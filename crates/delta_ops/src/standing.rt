ghost use Rattle.std.specs.Prelude.{◌≡◌, List, ℕ, IfSome};
ghost use Rattle.std.specs.FinMap as finite;
ghost use Rattle.std.specs.Option.{option_copied};
ghost use Rattle.causal_join.specs.OrMap.{fields_at, or_map_at};
ghost use Rattle.delta_ops.specs.LiveMap.{store_state};
ghost use Rattle.dot_store.specs.Store.{HasNothing};
ghost use Rattle.dot_store.specs.Stores.{at_values, held_by};
ghost use Rattle.dots.specs.Dot.{DotValue};
ghost use Rattle.op_model.specs.Place.{place_of};

use crate::live_or_map::LiveStore;
use causal_join::Fields;
use dot_store::DotFun;
use dots::{Field, Key, Value};
use gen_trie::Summary;
use hash_path::PathHash;
use std::alloc::Allocator;

/// What stands at the fields of the key, or None where nothing stands there. Takes a look-up, and no memory.
pub fn fields_of<'a, M: Summary<Fields<A>>, H: PathHash, A: Allocator + Copy>(
    store: &'a LiveStore<M, H, A>,
    key: &Key<A>,
) -> Option<&'a Fields<A>>
    ensures held { (place : List ℕ × Unit {0}) (d : DotValue) →
        or_map_at (finite.entries store.now.1) (key.now, place) d ≡ held_by fields_at (option_copied result) place d }
    ensures filled { IfSome result (λ fields. ¬ HasNothing (fields_at fields.now)) }
{
    store.get(key)
}

/// The values that stand at the field of the key, by the dots of their writes, or None where none stands there. Takes two
/// look-ups, and no memory.
pub fn values_at<'a, M: Summary<Fields<A>>, H: PathHash, A: Allocator + Copy>(
    store: &'a LiveStore<M, H, A>,
    key: &Key<A>,
    field: &Field<A>,
) -> Option<&'a DotFun<Value<A>, A>>
    ensures held { (d : DotValue) →
        (store_state store.now).at (place_of key.now field.now) d ≡ held_by at_values (option_copied result) tt d }
    ensures filled { IfSome result (λ values. ¬ HasNothing (at_values values.now)) }
{
    let fields = fields_of(store, key)?;
    fields.get(field)
}
