// An insert into an ordered list of what there may be.
ghost use Rattle.std.specs.Prelude.{◌≡◌, cond, MatchOption, OnOk, OnErr, IsOkUnless};
ghost use Rattle.std.specs.Ordering.{is_eq};
ghost use Rattle.std.specs.Option.{option_or};
ghost use Rattle.std.specs.BTreeMap.{insert_entry};
ghost use Rattle.ordered_list.specs.Places.{value_at};

use crate::kept::Kept;
use dots::Refusal;
use ordered_list::OrderedList;
use std::alloc::Allocator;

// Puts the value, if there is one, at a copy of the key.
pub(crate) fn put_some<K: Kept<A>, V: Drop, A: Allocator + Copy>(
    alloc: A,
    list: &mut OrderedList<K, V, A>,
    key: &K,
    value: Option<V>,
) -> Result<(), Refusal>
    ensures updates { OnOk result ((q : K)
        → value_at K.cmp list.new q ≡ cond (is_eq (K.cmp key.now q))
        (option_or value (value_at K.cmp list.old q)) (value_at K.cmp list.old q)) }
    ensures entries { OnOk result (MatchOption value (list.new ≡ list.old)
        (λ v. list.new ≡ insert_entry K.cmp list.old key.now v)) }
    ensures unchanged { OnErr result (list.new ≡ list.old) }
    ensures err { IsOkUnless result Refusal.OutOfMemory }
{
    match value {
        Some(value) => list.insert(key.copy(alloc)?, value),
        None => Ok(()),
    }
}
