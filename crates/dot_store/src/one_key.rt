// A join into a map from keys that changes the store of one key alone: that store is made anew, and the others stay.
ghost use Rattle.std.specs.Prelude.{◌≡◌, ◌↔◌, cond, false, Some, None, IsTrue, IfNone, IfSome, IfOk, OnOk, OnErr, IsOkUnless, List};
ghost use Rattle.std.specs.Option.{option_copied};
ghost use Rattle.std.specs.Ordering.{is_eq};
ghost use Rattle.std.specs.List.{All};
ghost use Rattle.dots.specs.Dot.{DotValue};
ghost use Rattle.causal_context.specs.Context.{has};
ghost use Rattle.ordered_list.specs.Places.{value_at};
ghost use Rattle.dot_store.specs.Store.{HasEachKnown, HasNothing, HoldsSame};
ghost use Rattle.dot_store.specs.Stores.{at_stores, held_by, joined_store, IsOnlyKey, NoKeyIsEmpty, AreCanonical};

use crate::dot_map::{join_stores, joined_at};
use crate::kept::Kept;
use crate::store::DotStore;
use causal_context::Context;
use dots::{Dot, Refusal};
use ordered_list::OrderedList;
use std::alloc::Allocator;
use std::mem;

// How many dots are looked for in the stores of all keys. Of more the join is made as a whole: to look for each of them in each
// store would take longer.
const MOST_LOOKED_FOR: usize = 8;

// Whether something is held in the store at one of these dots.
fn holds_any<S: DotStore<A>, A: Allocator + Copy>(store: &S, dots: &[Dot]) -> bool
    ensures { result ≡ false → All (λ d. (place : S.Place) → S.at store.now place d ≡ None) dots.now }
{
    for dot in dots {
        if store.contains(*dot) {
            return true;
        }
    }
    false
}

// The first key whose store holds one of these dots. None only where no store does.
fn first_holder<'a, K, S: DotStore<A>, A: Allocator + Copy>(
    stores: &'a [(K, S)],
    dots: &[Dot],
) -> Option<&'a K>
    ensures { IfNone result (All (λ e. All (λ d. (place : S.Place) → S.at e.1 place d ≡ None) dots.now) stores.now) }
{
    for (key, store) in stores {
        if holds_any(store, dots) {
            return Some(key);
        }
    }
    None
}

// Whether no other key's store holds one of these dots. Where there are none, it looks at no store.
fn is_alone<K: Ord, S: DotStore<A>, A: Allocator + Copy>(
    stores: &[(K, S)],
    key: &K,
    dots: &[Dot],
) -> bool
    ensures { IsTrue result → All (λ e. is_eq (K.cmp key.now e.0) ≡ false → All (λ d. (place : S.Place) → S.at e.1 place d ≡ None) dots.now) stores.now }
{
    if dots.is_empty() {
        return true;
    }
    for (other, store) in stores {
        if holds_any(store, dots) && !key.cmp(other).is_eq() {
            return false;
        }
    }
    true
}

// The key that the other side has a store at, where that is one alone; where it has none, the first key that holds a found dot.
fn first_touched<'a, K: Kept<A>, S: DotStore<A>, A: Allocator + Copy>(
    mine: &'a [(K, S)],
    yours: &'a [(K, S)],
    found: &[Dot],
) -> Option<&'a K>
    ensures { IfSome result (λ key. (q : K) → is_eq (K.cmp key.now q) ≡ false → value_at K.cmp yours.now q ≡ None) }
{
    match yours.split_first() {
        None => first_holder(mine, found),
        Some((entry, rest)) if rest.is_empty() => Some(&entry.0),
        Some(_) => None,
    }
}

// The key whose store alone the join can change, if there is one that the entries show.
fn only_key<'a, K: Kept<A>, S: DotStore<A>, A: Allocator + Copy>(
    mine: &'a [(K, S)],
    yours: &'a [(K, S)],
    found: &[Dot],
) -> Option<&'a K>
    ensures { IfSome result (λ key. IsOnlyKey S.at K.cmp mine.now yours.now found.now key.now) }
{
    if found.len() > MOST_LOOKED_FOR {
        return None;
    }
    let key = first_touched(mine, yours, found)?;
    if is_alone(mine, key, found) {
        Some(key)
    } else {
        None
    }
}

// Puts the store at the key, in place of what was there, or takes the key out where there is none.
fn set_store<K: Kept<A>, S: DotStore<A>, A: Allocator + Copy>(
    stores: &mut OrderedList<K, S, A>,
    key: K,
    store: Option<S>,
) -> Result<(), Refusal>
    requires filled { NoKeyIsEmpty S.at stores.old }
    requires canonical { AreCanonical S.canonical stores.old }
    requires store_filled { IfSome store (λ s. ¬ HasNothing (S.at s)) }
    requires store_canonical { IfSome store S.canonical }
    ensures ok { OnOk result ((q : K) → value_at K.cmp stores.new q ≡ cond (is_eq (K.cmp key q)) store (value_at K.cmp stores.old q)) }
    ensures filled { NoKeyIsEmpty S.at stores.new }
    ensures canonical { AreCanonical S.canonical stores.new }
    ensures unchanged { OnErr result (stores.new ≡ stores.old) }
    ensures err { IsOkUnless result Refusal.OutOfMemory }
{
    match store {
        Some(store) => stores.insert(key, store),
        None => {
            stores.remove(&key);
            Ok(())
        }
    }
}

// Joins at the key alone.
fn join_at_key<K: Kept<A>, S: DotStore<A>, A: Allocator + Copy>(
    alloc: A,
    mine: &mut OrderedList<K, S, A>,
    own: &Context<A>,
    yours: &OrderedList<K, S, A>,
    theirs: &Context<A>,
    key: K,
) -> Result<(), Refusal>
    requires filled { NoKeyIsEmpty S.at mine.old }
    requires canonical { AreCanonical S.canonical mine.old }
    ensures here { OnOk result (HoldsSame (held_by S.at (value_at K.cmp mine.new key))
        (joined_store S.at S.greater (value_at K.cmp mine.old key) (has own.now)
        (value_at K.cmp yours.now key) (has theirs.now))) }
    ensures apart { OnOk result ((q : K) → is_eq (K.cmp key q) ≡ false
        → value_at K.cmp mine.new q ≡ value_at K.cmp mine.old q) }
    ensures filled { NoKeyIsEmpty S.at mine.new }
    ensures canonical { AreCanonical S.canonical mine.new }
    ensures unchanged { OnErr result (mine.new ≡ mine.old) }
    ensures err { IsOkUnless result Refusal.OutOfMemory }
{
    let store = joined_at(alloc, mine.get(&key), own, yours.get(&key), theirs)?;
    set_store(mine, key, store)
}

// Joins at each key.
fn join_whole<K: Kept<A>, S: DotStore<A>, A: Allocator + Copy>(
    alloc: A,
    mine: &mut OrderedList<K, S, A>,
    own: &Context<A>,
    yours: &OrderedList<K, S, A>,
    theirs: &Context<A>,
) -> Result<(), Refusal>
    requires filled { NoKeyIsEmpty S.at mine.old }
    requires canonical { AreCanonical S.canonical mine.old }
    ensures ok { OnOk result ((key : K) → HoldsSame (held_by S.at (value_at K.cmp mine.new key))
        (joined_store S.at S.greater (value_at K.cmp mine.old key) (has own.now)
        (value_at K.cmp yours.now key) (has theirs.now))) }
    ensures filled { NoKeyIsEmpty S.at mine.new }
    ensures canonical { AreCanonical S.canonical mine.new }
    ensures unchanged { OnErr result (mine.new ≡ mine.old) }
    ensures err { IsOkUnless result Refusal.OutOfMemory }
{
    let both = join_stores(alloc, mine, own, yours, theirs)?;
    drop(mem::replace(mine, both));
    Ok(())
}

// Joins the other list, under its context, into this one. `found` has each dot that stands here and that the other context knows.
pub(crate) fn join_list<K: Kept<A>, S: DotStore<A>, A: Allocator + Copy>(
    alloc: A,
    mine: &mut OrderedList<K, S, A>,
    own: &Context<A>,
    yours: &OrderedList<K, S, A>,
    theirs: &Context<A>,
    found: &[Dot],
) -> Result<(), Refusal>
    requires found { HasEachKnown (at_stores S.at K.cmp mine.old) (has theirs.now) found.now }
    requires filled { NoKeyIsEmpty S.at mine.old }
    requires canonical { AreCanonical S.canonical mine.old }
    ensures ok { OnOk result ((key : K) → HoldsSame (held_by S.at (value_at K.cmp mine.new key))
        (joined_store S.at S.greater (value_at K.cmp mine.old key) (has own.now)
        (value_at K.cmp yours.now key) (has theirs.now))) }
    ensures filled { NoKeyIsEmpty S.at mine.new }
    ensures canonical { AreCanonical S.canonical mine.new }
    ensures unchanged { OnErr result (mine.new ≡ mine.old) }
    ensures err { IsOkUnless result Refusal.OutOfMemory }
{
    let key = match only_key(mine.entries(), yours.entries(), found) {
        None => return join_whole(alloc, mine, own, yours, theirs),
        Some(key) => key.copy(alloc)?,
    };
    join_at_key(alloc, mine, own, yours, theirs, key)
}
