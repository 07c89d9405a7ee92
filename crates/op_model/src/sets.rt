//! The laws of sets of operations.

ghost use Rattle.std.specs.Prelude.{◌≡◌, ◌↔◌, ◌++◌, ◌∷◌, [], ◌&&◌, ◌||◌, ℕ, List, cond, length, Some, None, Contains, IsTrue, IsFalse, IsSome};
ghost use Rattle.dots.specs.declared.dot.Dot.{Dot};
ghost use Rattle.dots.specs.Dot.{same_dot};
ghost use Rattle.op_model.specs.Place.{Place, place_of};
ghost use Rattle.op_model.specs.State.{join, Same, IsInside};
ghost use Rattle.op_model.specs.Operation.{Write, Operation, Wrote, has, ids, known, Tells, NoReuse, IsSameSet};
ghost use Rattle.op_model.specs.Shown.{is_on, shown, shown_within, shown_anywhere, IsShown, IsAscending, values, values_of_key, fields, keys, size};
ghost use Rattle.op_model.specs.Meaning.{MapState, greater, state, Stands, StandsWithin, HoldsField, HoldsKey};
ghost use Rattle.op_model.specs.Made.{put_at, write_at, dot_at, erasure, remove_at, remove_field_at, clear_at, removed_at, field_removed_at, cleared_at};
ghost use Rattle.op_model.specs.Made.{IsNext, IsPutAt, IsRemoveAt, IsFieldRemoveAt, IsClearAt, IsWithin, IsAnywhere, Counts};

/// What a set of operations shows, in words: the writes of the set that no operation of it had observed. A field shows
/// what stands at it, and a key what stands at any of its fields.
pub fn what_is_shown()
    ensures writes { (S : List Operation) (place : Place) (w : Write) → Contains (shown S place) w ↔ IsShown S place w }
    ensures values { (S : List Operation) (place : Place) (value : List ℕ) →
        Contains (values S place) value ↔ ((w : Write) × IsShown S place w × (w.value ≡ value)) }
    ensures values_ascend { (S : List Operation) (place : Place) → IsAscending (values S place) }
    ensures fields { (S : List Operation) (key field : List ℕ) →
        Contains (fields S key) field ↔ ((w : Write) × IsShown S (place_of key field) w) }
    ensures fields_ascend { (S : List Operation) (key : List ℕ) → IsAscending (fields S key) }
    ensures values_of_key { (S : List Operation) (key value : List ℕ) →
        Contains (values_of_key S key) value ↔ ((field : List ℕ) × Contains (values S (place_of key field)) value) }
    ensures values_of_key_ascend { (S : List Operation) (key : List ℕ) → IsAscending (values_of_key S key) }
    ensures keys { (S : List Operation) (key : List ℕ) →
        Contains (keys S) key ↔ ((field : List ℕ) × Contains (fields S key) field) }
    ensures keys_ascend { (S : List Operation) → IsAscending (keys S) }
    ensures known { (S : List Operation) (dot : Dot) →
        IsTrue (has (known S) dot) ↔ ((o : Operation) × Contains S o × Tells o dot) }
{}

/// The join of the states of two sets is the state of their union, where no dot of the union was used twice.
pub fn states_join()
    ensures { (S T : List Operation) → NoReuse (S ++ T) → Same (join greater (state S) (state T)) (state (S ++ T)) }
{}

/// Sets with the same members have the same state, and show the same.
pub fn same_operations()
    ensures state { (S T : List Operation) → IsSameSet S T → Same (state S) (state T) }
    ensures values { (S T : List Operation) (place : Place) → IsSameSet S T → values S place ≡ values T place }
    ensures values_of_key { (S T : List Operation) (key : List ℕ) → IsSameSet S T → values_of_key S key ≡ values_of_key T key }
    ensures fields { (S T : List Operation) (key : List ℕ) → IsSameSet S T → fields S key ≡ fields T key }
    ensures keys { (S T : List Operation) → IsSameSet S T → keys S ≡ keys T }
    ensures size { (S T : List Operation) → IsSameSet S T → size S ≡ size T }
{}

/// What a state shows that has the meaning of a set: an ascending list of just the values that stand at a place, or at
/// any field of a key, is the values of the set there. One of just the fields of a key at which something stands is its
/// fields, and one of just the keys at which something stands is its keys.
pub fn standing()
    ensures values { (S : List Operation) (place : Place) (p : MapState) (found : List (List ℕ)) →
        NoReuse S → Same p (state S) → IsAscending found →
        ((value : List ℕ) → Contains found value ↔ Stands p place value) → found ≡ values S place }
    ensures values_of_key { (S : List Operation) (key : List ℕ) (p : MapState) (found : List (List ℕ)) →
        NoReuse S → Same p (state S) → IsAscending found →
        ((value : List ℕ) → Contains found value ↔ StandsWithin p key value) → found ≡ values_of_key S key }
    ensures fields { (S : List Operation) (key : List ℕ) (p : MapState) (found : List (List ℕ)) →
        Same p (state S) → IsAscending found →
        ((field : List ℕ) → Contains found field ↔ HoldsField p key field) → found ≡ fields S key }
    ensures keys { (S : List Operation) (p : MapState) (found : List (List ℕ)) →
        Same p (state S) → IsAscending found →
        ((key : List ℕ) → Contains found key ↔ HoldsKey p key) → found ≡ keys S }
    ensures size { (S : List Operation) (p : MapState) (found : List (List ℕ)) →
        Same p (state S) → IsAscending found →
        ((key : List ℕ) → Contains found key ↔ HoldsKey p key) → length found ≡ size S }
{}

/// The states of one operation, which are the deltas, and that what stands in a state is known there.
pub fn states_of_operations()
    ensures write { (w : Write) → IsFalse (has w.over w.id) → (place : Place) (dot : Dot) →
        (state (Wrote w ∷ [])).at place dot ≡ cond (is_on place w && same_dot w.id dot) (Some w.value) None }
    ensures write_knows { (w : Write) (dot : Dot) → (state (Wrote w ∷ [])).has dot ≡ (same_dot w.id dot || has w.over dot) }
    ensures erasure { (ds : List Dot) (place : Place) (dot : Dot) → (state (erasure ds)).at place dot ≡ None }
    ensures erasure_knows { (ds : List Dot) (dot : Dot) → (state (erasure ds)).has dot ≡ has ds dot }
    ensures inside { (S : List Operation) → IsInside (state S) }
{}

/// An operation made at a state is the one made at the set that the state stands for, and there is one at each state of a
/// set.
pub fn made_at_a_state()
    ensures put { (S : List Operation) (p : MapState) (name : ℕ) (place : Place) (value : List ℕ) (w : Write) →
        Same p (state S) → IsPutAt p name place value w → Same (state (Wrote w ∷ [])) (state (put_at S name place value)) }
    ensures remove { (S : List Operation) (p : MapState) (key : List ℕ) (over : List Dot) →
        Same p (state S) → IsRemoveAt p key over → Same (state (erasure over)) (state (remove_at S key)) }
    ensures remove_field { (S : List Operation) (p : MapState) (place : Place) (over : List Dot) →
        Same p (state S) → IsFieldRemoveAt p place over → Same (state (erasure over)) (state (remove_field_at S place)) }
    ensures clear { (S : List Operation) (p : MapState) (over : List Dot) →
        Same p (state S) → IsClearAt p over → Same (state (erasure over)) (state (clear_at S)) }

    ensures dot { (S : List Operation) (p : MapState) (name : ℕ) (dot : Dot) →
        Same p (state S) → IsNext name p.has dot → dot ≡ dot_at S name }
    ensures removed { (S : List Operation) (p : MapState) (key : List ℕ) (n : ℕ) →
        Same p (state S) → Counts (IsWithin p key) n → n ≡ removed_at S key }
    ensures field_removed { (S : List Operation) (p : MapState) (place : Place) (n : ℕ) →
        Same p (state S) → Counts (λ dot. IsSome (p.at place dot)) n → n ≡ field_removed_at S place }
    ensures cleared { (S : List Operation) (p : MapState) (n : ℕ) →
        Same p (state S) → Counts (IsAnywhere p) n → n ≡ cleared_at S }

    ensures put_there { (S : List Operation) (p : MapState) (name : ℕ) (place : Place) (value : List ℕ) →
        Same p (state S) → IsPutAt p name place value (write_at S name place value) }
    ensures remove_there { (S : List Operation) (p : MapState) (key : List ℕ) →
        Same p (state S) → IsRemoveAt p key (ids (shown_within S key)) }
    ensures remove_field_there { (S : List Operation) (p : MapState) (place : Place) →
        Same p (state S) → IsFieldRemoveAt p place (ids (shown S place)) }
    ensures clear_there { (S : List Operation) (p : MapState) →
        Same p (state S) → IsClearAt p (ids (shown_anywhere S)) }
{}
