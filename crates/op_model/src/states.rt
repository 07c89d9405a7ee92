//! The laws of the causal join.

ghost use Rattle.std.specs.Prelude.{◌≡◌, ℕ, List};
ghost use Rattle.dots.specs.declared.dot.Dot.{Dot};
ghost use Rattle.op_model.specs.State.{State, join, Same};
ghost use Rattle.op_model.specs.Life.{life, later};
ghost use Rattle.op_model.specs.Meaning.{greater};
ghost use Rattle.op_model.specs.Reading.{read_at};
ghost use Rattle.dots.specs.Bytes.{bytes_cmp};
ghost use Rattle.std.specs.Ordering.{eq_by_cmp, ord_max};

use dots::{Field, Key, Value};

/// The join of two states is the same in either order, where the greater of two held values is.
pub fn join_is_commutative<P, H>()
    ensures { (most : H → H → H) → ((x y : H) → most x y ≡ most y x) → (p q : State P H) →
        Same (join most p q) (join most q p) }
{}

/// Three states may be joined in either grouping.
pub fn join_is_associative<P, H>()
    ensures { (most : H → H → H) → ((x y z : H) → most (most x y) z ≡ most x (most y z)) → (p q r : State P H) →
        Same (join most (join most p q) r) (join most p (join most q r)) }
{}

/// A state joined with itself is itself, so that a repeated delivery changes nothing.
pub fn join_is_idempotent<P, H>()
    ensures { (most : H → H → H) → ((x : H) → most x x ≡ x) → (p : State P H) → Same (join most p p) p }
{}

/// The join read another way: of a dot that is absent, alive or dead at a place, the later of the two lives.
pub fn join_is_later<P, H>()
    ensures { (most : H → H → H) (p q : State P H) (place : P) (dot : Dot) →
        life (join most p q) place dot ≡ later most (life p place dot) (life q place dot) }
{}

/// The greater of two values by bytes has what the laws of the join ask of it.
pub fn greater_is_lawful()
    ensures commutative { (x y : List ℕ) → greater x y ≡ greater y x }
    ensures associative { (x y z : List ℕ) → greater (greater x y) z ≡ greater x (greater y z) }
    ensures idempotent { (x : List ℕ) → greater x x ≡ x }
{}

/// To read the join of two states at other places is to join what is read there, and states that are the same read the
/// same.
pub fn join_is_read_at_places<P, Q, H>()
    ensures join { (most : H → H → H) (place_of : Q → P) (p q : State P H) →
        read_at place_of (join most p q) ≡ join most (read_at place_of p) (read_at place_of q) }
    ensures same { (place_of : Q → P) (p q : State P H) → Same p q → Same (read_at place_of p) (read_at place_of q) }
{}

/// The order of this model is that of keys, fields and values, and so is the greater of two values.
pub fn bytes_are_in_order()
    ensures keys { (x y : List ℕ) → ⟦<Key as Ord>⟧.cmp x y ≡ bytes_cmp x y }
    ensures fields { (x y : List ℕ) → ⟦<Field as Ord>⟧.cmp x y ≡ bytes_cmp x y }
    ensures values { (x y : List ℕ) → ⟦<Value as Ord>⟧.cmp x y ≡ bytes_cmp x y }
    ensures same_key { (x y : List ℕ) → ⟦<Key as PartialEq>⟧.eq x y ≡ eq_by_cmp bytes_cmp x y }
    ensures greatest { ord_max ⟦<Value as Ord>⟧.cmp ≡ greater }
{}
