// The laws of the join, for any store.
ghost use Rattle.op_model.specs.State.{State, join, Same};

use dot_store::DotStore;
use std::alloc::Allocator;

/// The join of two states is the same in either order.
pub fn join_is_commutative<S: DotStore<A>, A: Allocator + Copy>()
    ensures { (p q : State S.Place S.Held) → Same (join S.greater p q) (join S.greater q p) }
{}

/// The join of three states is the same whichever two are joined first.
pub fn join_is_associative<S: DotStore<A>, A: Allocator + Copy>()
    ensures { (p q r : State S.Place S.Held)
        → Same (join S.greater (join S.greater p q) r) (join S.greater p (join S.greater q r)) }
{}

/// The join of a state with itself is that state.
pub fn join_is_idempotent<S: DotStore<A>, A: Allocator + Copy>()
    ensures { (p : State S.Place S.Held) → Same (join S.greater p p) p }
{}
