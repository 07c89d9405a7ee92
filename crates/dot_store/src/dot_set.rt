ghost use Rattle.std.specs.Prelude.{◌≡◌, cond, Some, refl, OnOk, OnErr, IsOkUnless, List};
ghost use Rattle.std.specs.List.Sorted.{IsStrictlySortedBy};
ghost use Rattle.std.specs.Map.{keys_of};
ghost use Rattle.causal_context.specs.Dots.{dot_cmp};
ghost use Rattle.dots.specs.Dot.{DotValue, same_dot};
ghost use Rattle.dot_store.specs.Stores.{at_dots, greater_unit};

use crate::dot_fun::DotFun;
use crate::kept::Kept;
use crate::store::DotStore;
use causal_context::Context;
use dots::{Dot, Refusal};
use std::alloc::{Allocator, Global};
use std::marker::Model;

/// A set of dots.
///
/// It is kept as the list of its dots, in order. What grows keeps to the allocator that `empty` or `copy`
/// was given.
#[derive(Drop)]
pub struct DotSet<A: Allocator = Global> {
    dots: DotFun<(), A>,
}

impl<A: Allocator> Model for DotSet<A> {
    ghost use Rattle.std.specs.Prelude.{List};
    ghost use Rattle.std.specs.Map.{keys_of};
    ghost use Rattle.dots.specs.Dot.{DotValue};

    ghost Value = { List DotValue };

    ghost view = { λ s. keys_of s.dots };
}

impl<A: Allocator + Copy> DotSet<A> {
    /// Adds the dot. A refused call leaves the set as it was. Takes time in the number of greater dots,
    /// besides that of a look-up, and memory for the dot: at times for twice as many as there are.
    /// Its only refusal is OutOfMemory.
    pub fn insert(&mut self, dot: Dot) -> Result<(), Refusal>
        ensures ok { OnOk result ((place : _) (d : DotValue)
            → at_dots self.new place d ≡ cond (same_dot dot d) (Some tt) (at_dots self.old place d)) }
        ensures unchanged { OnErr result (self.new ≡ self.old) }
        ensures err { IsOkUnless result Refusal.OutOfMemory }
    {
        self.dots.insert(dot, ())
    }
}

// What stands at each dot of a set.
impl<A: Allocator + Copy> Kept<A> for () {
    ghost exact = { λ x y h. refl };

    fn copy(&self, _alloc: A) -> Result<(), Refusal> {
        Ok(())
    }
}

impl<A: Allocator + Copy> DotStore<A> for DotSet<A> {
    type Place = ();

    type Held = ();

    ghost at = { at_dots };

    ghost greater = { greater_unit };

    ghost canonical = { IsStrictlySortedBy dot_cmp };

    fn empty(alloc: A) -> DotSet<A> {
        DotSet {
            dots: DotFun::empty(alloc),
        }
    }

    fn is_empty(&self) -> bool {
        self.dots.is_empty()
    }

    fn contains(&self, dot: Dot) -> bool {
        self.dots.contains(dot)
    }

    fn is_inside(&self, context: &Context<A>) -> bool {
        self.dots.is_inside(context)
    }

    fn dots(&self, alloc: A) -> Result<Context<A>, Refusal> {
        self.dots.dots(alloc)
    }

    fn join(
        &self,
        alloc: A,
        own: &Context<A>,
        other: &DotSet<A>,
        theirs: &Context<A>,
    ) -> Result<DotSet<A>, Refusal> {
        let dots = self.dots.join(alloc, own, &other.dots, theirs)?;
        Ok(DotSet { dots })
    }

    fn copy(&self, alloc: A) -> Result<DotSet<A>, Refusal> {
        let dots = self.dots.copy(alloc)?;
        Ok(DotSet { dots })
    }

    fn same(&self, other: &DotSet<A>) -> bool {
        self.dots.same(&other.dots)
    }

    ghost greater_comm = { λ x y. refl };

    ghost greater_assoc = { λ x y z. refl };

    ghost greater_idem = { λ x. refl };
}
