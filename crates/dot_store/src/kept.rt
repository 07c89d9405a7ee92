ghost use Rattle.std.specs.Prelude.{◌≡◌, IfOk, IsOkUnless};
ghost use Rattle.std.specs.declared.cmp.Ordering.TheVariants.{Equal};
ghost use Rattle.std.proofs.lemmas.Map.Lookups.{exact_bytes};
ghost use Rattle.causal_context.proofs.Dots.{dot_exact};

use dots::{Dot, Refusal, Text};
use std::alloc::Allocator;

/// What can be a key of a `DotMap` or a value of a `DotFun`: it can be copied, a copy is equal, and two that
/// are equal by their order are the same.
pub trait Kept<A: Allocator + Copy>: Ord + Drop {
    /// The same. Takes constant time; what a text has past 22 bytes is shared with it.
    /// Its only refusal is OutOfMemory.
    fn copy(&self, alloc: A) -> Result<Self, Refusal>
        ensures ok { IfOk result (λ copy. copy ≡ self.now) }
        ensures err { IsOkUnless result Refusal.OutOfMemory };

    ghost exact: { (x y : Self) → Self.cmp x y ≡ Equal → x ≡ y };
}

impl<K, A: Allocator + Copy> Kept<A> for Text<K, A> {
    ghost exact = { exact_bytes };

    fn copy(&self, alloc: A) -> Result<Text<K, A>, Refusal> {
        self.copy(alloc)
    }
}

impl<A: Allocator + Copy> Kept<A> for Dot {
    ghost exact = { dot_exact };

    fn copy(&self, _alloc: A) -> Result<Dot, Refusal> {
        Ok(*self)
    }
}
