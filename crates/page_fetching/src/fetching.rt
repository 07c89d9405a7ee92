ghost use Rattle.std.specs.Prelude.{◌≡◌, ◌↔◌, IsTrue, List, ℕ, None, Some, Option, IfOk, IfSome, IsOkUnless};
ghost use Rattle.std.specs.FinMap as finite;
ghost use Rattle.causal_context.specs.Context.{has};
ghost use Rattle.sync_model.specs.Fetch as model;
ghost use Rattle.sync_model.specs.Laws.{KnowsEachDot};
ghost use Rattle.page_fetching.specs.Taking.{begun, ArePrefixes};

use crate::built::Built;
use crate::known::{is_digest, knows_all};
use crate::waiting::{Waiting, first_waiting, no_waiting};
use causal_context::Context;
use dots::Refusal;
use hash_path::PathHash;
use prefix_digest::FrozenMap;
use std::alloc::{Allocator, Global};
use std::marker::Model;

/// What an asker has between an opening that it took and the last page: the prefixes that it waits for, each with the digest that was
/// promised of it, and what it has built so far.
#[derive(Drop)]
pub struct Fetching<H: PathHash, A: Allocator + Copy = Global> {
    waiting: Waiting<H, A>,
    built: Built<H, A>,
}

impl<H: PathHash, A: Allocator + Copy> Model for Fetching<H, A> {
    ghost use Rattle.page_fetching.specs.Taking.{FetchingValue, fetching_code, ArePrefixes};

    ghost Value = { FetchingValue H };

    ghost coded = { fetching_code H.code };

    ghost view = { λ f. record { waiting = f.waiting.map; built = f.built } };

    ghost invariant = { λ f. ArePrefixes f.waiting.map };
}

impl<H: PathHash, A: Allocator + Copy> Fetching<H, A> {
    /// What an asker has after an opening with this root digest, which knows these dots: the root is waited for; or nothing is, where the
    /// digest is that of the own map, all of whose dots were seen. None where that holds a dot which the opening does not know. Takes
    /// constant time and memory where the own map is sealed; where the digest is its own, also that of comparing the contexts, and where the
    /// opening does not know all that was seen, that of the own map.
    /// Its only refusal is OutOfMemory.
    pub fn begin(
        alloc: A,
        own: &FrozenMap<H, A>,
        seen: &Context<A>,
        known: &Context<A>,
        root: &[u8; 32],
    ) -> Result<Option<Fetching<H, A>>, Refusal>
        requires { KnowsEachDot (has seen.now) own.now.map }
        ensures ok { (told : Option (List ℕ)) → told ≡ Some root.now
            → IfOk result (λ next. begun next ≡ model.take_opening (H.hash_of own.now.hash) own.now.map (has seen.now) (has known.now) told) }
        ensures built { IfOk result (λ next. IfSome next (λ f. f.built ≡ record { hash = own.now.hash; entries = own.now.map; touched = finite.empty })) }
        ensures err { IsOkUnless result Refusal.OutOfMemory }
    {
        if !is_digest(own, root) {
            let waiting = first_waiting(alloc, own.hash(), root)?;
            let entries = match own.copy() {
                Ok(entries) => entries,
                Err(refusal) => {
                    drop(waiting);
                    return Err(refusal);
                }
            };
            let built = Built::new(alloc, entries);
            return Ok(Some(Fetching { waiting, built }));
        }
        if !knows_all(own, seen, known) {
            return Ok(None);
        }
        let built = Built::new(alloc, own.copy()?);
        let waiting = no_waiting(alloc, own.hash());
        Ok(Some(Fetching { waiting, built }))
    }

    // What these parts are.
    pub(crate) fn of(waiting: Waiting<H, A>, built: Built<H, A>) -> Fetching<H, A>
        requires { ArePrefixes waiting.map }
        ensures { result ≡ record { waiting = waiting.map; built = built } }
    {
        Fetching { waiting, built }
    }

    // The prefixes that are waited for, each with the digest that was promised of it.
    pub(crate) fn waiting(&self) -> &Waiting<H, A>
        ensures map { result.now.map ≡ self.now.waiting }
        ensures prefixes { ArePrefixes self.now.waiting }
    {
        &self.waiting
    }

    /// Whether nothing is waited for any more. Takes constant time.
    pub fn is_complete(&self) -> bool
        ensures { IsTrue result ↔ ((prefix : List ℕ) → finite.get self.now.waiting prefix ≡ None) }
    {
        self.waiting.size() == 0
    }

    /// What is built so far. Copies nothing.
    pub fn built(&self) -> &Built<H, A>
        ensures { result.now ≡ self.now.built }
    {
        &self.built
    }

    /// What is built, for good. Copies nothing.
    pub fn into_built(self) -> Built<H, A>
        ensures { result ≡ self.built }
    {
        let Fetching { waiting, built } = self;
        drop(waiting);
        built
    }

    /// The same. Copies no node: it takes three reference counts, and is refused only where one is full.
    /// Its only refusal is OutOfMemory.
    pub fn copy(&self) -> Result<Fetching<H, A>, Refusal>
        ensures ok { IfOk result (λ copy. copy ≡ self.now) }
        ensures err { IsOkUnless result Refusal.OutOfMemory }
    {
        let waiting = self.waiting.copy()?;
        match self.built.copy() {
            Ok(built) => Ok(Fetching { waiting, built }),
            Err(refusal) => {
                drop(waiting);
                Err(refusal)
            }
        }
    }
}
