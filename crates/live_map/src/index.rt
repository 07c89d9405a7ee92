ghost use Rattle.std.specs.Prelude.{◌≡◌, ◌≤◌, cond, false, [], ℕ, List, IsTrue, IfOk, OnOk, IsOkUnless};
ghost use Rattle.std.specs.List.{All};
ghost use Rattle.std.specs.Ordering.{is_eq};
ghost use Rattle.causal_context.specs.Context.{has};
ghost use Rattle.dots.specs.Dot.{DotValue};
ghost use Rattle.live_map.specs.Index.{place_cmp, names, has_key, IsInSpan};

use crate::dot_span::{dot_at, range_of};
use crate::touched::Touched;
use causal_context::Context;
use dots::{Dot, Key, Name, Refusal};
use std::alloc::{Allocator, Global};
use std::collections::BTreeSet;
use std::marker::Model;

// The keys at which dots stand, by dot.
#[derive(Drop)]
pub(crate) struct Index<A: Allocator + Copy = Global> {
    places: BTreeSet<(Dot, Key<A>), A>,
}

impl<A: Allocator + Copy> Model for Index<A> {
    ghost use Rattle.std.specs.Prelude.{List};
    ghost use Rattle.live_map.specs.Index.{PlaceValue};

    ghost Value = { List PlaceValue };

    ghost view = { λ index. index.places.keys };
}

impl<A: Allocator + Copy> Index<A> {
    // The index of no dot. Takes no memory.
    pub(crate) fn new(alloc: A) -> Index<A>
        ensures { result ≡ [] }
    {
        Index {
            places: BTreeSet::new(alloc),
        }
    }

    // An index that names each key for each dot that this one does. Takes time and memory in all of them.
    pub(crate) fn copy(&self, alloc: A) -> Result<Index<A>, Refusal>
        ensures ok { IfOk result (λ copy. (d : DotValue) (q : List ℕ) → IsTrue (names self.now d q) → IsTrue (names copy d q)) }
        ensures err { IsOkUnless result Refusal.OutOfMemory }
    {
        let mut copy = Index::new(alloc);
        for (dot, key) in &self.places {
            copy.add(*dot, key.copy(alloc)?)?;
        }
        Ok(copy)
    }

    // Names the key for the dot.
    pub(crate) fn add(&mut self, dot: Dot, key: Key<A>) -> Result<(), Refusal>
        ensures there { OnOk result (IsTrue (names self.new dot key)) }
        ensures kept { (d : DotValue) (q : List ℕ) → IsTrue (names self.old d q) → IsTrue (names self.new d q) }
        ensures err { IsOkUnless result Refusal.OutOfMemory }
    {
        self.places.insert((dot, key))?;
        Ok(())
    }

    // Names the key no more for the dot.
    pub(crate) fn remove(&mut self, place: &(Dot, Key<A>))
        ensures { (d : DotValue) (q : List ℕ) → names self.new d q
            ≡ cond (is_eq (place_cmp (place.now.0, place.now.1) (d, q))) false (names self.old d q) }
    {
        self.places.remove(place);
    }

    // Names the key for the dot, with a copy of the key.
    pub(crate) fn add_key(&mut self, alloc: A, key: &Key<A>, dot: Dot) -> Result<(), Refusal>
        ensures there { OnOk result (IsTrue (names self.new dot key.now)) }
        ensures kept { (d : DotValue) (q : List ℕ) → IsTrue (names self.old d q) → IsTrue (names self.new d q) }
        ensures err { IsOkUnless result Refusal.OutOfMemory }
    {
        self.add(dot, key.copy(alloc)?)
    }

    // Names the key for the dot, unless it is known.
    fn add_new(
        &mut self,
        alloc: A,
        key: &Key<A>,
        dot: Dot,
        known: &Context<A>,
    ) -> Result<(), Refusal>
        ensures there { OnOk result (has known.now dot ≡ false → IsTrue (names self.new dot key.now)) }
        ensures kept { (d : DotValue) (q : List ℕ) → IsTrue (names self.old d q) → IsTrue (names self.new d q) }
        ensures err { IsOkUnless result Refusal.OutOfMemory }
    {
        if known.contains(dot) {
            return Ok(());
        }
        self.add_key(alloc, key, dot)
    }

    // Names the key for the dots of this name up to this number that are not known. A refused call may have named some.
    fn add_run(
        &mut self,
        alloc: A,
        key: &Key<A>,
        name: Name,
        last: u64,
        known: &Context<A>,
    ) -> Result<(), Refusal>
        ensures there { OnOk result ((d : DotValue) → d.name ≡ name → 1 ≤ d.number → d.number ≤ last → has known.now d ≡ false
            → IsTrue (names self.new d key.now)) }
        ensures kept { (d : DotValue) (q : List ℕ) → IsTrue (names self.old d q) → IsTrue (names self.new d q) }
        ensures err { IsOkUnless result Refusal.OutOfMemory }
    {
        for number in known.entry(name)..last {
            self.add_new(alloc, key, dot_at(name, number + 1), known)?;
        }
        Ok(())
    }

    // Names the key for those of these dots that are not known: what the pair knows and does not hold stays gone, and would be
    // named for good. A refused call may have named some.
    pub(crate) fn add_dots(
        &mut self,
        alloc: A,
        key: &Key<A>,
        dots: &Context<A>,
        known: &Context<A>,
    ) -> Result<(), Refusal>
        ensures there { OnOk result ((d : DotValue) → IsTrue (has dots.now d) → has known.now d ≡ false → IsTrue (names self.new d key.now)) }
        ensures kept { (d : DotValue) (q : List ℕ) → IsTrue (names self.old d q) → IsTrue (names self.new d q) }
        ensures err { IsOkUnless result Refusal.OutOfMemory }
    {
        self.add_vector(alloc, key, dots.vector(), known)?;
        self.add_cloud(alloc, key, dots.cloud(), known)
    }

    // Names the key for the dots of a vector that are not known.
    fn add_vector(
        &mut self,
        alloc: A,
        key: &Key<A>,
        vector: &[(Name, u64)],
        known: &Context<A>,
    ) -> Result<(), Refusal>
        ensures there { OnOk result (All (λ entry. (d : DotValue) → d.name ≡ entry.0 → 1 ≤ d.number → d.number ≤ entry.1
            → has known.now d ≡ false → IsTrue (names self.new d key.now)) vector.now) }
        ensures kept { (d : DotValue) (q : List ℕ) → IsTrue (names self.old d q) → IsTrue (names self.new d q) }
        ensures err { IsOkUnless result Refusal.OutOfMemory }
    {
        for (name, last) in vector {
            self.add_run(alloc, key, *name, *last, known)?;
        }
        Ok(())
    }

    // Names the key for the dots of a cloud that are not known.
    fn add_cloud(
        &mut self,
        alloc: A,
        key: &Key<A>,
        cloud: &[Dot],
        known: &Context<A>,
    ) -> Result<(), Refusal>
        ensures there { OnOk result (All (λ d. has known.now d ≡ false → IsTrue (names self.new d key.now)) cloud.now) }
        ensures kept { (d : DotValue) (q : List ℕ) → IsTrue (names self.old d q) → IsTrue (names self.new d q) }
        ensures err { IsOkUnless result Refusal.OutOfMemory }
    {
        for dot in cloud {
            self.add_new(alloc, key, *dot, known)?;
        }
        Ok(())
    }

    // Whether no other key than this one is named for the dot. Takes two look-ups, and no memory.
    pub(crate) fn names_no_other(&self, dot: Dot, key: &Key<A>) -> bool
        ensures { IsTrue result → (q : List ℕ) → IsTrue (names self.now dot q) → q ≡ key.now }
    {
        for (_, other) in self.places.range(range_of(dot, dot.number())) {
            if other != key {
                return false;
            }
        }
        true
    }

    // Adds the keys that are named for dots of the name of the first, from its number up to the last. Takes two look-ups, and
    // for each of these dots what it takes to keep it.
    pub(crate) fn find(
        &self,
        alloc: A,
        first: Dot,
        last: u64,
        touched: &mut Touched<A>,
    ) -> Result<(), Refusal>
        ensures there { OnOk result ((d : DotValue) (q : List ℕ) → IsInSpan first last d → IsTrue (names self.now d q) → IsTrue (has_key touched.new q)) }
        ensures kept { (q : List ℕ) → IsTrue (has_key touched.old q) → IsTrue (has_key touched.new q) }
        ensures err { IsOkUnless result Refusal.OutOfMemory }
    {
        if last < first.number() {
            return Ok(());
        }
        for (dot, key) in self.places.range(range_of(first, last)) {
            touched.add_place(alloc, *dot, key)?;
        }
        Ok(())
    }
}
