ghost use Rattle.std.specs.Prelude.{◌≡◌, [], ℕ, List, IsTrue, IfSome, IfOk, OnOk, IsOkUnless};
ghost use Rattle.live_map.specs.Index.{has_key};

use dots::{Dot, Key, Refusal};
use std::alloc::{Allocator, Global};
use std::collections::{BTreeMap, BTreeSet};
use std::marker::Model;

// The keys that a delta can change, and the places that were found in the index for dots that it knows. They are lists, as most
// deltas can change one key alone.
#[derive(Drop)]
pub(crate) struct Touched<A: Allocator + Copy = Global> {
    // As they came: a key may stand there more than once, but not twice in a row.
    keys: Vec<Key<A>, A>,
    found: Vec<(Dot, Key<A>), A>,
}

impl<A: Allocator + Copy> Model for Touched<A> {
    ghost use Rattle.std.specs.Prelude.{List, ℕ};

    ghost Value = { List (List ℕ) };

    ghost view = { λ touched. touched.keys.items };
}

impl<A: Allocator + Copy> Touched<A> {
    // No key and no place. Takes no memory.
    pub(crate) fn new(alloc: A) -> Touched<A>
        ensures { result ≡ [] }
    {
        Touched {
            keys: Vec::new(alloc),
            found: Vec::new(alloc),
        }
    }

    // Adds the key.
    pub(crate) fn add(&mut self, alloc: A, key: &Key<A>) -> Result<(), Refusal>
        ensures there { OnOk result (IsTrue (has_key self.new key.now)) }
        ensures kept { (q : List ℕ) → IsTrue (has_key self.old q) → IsTrue (has_key self.new q) }
        ensures err { IsOkUnless result Refusal.OutOfMemory }
    {
        if self.is_last(key) {
            return Ok(());
        }
        self.push(alloc, key)
    }

    // Puts the key behind the others.
    fn push(&mut self, alloc: A, key: &Key<A>) -> Result<(), Refusal>
        ensures there { OnOk result (IsTrue (has_key self.new key.now)) }
        ensures kept { (q : List ℕ) → IsTrue (has_key self.old q) → IsTrue (has_key self.new q) }
        ensures err { IsOkUnless result Refusal.OutOfMemory }
    {
        self.keys.push(key.copy(alloc)?)?;
        Ok(())
    }

    // Whether the key is the last one that came.
    fn is_last(&self, key: &Key<A>) -> bool
        ensures { IsTrue result → IsTrue (has_key self.now key.now) }
    {
        let Some(last) = self.keys.last() else {
            return false;
        };
        last == key
    }

    // Adds the key of a place that was found for a dot, and keeps the place.
    pub(crate) fn add_place(&mut self, alloc: A, dot: Dot, key: &Key<A>) -> Result<(), Refusal>
        ensures there { OnOk result (IsTrue (has_key self.new key.now)) }
        ensures kept { (q : List ℕ) → IsTrue (has_key self.old q) → IsTrue (has_key self.new q) }
        ensures err { IsOkUnless result Refusal.OutOfMemory }
    {
        self.found.push((dot, key.copy(alloc)?))?;
        self.add(alloc, key)
    }

    // The key, where there is just one.
    pub(crate) fn only(&self) -> Option<&Key<A>>
        ensures { IfSome result (λ key. (q : List ℕ) → IsTrue (has_key self.now q) → q ≡ key.now) }
    {
        let [key] = self.keys.as_slice() else {
            return None;
        };
        Some(key)
    }

    // The keys, each once, in their order.
    pub(crate) fn key_set(&self, alloc: A) -> Result<BTreeSet<Key<A>, A>, Refusal>
        ensures ok { IfOk result (λ set. (q : List ℕ) → IsTrue (has_key self.now q) → IsTrue (has_key set.keys q)) }
        ensures err { IsOkUnless result Refusal.OutOfMemory }
    {
        let mut set = BTreeSet::new(alloc);
        for key in &self.keys {
            set.insert(key.copy(alloc)?)?;
        }
        Ok(set)
    }

    // Whether each key is one of these.
    pub(crate) fn is_within(&self, keys: &BTreeSet<Key<A>, A>) -> bool
        ensures { IsTrue result → (q : List ℕ) → IsTrue (has_key self.now q) → IsTrue (has_key keys.now.keys q) }
    {
        for key in &self.keys {
            if !keys.contains(key) {
                return false;
            }
        }
        true
    }

    // The places that were found.
    pub(crate) fn found(&self) -> &[(Dot, Key<A>)] {
        &self.found
    }

    // The dots that were found, by key.
    pub(crate) fn found_by_key(&self, alloc: A) -> Result<BTreeMap<Key<A>, Vec<Dot, A>, A>, Refusal>
        ensures err { IsOkUnless result Refusal.OutOfMemory }
    {
        let mut by_key = BTreeMap::new(alloc);
        for (dot, key) in &self.found {
            add_dot(alloc, &mut by_key, *dot, key)?;
        }
        Ok(by_key)
    }
}

// Adds the dot to those of the key.
fn add_dot<A: Allocator + Copy>(
    alloc: A,
    by_key: &mut BTreeMap<Key<A>, Vec<Dot, A>, A>,
    dot: Dot,
    key: &Key<A>,
) -> Result<(), Refusal>
    ensures err { IsOkUnless result Refusal.OutOfMemory }
{
    if let Some(dots) = by_key.get_mut(key) {
        dots.push(dot)?;
        return Ok(());
    }
    let mut dots = Vec::new(alloc);
    dots.push(dot)?;
    let key = key.copy(alloc)?;
    drop(by_key.insert(key, dots)?);
    Ok(())
}
