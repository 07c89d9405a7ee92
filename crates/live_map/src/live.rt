ghost use Rattle.std.specs.Prelude.{◌≡◌, false, ℕ, List, IsTrue, IsSome, IfSome, IfOk, OnOk, OnErr, IsOkUnless};
ghost use Rattle.causal_context.specs.Context.{has, HasNone};
ghost use Rattle.causal_join.specs.Causal.{state_of};
ghost use Rattle.dot_store.specs.Store.{HasNothing, HoldsSame, state_with};
ghost use Rattle.dot_store.specs.Stores.{at_stores};
ghost use Rattle.dots.specs.Bytes.{bytes_cmp};
ghost use Rattle.dots.specs.Dot.{DotValue};
ghost use Rattle.op_model.specs.State.{join, Same, IsInside};
ghost use Rattle.live_map.specs.Closing.{stores_of, ChangesOnlyAt, IsBuiltOn};
ghost use Rattle.live_map.specs.Index.{names, has_key, AreAllTouched, IsIndexed, IsTouched};
ghost use Rattle.trie_map.specs.Keyed.{at_keys, NoStoreIsEmpty, EachIsCanonical};

use crate::again::{join_again, key_again};
use crate::bringing::brought;
use crate::closing::{closed, name_built, touch_since};
use crate::index::Index;
use crate::new_key::{copy_at_new_key, dot_at_new_key, take_at_new_key};
use crate::one_key::join_at_one;
use crate::prepared::Prepared;
use crate::touched::Touched;
use crate::touching::{cut_all, cut_ended, join_at_keys, name_all, name_dot, touch_by};
use crate::unknown::has_more_unknown;
use causal_context::{Context, Growth};
use causal_join::Causal;
use dot_store::{DotMap, DotStore};
use dots::{Key, Refusal};
use gen_trie::{Frozen, NoSummary, Summary};
use hash_path::{Fnv1a, PathHash};
use std::alloc::{Allocator, Global};
use std::collections::BTreeSet;
use std::marker::Model;
use std::mem;
use trie_map::TrieMap;

/// The pair of a replica: the store of its keys, and the context of the dots that it knows.
///
/// A delta is joined in at the keys that it touches: those at which it holds something, and those at which dots stand that
/// its context knows. These are found in an index of where dots stand, which is kept beside the pair. What stands at a touched
/// key is one store; no other key is looked at. It is joined in place, by `join_into`, where no other map shares it and the delta
/// can change no other key, brings one dot, just above an entry of the context, and knows no first dot of a name; else it is made
/// anew. Where nothing stands at the key and the delta knows one dot alone, which is new and has none known just above it, what it
/// holds is put there.
#[derive(Drop)]
pub struct Live<
    S: DotStore<A>,
    M: Summary<S> = NoSummary,
    H: PathHash = Fnv1a,
    A: Allocator + Copy = Global,
> {
    store: TrieMap<S, M, H, A>,
    context: Context<A>,
    index: Index<A>,
}

impl<S: DotStore<A>, M: Summary<S>, H: PathHash, A: Allocator + Copy> Model for Live<S, M, H, A> {
    ghost use Rattle.causal_join.specs.Causal.{state_of};
    ghost use Rattle.op_model.specs.State.{IsInside};
    ghost use Rattle.trie_map.specs.Keyed.{at_keys};
    ghost use Rattle.live_map.specs.Index.{IsIndexed};
    ghost use Rattle.live_map.specs.Live.{LiveValue, live_code};

    ghost Value = { LiveValue H S };

    ghost coded = { live_code H.code S.code };

    ghost view = { λ live. ((live.store, live.context), live.index) };

    ghost invariant = { λ live. IsInside (state_of (at_keys S.at) (live.store, live.context)) × IsIndexed (at_keys S.at live.store) live.index };
}

impl<S: DotStore<A>, M: Summary<S>, H: PathHash, A: Allocator + Copy> Live<S, M, H, A> {
    /// The pair that holds nothing and knows no dot, whose keys' paths are by this hash. Takes no memory.
    pub fn new(alloc: A, hash: H) -> Live<S, M, H, A>
        ensures hash { result.0.0.0 ≡ hash }
        ensures store { HasNothing (at_keys S.at result.0.0) }
        ensures context { HasNone result.0.1 }
    {
        Live {
            store: TrieMap::new(alloc, hash),
            context: Context::new(alloc),
            index: Index::new(alloc),
        }
    }

    /// The store of the pair. A copy of it takes a reference count.
    pub fn store(&self) -> &TrieMap<S, M, H, A>
        ensures value { result.now ≡ self.now.0.0 }
        ensures inside { IsInside (state_of (at_keys S.at) self.now.0) }
        ensures filled { NoStoreIsEmpty S.at result.now.1 }
        ensures canonical { EachIsCanonical S.canonical result.now.1 }
    {
        // proof: `frozen` promises that no store is empty and that each is canonical.
        let _ = self.store.frozen();
        &self.store
    }

    /// The context of the pair. Copies nothing.
    pub fn context(&self) -> &Context<A>
        ensures value { result.now ≡ self.now.0.1 }
        ensures inside { IsInside (state_of (at_keys S.at) self.now.0) }
    {
        &self.context
    }

    /// Gives the nodes of the store that keep no summary theirs. The pair stays as it is, also where it is refused; a further
    /// call goes on from there. Takes time in the nodes that were written since the last seal and in what stands right below
    /// them, copies those of them that another map shares, and takes no other memory.
    /// Its only refusal is OutOfMemory.
    pub fn seal(&mut self) -> Result<(), Refusal>
        ensures same { self.new ≡ self.old }
        ensures err { IsOkUnless result Refusal.OutOfMemory }
    {
        self.store.seal()
    }

    /// The same pair. The store's nodes are shared; the index is copied, so it takes time and memory in the dots that it names,
    /// whose keys share their bytes, and in the context.
    /// Its only refusal is OutOfMemory.
    pub fn copy(&self, alloc: A) -> Result<Live<S, M, H, A>, Refusal>
        ensures ok { IfOk result (λ copy. copy.0 ≡ self.now.0) }
        ensures err { IsOkUnless result Refusal.OutOfMemory }
    {
        let context = self.context.copy(alloc)?;
        let index = match self.index.copy(alloc) {
            Ok(index) => index,
            Err(refusal) => {
                drop(context);
                return Err(refusal);
            }
        };
        let store = match self.store.share() {
            Ok(store) => store,
            Err(refusal) => {
                drop(index);
                drop(context);
                return Err(refusal);
            }
        };
        Ok(Live {
            store,
            context,
            index,
        })
    }

    // What the pair will be once the delta is joined in, which can change these keys alone. The pair stays as it is, also where the
    // call is refused: only the index may name more.
    fn prepare(
        &mut self,
        alloc: A,
        delta: &Causal<DotMap<Key<A>, S, A>, A>,
        touched: &Touched<A>,
    ) -> Result<Prepared<S, M, H, A>, Refusal>
        requires { IsTouched self.old.1 (has self.old.0.1) (at_stores S.at bytes_cmp delta.now.0) (has delta.now.1) touched.now }
        ensures hash { IfOk result (λ next. next.0.0 ≡ self.old.0.0.0) }
        ensures ok { IfOk result (λ next. Same (state_of (at_keys S.at) next)
            (join S.greater (state_of (at_keys S.at) self.old.0) (state_of (at_stores S.at bytes_cmp) delta.now))) }
        ensures fits { IfOk result (λ next. IsIndexed (at_keys S.at next.0) self.new.1) }
        ensures unchanged { self.new.0 ≡ self.old.0 }
        ensures err { IsOkUnless result Refusal.OutOfMemory }
    {
        name_all(
            alloc,
            &mut self.index,
            delta.store().entries(),
            &self.context,
        )?;
        let context = self.context.union(alloc, delta.context())?;
        let store = match joined(alloc, &self.store, &self.context, delta, touched) {
            Ok(store) => store,
            Err(refusal) => {
                drop(context);
                return Err(refusal);
            }
        };
        Prepared::new(alloc, store, context, touched)
    }

    /// What the pair will be once a store is joined in that was built from a base: it is the base but at the keys that were
    /// touched, and the context knows its dots. The base under the dots that were seen was joined into this pair before. The
    /// pair stays as it is, also where the call is refused: only the index may name more. Takes time and memory in the touched
    /// keys, and in the dots that stand here, that the context knows and that lie above the entries that were seen, and time in
    /// each of these times the logarithm of the map and the bytes of its key; both in all that stands at these keys, here and in
    /// what was built; in what `dots` takes of each store that was built there, and of what will stand where dots were found; and
    /// in the names and clouds of the contexts. Neither store is walked.
    /// Its only refusal is OutOfMemory.
    pub fn prepare_opened(
        &mut self,
        alloc: A,
        base: &Frozen<S, M, H, A>,
        seen: &Context<A>,
        built: &Frozen<S, M, H, A>,
        touched: &Frozen<(), NoSummary, H, A>,
        context: &Context<A>,
    ) -> Result<Prepared<S, M, H, A>, Refusal>
        requires { IsBuiltOn S.at S.greater self.old.0 base.now seen.now built.now touched.now context.now }
        ensures hash { IfOk result (λ next. next.0.0 ≡ self.old.0.0.0) }
        ensures ok { IfOk result (λ next. Same (state_of (at_keys S.at) next) (join S.greater
            (state_of (at_keys S.at) self.old.0) (state_of (at_keys S.at) (stores_of built.now, context.now)))) }
        ensures fits { IfOk result (λ next. IsIndexed (at_keys S.at next.0) self.new.1) }
        ensures unchanged { self.new.0 ≡ self.old.0 }
        ensures err { IsOkUnless result Refusal.OutOfMemory }
    {
        let mut changed = Touched::new(alloc);
        let next = self.prepare_opened_at(alloc, base, seen, built, touched, context, &mut changed);
        drop(changed);
        next
    }

    // What `prepare_opened` answers. Adds the keys that the store can change.
    fn prepare_opened_at(
        &mut self,
        alloc: A,
        base: &Frozen<S, M, H, A>,
        seen: &Context<A>,
        built: &Frozen<S, M, H, A>,
        touched: &Frozen<(), NoSummary, H, A>,
        context: &Context<A>,
        changed: &mut Touched<A>,
    ) -> Result<Prepared<S, M, H, A>, Refusal>
        requires { IsBuiltOn S.at S.greater self.old.0 base.now seen.now built.now touched.now context.now }
        ensures hash { IfOk result (λ next. next.0.0 ≡ self.old.0.0.0) }
        ensures ok { IfOk result (λ next. Same (state_of (at_keys S.at) next) (join S.greater
            (state_of (at_keys S.at) self.old.0) (state_of (at_keys S.at) (stores_of built.now, context.now)))) }
        ensures fits { IfOk result (λ next. IsIndexed (at_keys S.at next.0) self.new.1) }
        ensures unchanged { self.new.0 ≡ self.old.0 }
        ensures err { IsOkUnless result Refusal.OutOfMemory }
    {
        // proof: what is required speaks of the base, and nothing else does.
        let _ = base;
        touch_since(alloc, changed, &self.index, seen, touched, context)?;
        name_built(alloc, &mut self.index, built, changed, &self.context)?;
        let next = self.context.union(alloc, context)?;
        let store = match closed(alloc, &self.store, &self.context, built, context, changed) {
            Ok(store) => store,
            Err(refusal) => {
                drop(next);
                return Err(refusal);
            }
        };
        Prepared::new(alloc, store, next, changed)
    }

    /// A delta that brings to this pair what `prepare_opened` of the same would: it holds just what will stand at the keys that can change,
    /// and knows just the dots that stand or will stand there, and those that are new. Takes what `prepare_opened` does in the touched keys,
    /// and time and memory in the dots that are new, which are no more than the keys. Neither store is walked.
    ///
    /// None where more dots are new than keys are held, as then all that is held is as short; and where a dot that stands or will stand at one
    /// of these keys may stand at another key too, as no exchange of replicas leads to: a delta of few keys would take it away there.
    /// Its only refusal is OutOfMemory.
    pub fn opened_delta(
        &self,
        alloc: A,
        base: &Frozen<S, M, H, A>,
        seen: &Context<A>,
        built: &Frozen<S, M, H, A>,
        touched: &Frozen<(), NoSummary, H, A>,
        context: &Context<A>,
    ) -> Result<Option<Causal<DotMap<Key<A>, S, A>, A>>, Refusal>
        requires { IsBuiltOn S.at S.greater self.now.0 base.now seen.now built.now touched.now context.now }
        ensures ok { IfOk result (λ found. IfSome found (λ delta. Same (join S.greater (state_of (at_keys S.at) self.now.0) (state_of (at_stores S.at bytes_cmp) delta))
            (join S.greater (state_of (at_keys S.at) self.now.0) (state_of (at_keys S.at) (stores_of built.now, context.now))))) }
        ensures err { IsOkUnless result Refusal.OutOfMemory }
    {
        if has_more_unknown(context, &self.context, self.store.size()) {
            return Ok(None);
        }
        let keys = self.opened_keys(alloc, base, seen, built, touched, context)?;
        let delta = brought(
            alloc,
            &self.index,
            &self.store,
            &self.context,
            built,
            context,
            &keys,
        );
        drop(keys);
        delta
    }

    // The keys that the join of what was built from a base can change.
    fn opened_keys(
        &self,
        alloc: A,
        base: &Frozen<S, M, H, A>,
        seen: &Context<A>,
        built: &Frozen<S, M, H, A>,
        touched: &Frozen<(), NoSummary, H, A>,
        context: &Context<A>,
    ) -> Result<BTreeSet<Key<A>, A>, Refusal>
        requires { IsBuiltOn S.at S.greater self.now.0 base.now seen.now built.now touched.now context.now }
        ensures ok { IfOk result (λ set. ChangesOnlyAt S.greater (at_keys S.at self.now.0.0) (has self.now.0.1) (at_keys S.at (stores_of built.now))
            (has context.now) set.keys) }
        ensures err { IsOkUnless result Refusal.OutOfMemory }
    {
        // proof: what is required speaks of the base and of what was built, and nothing else does.
        let _ = base;
        let _ = built;
        let mut changed = Touched::new(alloc);
        if let Err(refusal) = touch_since(
            alloc,
            &mut changed,
            &self.index,
            seen,
            touched,
            context,
        ) {
            drop(changed);
            return Err(refusal);
        }
        let keys = changed.key_set(alloc);
        drop(changed);
        keys
    }

    /// Puts the prepared pair in the place of this one. It has to be prepared of this one as it is; it is not refused, and
    /// takes no memory. For each dot that stood here and is gone it takes a look-up in the index.
    pub fn commit(&mut self, next: Prepared<S, M, H, A>)
        requires { IsIndexed (at_keys S.at next.0) self.old.1 }
        ensures { self.new.0 ≡ next }
    {
        let Prepared {
            store,
            context,
            gone,
        } = next;
        cut_all(&mut self.index, &store, &gone);
        drop(gone);
        drop(mem::replace(&mut self.store, store));
        drop(mem::replace(&mut self.context, context));
    }

    /// Joins the delta into the pair. A refused call leaves the pair as it was: only the index may name more. Takes time and memory
    /// in the keys and dots of the delta and in the dots that stand here and are known there, and time in each of these times the
    /// logarithm of the map and the bytes of its key; both in all that stands at these keys; and in what `dots` takes of each store of
    /// the delta.
    ///
    /// Where the delta can change one key alone, it is written in place: just those nodes are copied that another map shares, and the
    /// context is copied only where the delta knows more than one dot that is new, or one below others. Else the nodes on the way to
    /// each key are copied once, and both contexts, in their names and their dots above a gap.
    /// Its only refusal is OutOfMemory.
    pub fn join_delta(
        &mut self,
        alloc: A,
        delta: &Causal<DotMap<Key<A>, S, A>, A>,
    ) -> Result<(), Refusal>
        ensures hash { self.new.0.0.0 ≡ self.old.0.0.0 }
        ensures ok { OnOk result (Same (state_of (at_keys S.at) self.new.0)
            (join S.greater (state_of (at_keys S.at) self.old.0) (state_of (at_stores S.at bytes_cmp) delta.now))) }
        ensures unchanged { OnErr result (self.new.0 ≡ self.old.0) }
        ensures err { IsOkUnless result Refusal.OutOfMemory }
    {
        match dot_at_new_key(&self.store, &self.context, delta) {
            Some(dot) => copy_at_new_key(
                alloc,
                &mut self.store,
                &mut self.context,
                &mut self.index,
                delta,
                dot,
            ),
            None => self.join_any_keys(alloc, delta),
        }
    }

    /// Joins the delta in, as `join_delta` does, and takes it over: what it brings to a key at which nothing stands is not copied.
    /// Its only refusal is OutOfMemory; then the delta is gone, and the pair is as it was.
    pub fn take_delta(
        &mut self,
        alloc: A,
        delta: Causal<DotMap<Key<A>, S, A>, A>,
    ) -> Result<(), Refusal>
        ensures hash { self.new.0.0.0 ≡ self.old.0.0.0 }
        ensures ok { OnOk result (Same (state_of (at_keys S.at) self.new.0)
            (join S.greater (state_of (at_keys S.at) self.old.0) (state_of (at_stores S.at bytes_cmp) delta))) }
        ensures unchanged { OnErr result (self.new.0 ≡ self.old.0) }
        ensures err { IsOkUnless result Refusal.OutOfMemory }
    {
        match dot_at_new_key(&self.store, &self.context, &delta) {
            Some(dot) => take_at_new_key(
                alloc,
                &mut self.store,
                &mut self.context,
                &mut self.index,
                delta,
                dot,
            ),
            None => {
                let joined = self.join_any_keys(alloc, &delta);
                drop(delta);
                joined
            }
        }
    }

    // Joins the delta in, whatever keys it can change.
    fn join_any_keys(
        &mut self,
        alloc: A,
        delta: &Causal<DotMap<Key<A>, S, A>, A>,
    ) -> Result<(), Refusal>
        ensures hash { self.new.0.0.0 ≡ self.old.0.0.0 }
        ensures ok { OnOk result (Same (state_of (at_keys S.at) self.new.0)
            (join S.greater (state_of (at_keys S.at) self.old.0) (state_of (at_stores S.at bytes_cmp) delta.now))) }
        ensures unchanged { OnErr result (self.new.0 ≡ self.old.0) }
        ensures err { IsOkUnless result Refusal.OutOfMemory }
    {
        if let Some(key) = key_again(&self.index, &self.context, delta) {
            return join_again(
                alloc,
                &mut self.store,
                &self.context,
                &self.index,
                delta,
                key,
            );
        }
        let mut touched = Touched::new(alloc);
        let joined = self.join_touched(alloc, delta, &mut touched);
        drop(touched);
        joined
    }

    // What `join_any_keys` does. Adds the keys that the delta can change: where it is one alone, it is written in place.
    fn join_touched(
        &mut self,
        alloc: A,
        delta: &Causal<DotMap<Key<A>, S, A>, A>,
        touched: &mut Touched<A>,
    ) -> Result<(), Refusal>
        ensures hash { self.new.0.0.0 ≡ self.old.0.0.0 }
        ensures ok { OnOk result (Same (state_of (at_keys S.at) self.new.0)
            (join S.greater (state_of (at_keys S.at) self.old.0) (state_of (at_stores S.at bytes_cmp) delta.now))) }
        ensures unchanged { OnErr result (self.new.0 ≡ self.old.0) }
        ensures err { IsOkUnless result Refusal.OutOfMemory }
    {
        touch_by(alloc, touched, &self.index, &self.context, delta)?;
        if let Some(key) = touched.only() {
            return self.join_one(alloc, delta, touched, key);
        }
        let next = self.prepare(alloc, delta, touched)?;
        self.commit(next);
        Ok(())
    }

    // Joins the delta in where it can change this key alone.
    fn join_one(
        &mut self,
        alloc: A,
        delta: &Causal<DotMap<Key<A>, S, A>, A>,
        touched: &Touched<A>,
        key: &Key<A>,
    ) -> Result<(), Refusal>
        requires touched { IsTouched self.old.1 (has self.old.0.1) (at_stores S.at bytes_cmp delta.now.0) (has delta.now.1) touched.now }
        requires only { (q : List ℕ) → IsTrue (has_key touched.now q) → q ≡ key.now }
        ensures hash { self.new.0.0.0 ≡ self.old.0.0.0 }
        ensures ok { OnOk result (Same (state_of (at_keys S.at) self.new.0)
            (join S.greater (state_of (at_keys S.at) self.old.0) (state_of (at_stores S.at bytes_cmp) delta.now))) }
        ensures unchanged { OnErr result (self.new.0 ≡ self.old.0) }
        ensures err { IsOkUnless result Refusal.OutOfMemory }
    {
        name_new(alloc, &mut self.index, delta, &self.context, key)?;
        join_at_one(
            alloc,
            &mut self.store,
            &mut self.context,
            delta,
            touched,
            key,
        )?;
        cut_ended(alloc, &mut self.index, &self.store, delta, touched.found());
        Ok(())
    }
}

// Names the key, the only one at which the delta holds something, for the dots that stand there and are not known.
fn name_new<S: DotStore<A>, A: Allocator + Copy>(
    alloc: A,
    index: &mut Index<A>,
    delta: &Causal<DotMap<Key<A>, S, A>, A>,
    own: &Context<A>,
    key: &Key<A>,
) -> Result<(), Refusal>
    requires { (q : List ℕ) (place : S.Place) (d : DotValue) → IsSome (at_stores S.at bytes_cmp delta.now.0 (q, place) d) → q ≡ key.now }
    ensures there { OnOk result ((q : List ℕ) (place : S.Place) (d : DotValue) → IsSome (at_stores S.at bytes_cmp delta.now.0 (q, place) d)
        → has own.now d ≡ false → IsTrue (names index.new d q)) }
    ensures kept { (d : DotValue) (q : List ℕ) → IsTrue (names index.old d q) → IsTrue (names index.new d q) }
    ensures err { IsOkUnless result Refusal.OutOfMemory }
{
    match own.growth(delta.context()) {
        Growth::Nothing => Ok(()),
        Growth::One(dot) => name_dot(alloc, index, delta, key, dot),
        Growth::More => name_all(alloc, index, delta.store().entries(), own),
    }
}

// The store with what the delta holds joined in at the touched keys.
fn joined<S: DotStore<A>, M: Summary<S>, H: PathHash, A: Allocator + Copy>(
    alloc: A,
    mine: &TrieMap<S, M, H, A>,
    own: &Context<A>,
    delta: &Causal<DotMap<Key<A>, S, A>, A>,
    touched: &Touched<A>,
) -> Result<TrieMap<S, M, H, A>, Refusal>
    requires { AreAllTouched (at_keys S.at mine.now) (at_stores S.at bytes_cmp delta.now.0) (has delta.now.1) touched.now }
    ensures hash { IfOk result (λ both. both.0 ≡ mine.now.0) }
    ensures ok { IfOk result (λ both. HoldsSame (at_keys S.at both) (join S.greater (state_with (at_keys S.at mine.now) (has own.now))
        (state_of (at_stores S.at bytes_cmp) delta.now)).at) }
    ensures err { IsOkUnless result Refusal.OutOfMemory }
{
    let keys = touched.key_set(alloc)?;
    let both = joined_at(alloc, mine, own, delta, &keys);
    drop(keys);
    both
}

// The store with what the delta holds joined in at these keys.
fn joined_at<S: DotStore<A>, M: Summary<S>, H: PathHash, A: Allocator + Copy>(
    alloc: A,
    mine: &TrieMap<S, M, H, A>,
    own: &Context<A>,
    delta: &Causal<DotMap<Key<A>, S, A>, A>,
    keys: &BTreeSet<Key<A>, A>,
) -> Result<TrieMap<S, M, H, A>, Refusal>
    requires { AreAllTouched (at_keys S.at mine.now) (at_stores S.at bytes_cmp delta.now.0) (has delta.now.1) keys.now.keys }
    ensures hash { IfOk result (λ both. both.0 ≡ mine.now.0) }
    ensures ok { IfOk result (λ both. HoldsSame (at_keys S.at both) (join S.greater (state_with (at_keys S.at mine.now) (has own.now))
        (state_of (at_stores S.at bytes_cmp) delta.now)).at) }
    ensures err { IsOkUnless result Refusal.OutOfMemory }
{
    let mut draft = mine.draft()?;
    if let Err(refusal) = join_at_keys(
        alloc,
        &mut draft,
        mine,
        own,
        delta.store(),
        delta.context(),
        keys,
    ) {
        drop(draft);
        return Err(refusal);
    }
    draft.finish()
}
