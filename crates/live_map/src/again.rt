// The join of a delta that knows one dot, which is known here, and holds something at one key: a message that comes again.
ghost use Rattle.std.specs.Prelude.{◌≡◌, ◌||◌, [], ◌∷◌, IfSome, OnOk, OnErr, IsOkUnless};
ghost use Rattle.causal_context.specs.Context.{has};
ghost use Rattle.causal_join.specs.Causal.{state_of};
ghost use Rattle.dot_store.specs.Store.{HoldsSame, state_with};
ghost use Rattle.dot_store.specs.Stores.{at_stores};
ghost use Rattle.dots.specs.Bytes.{bytes_cmp};
ghost use Rattle.dots.specs.Dot.{DotValue};
ghost use Rattle.op_model.specs.State.{join, IsInside};
ghost use Rattle.live_map.specs.Index.{IsIndexed};
ghost use Rattle.live_map.specs.OneKey.{HasNoOther, IsAgainAt};
ghost use Rattle.trie_map.specs.Keyed.{at_keys};

use crate::index::Index;
use crate::one_key::{made_at, write};
use causal_context::Context;
use causal_join::Causal;
use dot_store::{DotMap, DotStore};
use dots::{Dot, Key, Refusal};
use gen_trie::Summary;
use hash_path::PathHash;
use std::alloc::Allocator;
use trie_map::TrieMap;

// The dot that the context has, where it has no other.
fn only_dot<A: Allocator + Copy>(theirs: &Context<A>) -> Option<Dot>
    ensures { IfSome result (HasNoOther (has theirs.now)) }
{
    let [dot] = theirs.cloud() else {
        return None;
    };
    if !theirs.vector().is_empty() {
        return None;
    }
    Some(*dot)
}

// The one key at which the delta holds something, where it knows one dot, which is known here and named for no other key.
pub(crate) fn key_again<'a, S: DotStore<A>, A: Allocator + Copy>(
    index: &Index<A>,
    own: &Context<A>,
    delta: &'a Causal<DotMap<Key<A>, S, A>, A>,
) -> Option<&'a Key<A>>
    ensures { IfSome result (λ key. IsAgainAt index.now (has own.now) (at_stores S.at bytes_cmp delta.now.0) (has delta.now.1) key.now) }
{
    let dot = only_dot(delta.context())?;
    let [(key, _)] = delta.store().entries() else {
        return None;
    };
    if !own.contains(dot) || !index.names_no_other(dot, key) {
        return None;
    }
    Some(key)
}

// Joins such a delta in. A refused call leaves the store.
pub(crate) fn join_again<S: DotStore<A>, M: Summary<S>, H: PathHash, A: Allocator + Copy>(
    alloc: A,
    store: &mut TrieMap<S, M, H, A>,
    context: &Context<A>,
    index: &Index<A>,
    delta: &Causal<DotMap<Key<A>, S, A>, A>,
    key: &Key<A>,
) -> Result<(), Refusal>
    requires inside { IsInside (state_of (at_keys S.at) (store.old, context.now)) }
    requires indexed { IsIndexed (at_keys S.at store.old) index.now }
    requires again { IsAgainAt index.now (has context.now) (at_stores S.at bytes_cmp delta.now.0) (has delta.now.1) key.now }
    ensures hash { store.new.0 ≡ store.old.0 }
    ensures ok { OnOk result (HoldsSame (at_keys S.at store.new)
        (join S.greater (state_with (at_keys S.at store.old) (has context.now)) (state_of (at_stores S.at bytes_cmp) delta.now)).at) }
    ensures known { (d : DotValue) → has context.now d ≡ (has context.now d || has delta.now.1 d) }
    ensures inside { IsInside (state_of (at_keys S.at) (store.new, context.now)) }
    ensures indexed { IsIndexed (at_keys S.at store.new) index.now }
    ensures store { OnErr result (store.new ≡ store.old) }
    ensures err { IsOkUnless result Refusal.OutOfMemory }
{
    // proof: the clauses speak of the index, and `context` promises that the delta knows what it holds.
    let _ = index;
    let _ = delta.context();
    let made = made_at(alloc, store, context, delta, key)?;
    write(alloc, store, key, made)?;
    Ok(())
}
