// The join of two maps, key by key, written into a draft of the first.
ghost use Rattle.std.specs.Prelude.{◌≡◌, OnOk, IsOkUnless};
ghost use Rattle.causal_context.specs.Context.{has};
ghost use Rattle.trie_map.specs.Joined.{AreJoined};
ghost use Rattle.trie_map.specs.Keyed.{at_keys};

use crate::draft::Draft;
use crate::trie_map::TrieMap;
use causal_context::Context;
use dot_store::DotStore;
use dots::Refusal;
use gen_trie::Summary;
use hash_path::PathHash;
use std::alloc::Allocator;

// Joins at each key of either map.
pub(crate) fn join_all<S: DotStore<A>, M: Summary<S>, H: PathHash, A: Allocator + Copy>(
    alloc: A,
    draft: &mut Draft<S, M, H, A>,
    mine: &TrieMap<S, M, H, A>,
    own: &Context<A>,
    yours: &TrieMap<S, M, H, A>,
    theirs: &Context<A>,
) -> Result<(), Refusal>
    requires { draft.old ≡ mine.now }
    ensures hash { draft.new.0 ≡ draft.old.0 }
    ensures ok { OnOk result (AreJoined S.at S.greater (at_keys S.at mine.now) (has own.now) (at_keys S.at yours.now) (has theirs.now) mine.now.1 draft.new.1
        × AreJoined S.at S.greater (at_keys S.at mine.now) (has own.now) (at_keys S.at yours.now) (has theirs.now) yours.now.1 draft.new.1) }
    ensures err { IsOkUnless result Refusal.OutOfMemory }
{
    join_own(alloc, draft, mine, own, yours, theirs)?;
    join_others(alloc, draft, mine, own, yours, theirs)
}

// Joins at each key of the first map.
fn join_own<S: DotStore<A>, M: Summary<S>, H: PathHash, A: Allocator + Copy>(
    alloc: A,
    draft: &mut Draft<S, M, H, A>,
    mine: &TrieMap<S, M, H, A>,
    own: &Context<A>,
    yours: &TrieMap<S, M, H, A>,
    theirs: &Context<A>,
) -> Result<(), Refusal>
    requires { draft.old ≡ mine.now }
    ensures hash { draft.new.0 ≡ draft.old.0 }
    ensures ok { OnOk result (AreJoined S.at S.greater (at_keys S.at mine.now) (has own.now) (at_keys S.at yours.now) (has theirs.now) mine.now.1 draft.new.1) }
    ensures err { IsOkUnless result Refusal.OutOfMemory }
{
    let empty = S::empty(alloc);
    for (key, store) in mine.frozen().iter() {
        let other = yours.get(key).unwrap_or(&empty);
        draft.join_at(alloc, key, store, own, other, theirs)?;
    }
    Ok(())
}

// Joins at each key of the other map.
fn join_others<S: DotStore<A>, M: Summary<S>, H: PathHash, A: Allocator + Copy>(
    alloc: A,
    draft: &mut Draft<S, M, H, A>,
    mine: &TrieMap<S, M, H, A>,
    own: &Context<A>,
    yours: &TrieMap<S, M, H, A>,
    theirs: &Context<A>,
) -> Result<(), Refusal>
    requires { AreJoined S.at S.greater (at_keys S.at mine.now) (has own.now) (at_keys S.at yours.now) (has theirs.now) mine.now.1 draft.old.1 }
    ensures hash { draft.new.0 ≡ draft.old.0 }
    ensures ok { OnOk result (AreJoined S.at S.greater (at_keys S.at mine.now) (has own.now) (at_keys S.at yours.now) (has theirs.now) mine.now.1 draft.new.1
        × AreJoined S.at S.greater (at_keys S.at mine.now) (has own.now) (at_keys S.at yours.now) (has theirs.now) yours.now.1 draft.new.1) }
    ensures err { IsOkUnless result Refusal.OutOfMemory }
{
    let empty = S::empty(alloc);
    for (key, store) in yours.frozen().iter() {
        if mine.get(key).is_none() {
            draft.join_at(alloc, key, &empty, own, store, theirs)?;
        }
    }
    Ok(())
}
