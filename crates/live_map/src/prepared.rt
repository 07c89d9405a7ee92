ghost use Rattle.std.specs.Prelude.{◌≡◌, IfOk, IsOkUnless};
ghost use Rattle.causal_join.specs.Causal.{state_of};
ghost use Rattle.op_model.specs.State.{IsInside};
ghost use Rattle.trie_map.specs.Keyed.{at_keys};

use crate::touched::Touched;
use crate::touching::gone_of;
use causal_context::Context;
use dot_store::DotStore;
use dots::{Dot, Key, Refusal};
use gen_trie::Summary;
use hash_path::PathHash;
use std::alloc::{Allocator, Global};
use std::marker::Model;
use trie_map::TrieMap;

/// What a live pair will be once a delta is joined in. It is seen as that pair.
#[derive(Drop)]
pub struct Prepared<S: DotStore<A>, M: Summary<S>, H: PathHash, A: Allocator + Copy = Global> {
    pub(crate) store: TrieMap<S, M, H, A>,
    pub(crate) context: Context<A>,
    // Places of the index that are not needed any more: nothing stands there.
    pub(crate) gone: Vec<(Dot, Key<A>), A>,
}

impl<S: DotStore<A>, M: Summary<S>, H: PathHash, A: Allocator + Copy> Model
    for Prepared<S, M, H, A> {
    ghost use Rattle.std.specs.List.{All};
    ghost use Rattle.causal_join.specs.Causal.{state_of};
    ghost use Rattle.op_model.specs.State.{IsInside};
    ghost use Rattle.trie_map.specs.Keyed.{at_keys};
    ghost use Rattle.live_map.specs.Index.{IsGone};
    ghost use Rattle.live_map.specs.Live.{PairValue, pair_code};

    ghost Value = { PairValue H S };

    ghost coded = { pair_code H.code S.code };

    ghost view = { λ next. (next.store, next.context) };

    ghost invariant = { λ next. IsInside (state_of (at_keys S.at) (next.store, next.context))
        × All (IsGone (at_keys S.at next.store)) next.gone.items };
}

impl<S: DotStore<A>, M: Summary<S>, H: PathHash, A: Allocator + Copy> Prepared<S, M, H, A> {
    // The pair of the store and the context, where these keys were touched. Takes what `dots` takes of each store at a key
    // where dots were found, and for each of these dots a look-up and, where it is gone, a place in a list.
    pub(crate) fn new(
        alloc: A,
        store: TrieMap<S, M, H, A>,
        context: Context<A>,
        touched: &Touched<A>,
    ) -> Result<Prepared<S, M, H, A>, Refusal>
        requires { IsInside (state_of (at_keys S.at) (store, context)) }
        ensures ok { IfOk result (λ next. next ≡ (store, context)) }
        ensures err { IsOkUnless result Refusal.OutOfMemory }
    {
        match gone_of(alloc, &store, touched) {
            Ok(gone) => Ok(Prepared {
                store,
                context,
                gone,
            }),
            Err(refusal) => {
                drop(store);
                drop(context);
                Err(refusal)
            }
        }
    }
}
