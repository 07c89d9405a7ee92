// The step of an asker for a page.
ghost use Rattle.std.specs.Prelude.{◌≡◌, ◌++◌, ◌∷◌, [], map, IfOk, IsOkUnless};
ghost use Rattle.std.specs.Str.{bytes_eq};
ghost use Rattle.causal_context.specs.Context.{has};
ghost use Rattle.prefix_digest.specs.Page.{digest_of};
ghost use Rattle.wire_form.specs.Page as form;
ghost use Rattle.sync_model.specs.Fetch.{children_of, to_ask, put_entries, stays, put_children};
ghost use Rattle.sync_model.specs.Fetch as model;
ghost use Rattle.sync_model.specs.Laws.{KnowsEachDot};
ghost use Rattle.std.specs.FinMap as finite;
ghost use Rattle.page_fetching.specs.Building.{GoesOn};
ghost use Rattle.page_fetching.specs.Taking.{fetch_of};
ghost use Rattle.page_fetching.specs.Taken.{taken_of, asked_of, GoesOnTo};

use crate::asking::asks_of;
use crate::fetching::Fetching;
use crate::filling::fill_page;
use crate::fitting::{fits, to_ask};
use crate::taken::Taken;
use crate::waiting::{next_waiting, promised};
use causal_context::Context;
use causal_join::Fields;
use dots::{Key, Refusal};
use hash_path::{PathHash, Prefix};
use prefix_digest::{FrozenMap, digest_of};
use std::alloc::Allocator;
use wire_form::{Page, SentPage};

// Whether the digest of a page is the one that was promised.
fn is_promised<A: Allocator + Copy>(digest: &[u8; 32], page: &Page<A>) -> bool
    ensures { result ≡ bytes_eq digest.now (digest_of (form.value_of page.now)) }
{
    *digest == digest_of(page)
}

// What a page makes that fits, where these are its entries with their values.
fn took<H: PathHash, A: Allocator + Copy>(
    alloc: A,
    fetching: &Fetching<H, A>,
    own: &FrozenMap<H, A>,
    sent: &SentPage<A>,
    entries: Vec<(Key<A>, Fields<A>), A>,
) -> Result<(Fetching<H, A>, Vec<Prefix, A>), Refusal>
    requires { fetching.now.built.hash ≡ own.now.hash }
    ensures waiting { IfOk result (λ next. next.0.waiting ≡ put_children sent.now.prefix (to_ask (H.hash_of own.now.hash) own.now.map sent.now.prefix (children_of sent.now.page)) (finite.remove fetching.now.waiting sent.now.prefix)) }
    ensures built { IfOk result (λ next. next.0.built.entries ≡ put_entries entries.items (finite.retain_keys fetching.now.built.entries (stays (H.hash_of own.now.hash) sent.now.prefix sent.now.page))) }
    ensures asks { IfOk result (λ next. next.1.items ≡ map (λ c. sent.now.prefix ++ c.0 ∷ []) (to_ask (H.hash_of own.now.hash) own.now.map sent.now.prefix (children_of sent.now.page))) }
    ensures further { IfOk result (λ next. GoesOn fetching.now.built next.0.built) }
    ensures err { IsOkUnless result Refusal.OutOfMemory }
{
    let prefix = sent.prefix();
    // proof: `depth` promises that its indices are such that children can have, and `page` that the page can stand there.
    let _depth = prefix.depth();
    let _page = sent.page();
    let children = to_ask(alloc, own, sent)?;
    let asks = asks_of(alloc, prefix, &children)?;
    let waiting = next_waiting(alloc, fetching.waiting(), prefix, &children)?;
    match fetching.built().take(alloc, sent, entries) {
        Ok(built) => Ok((Fetching::of(waiting, built), asks)),
        Err(refusal) => {
            drop(waiting);
            Err(refusal)
        }
    }
}

impl<H: PathHash, A: Allocator + Copy> Fetching<H, A> {
    /// What a page comes to, where the opening knows these dots: it is taken where its prefix is waited for, its digest is the one
    /// promised, it fits, and its values are just those of the dots that were not seen. Then the children are asked for whose digests are not
    /// those of the own map. What is here stays as it is. Takes time and memory in the page and in the keys that it takes away, each
    /// times the logarithm of the map and of what is waited for, and that of comparing the contexts; where the opening does not know all
    /// that was seen, also in the own entries that the page is of.
    /// Its only refusal is OutOfMemory.
    pub fn take(
        &self,
        alloc: A,
        own: &FrozenMap<H, A>,
        seen: &Context<A>,
        known: &Context<A>,
        sent: &SentPage<A>,
    ) -> Result<Taken<H, A>, Refusal>
        requires hash { self.now.built.hash ≡ own.now.hash }
        requires within { KnowsEachDot (has seen.now) own.now.map }
        ensures ok { IfOk result (λ taken. taken_of taken ≡ model.take_page (H.hash_of own.now.hash) own.now.map (has seen.now) (has known.now)
            (fetch_of self.now) sent.now.prefix sent.now.page sent.now.values) }
        ensures asks { IfOk result (λ taken. asked_of taken (map (λ c. sent.now.prefix ++ c.0 ∷ []) (to_ask (H.hash_of own.now.hash) own.now.map sent.now.prefix (children_of sent.now.page)))) }
        ensures further { IfOk result (λ taken. GoesOnTo self.now taken) }
        ensures err { IsOkUnless result Refusal.OutOfMemory }
    {
        let Some(digest) = promised(alloc, self.waiting(), sent.prefix())? else {
            return Ok(Taken::Ignored);
        };
        if !is_promised(&digest, sent.page()) {
            return Ok(Taken::Mismatch);
        }
        if !fits(own, seen, known, sent) {
            return Ok(Taken::Mismatch);
        }
        let Some(entries) = fill_page(alloc, own, sent.page(), seen, sent.values())? else {
            return Ok(Taken::Mismatch);
        };
        let (next, asks) = took(alloc, self, own, sent, entries)?;
        Ok(Taken::Took(next, asks))
    }
}
