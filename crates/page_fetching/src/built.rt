ghost use Rattle.std.specs.Prelude.{◌≡◌, IfOk, OnOk, IsOkUnless};
ghost use Rattle.std.specs.FinMap as finite;
ghost use Rattle.sync_model.specs.Fetch.{put_entries, stays};
ghost use Rattle.page_fetching.specs.Building.{GoesOn};

use crate::clearing::clear_for;
use crate::draft::Draft;
use crate::putting::put_all;
use causal_join::Fields;
use dots::{Key, Refusal};
use gen_trie::{Frozen, NoSummary};
use hash_path::PathHash;
use prefix_digest::FrozenMap;
use std::alloc::{Allocator, Global};
use std::marker::Model;
use wire_form::SentPage;

/// A set of keys, which shares its nodes with the sets that it comes from.
pub type KeySet<H, A = Global> = Frozen<(), NoSummary, H, A>;

/// What an asker has built so far of its peer's map: its own snapshot at first, whose nodes it shares, and changed at the keys of
/// the pages that it took, which it remembers as touched.
#[derive(Drop)]
pub struct Built<H: PathHash, A: Allocator + Copy = Global> {
    entries: FrozenMap<H, A>,
    touched: KeySet<H, A>,
}

impl<H: PathHash, A: Allocator + Copy> Model for Built<H, A> {
    ghost use Rattle.page_fetching.specs.Building.{BuiltValue, built_code};

    ghost Value = { BuiltValue H };

    ghost coded = { built_code H.code };

    ghost view = { λ built. record { hash = built.entries.hash; entries = built.entries.map; touched = built.touched.map } };
}

impl<H: PathHash, A: Allocator + Copy> Built<H, A> {
    /// What is built before a page is taken: this map, where no key was touched. Takes no memory.
    pub fn new(alloc: A, entries: FrozenMap<H, A>) -> Built<H, A>
        ensures { result ≡ record { hash = entries.hash; entries = entries.map; touched = finite.empty } }
    {
        let hash = entries.hash();
        Built {
            entries,
            touched: Frozen::new(alloc, hash),
        }
    }

    // What these tries are.
    pub(crate) fn of(entries: FrozenMap<H, A>, touched: KeySet<H, A>) -> Built<H, A>
        ensures { result ≡ record { hash = entries.hash; entries = entries.map; touched = touched.map } }
    {
        Built { entries, touched }
    }

    /// The map that is built. Copies nothing.
    pub fn entries(&self) -> &FrozenMap<H, A>
        ensures hash { result.now.hash ≡ self.now.hash }
        ensures map { result.now.map ≡ self.now.entries }
    {
        &self.entries
    }

    /// The keys that were touched: what stands at any other is as it was at first. Copies nothing.
    pub fn touched(&self) -> &KeySet<H, A>
        ensures { result.now.map ≡ self.now.touched }
    {
        &self.touched
    }

    /// The same. Copies no node: it takes two reference counts, and is refused only where one is full.
    /// Its only refusal is OutOfMemory.
    pub fn copy(&self) -> Result<Built<H, A>, Refusal>
        ensures ok { IfOk result (λ copy. copy ≡ self.now) }
        ensures err { IsOkUnless result Refusal.OutOfMemory }
    {
        let touched = self.touched.copy()?;
        match self.entries.copy() {
            Ok(entries) => Ok(Built { entries, touched }),
            Err(refusal) => {
                drop(touched);
                Err(refusal)
            }
        }
    }

    /// What is built once a page was taken: what the page says stands no more under its prefix is gone, and these entries, which
    /// the page gives, are there. Takes time and memory in the page and in the keys that go, each times the logarithm of the map.
    /// Its only refusal is OutOfMemory.
    pub(crate) fn take(
        &self,
        alloc: A,
        sent: &SentPage<A>,
        entries: Vec<(Key<A>, Fields<A>), A>,
    ) -> Result<Built<H, A>, Refusal>
        ensures entries { IfOk result (λ next. next.entries
            ≡ put_entries entries.items (finite.retain_keys self.now.entries (stays (H.hash_of self.now.hash) sent.now.prefix sent.now.page))) }
        ensures further { IfOk result (λ next. GoesOn self.now next) }
        ensures err { IsOkUnless result Refusal.OutOfMemory }
    {
        let mut draft = Draft::of(&self.entries, &self.touched)?;
        if let Err(refusal) = change(alloc, &mut draft, &self.entries, sent, entries) {
            drop(draft);
            return Err(refusal);
        }
        draft.finish()
    }
}

// Takes out of the draft what the page says stands no more, and puts these entries.
fn change<H: PathHash, A: Allocator + Copy>(
    alloc: A,
    draft: &mut Draft<H, A>,
    before: &FrozenMap<H, A>,
    sent: &SentPage<A>,
    entries: Vec<(Key<A>, Fields<A>), A>,
) -> Result<(), Refusal>
    requires { draft.old.entries ≡ before.now.map }
    ensures entries { OnOk result (draft.new.entries
        ≡ put_entries entries.items (finite.retain_keys draft.old.entries (stays (H.hash_of before.now.hash) sent.now.prefix sent.now.page))) }
    ensures further { OnOk result (GoesOn draft.old draft.new) }
    ensures err { IsOkUnless result Refusal.OutOfMemory }
{
    clear_for(alloc, draft, before, sent)?;
    put_all(alloc, draft, entries)
}
