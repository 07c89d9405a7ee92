ghost use Rattle.std.specs.Prelude.{◌≡◌, IfOk, OnOk, IsOkUnless};
ghost use Rattle.std.specs.FinMap as finite;
ghost use Rattle.sync_model.specs.Fetch.{put_entry};
ghost use Rattle.page_fetching.specs.Building.{GoesOn};

use crate::built::{Built, KeySet};
use causal_join::Fields;
use dots::{Key, Refusal};
use gen_trie::{GenTrie, NoSummary};
use hash_path::PathHash;
use prefix_digest::{FrozenMap, ShaSummary};
use std::alloc::{Allocator, Global};
use std::marker::Model;

// What is made of what was built so far, key by key, while that stays as it is.
#[derive(Drop)]
pub(crate) struct Draft<H: PathHash, A: Allocator + Copy = Global> {
    entries: GenTrie<Fields<A>, ShaSummary, H, A>,
    touched: GenTrie<(), NoSummary, H, A>,
}

impl<H: PathHash, A: Allocator + Copy> Model for Draft<H, A> {
    ghost use Rattle.page_fetching.specs.Building.{BuiltValue, built_code};

    ghost Value = { BuiltValue H };

    ghost coded = { built_code H.code };

    ghost view = { λ draft. record { hash = draft.entries.hash; entries = draft.entries.map; touched = draft.touched.map } };
}

impl<H: PathHash, A: Allocator + Copy> Draft<H, A> {
    // The draft of these tries.
    pub(crate) fn of(
        entries: &FrozenMap<H, A>,
        touched: &KeySet<H, A>,
    ) -> Result<Draft<H, A>, Refusal>
        ensures ok { IfOk result (λ draft. draft ≡ record { hash = entries.now.hash; entries = entries.now.map; touched = touched.now.map }) }
        ensures err { IsOkUnless result Refusal.OutOfMemory }
    {
        let touched = touched.thaw()?;
        match entries.thaw() {
            Ok(entries) => Ok(Draft { entries, touched }),
            Err(refusal) => {
                drop(touched);
                Err(refusal)
            }
        }
    }

    // Marks a key as touched.
    fn touch(&mut self, alloc: A, key: &Key<A>) -> Result<(), Refusal>
        ensures ok { OnOk result (self.new ≡ record self.old { touched = finite.insert self.old.touched key.now tt }) }
        ensures err { IsOkUnless result Refusal.OutOfMemory }
    {
        self.touched.insert(key.copy(alloc)?, ())
    }

    // Takes a key out.
    pub(crate) fn remove(&mut self, alloc: A, key: &Key<A>) -> Result<(), Refusal>
        ensures entries { OnOk result (self.new.entries ≡ finite.remove self.old.entries key.now) }
        ensures further { OnOk result (GoesOn self.old self.new) }
        ensures err { IsOkUnless result Refusal.OutOfMemory }
    {
        self.touch(alloc, key)?;
        self.entries.remove(key)?;
        Ok(())
    }

    // Puts a key with its fields, if there are any.
    pub(crate) fn put(&mut self, alloc: A, key: Key<A>, fields: Fields<A>) -> Result<(), Refusal>
        ensures entries { OnOk result (self.new.entries ≡ put_entry key fields self.old.entries) }
        ensures further { OnOk result (GoesOn self.old self.new) }
        ensures err { IsOkUnless result Refusal.OutOfMemory }
    {
        if fields.entries().is_empty() {
            drop(fields);
            drop(key);
            return Ok(());
        }
        if let Err(refusal) = self.touch(alloc, &key) {
            drop(fields);
            drop(key);
            return Err(refusal);
        }
        self.entries.insert(key, fields)?;
        Ok(())
    }

    // What is built, once the draft is made.
    pub(crate) fn finish(mut self) -> Result<Built<H, A>, Refusal>
        ensures ok { IfOk result (λ built. built ≡ self) }
        ensures err { IsOkUnless result Refusal.OutOfMemory }
    {
        let built = self.shared();
        drop(self);
        built
    }

    // What is made so far, which stays as it is.
    fn shared(&mut self) -> Result<Built<H, A>, Refusal>
        ensures ok { IfOk result (λ built. built ≡ self.old) }
        ensures same { self.new ≡ self.old }
        ensures err { IsOkUnless result Refusal.OutOfMemory }
    {
        let touched = self.touched.share()?;
        match self.entries.share() {
            Ok(entries) => Ok(Built::of(entries, touched)),
            Err(refusal) => {
                drop(touched);
                Err(refusal)
            }
        }
    }
}
