// The entries that a page gives are put to what is built.
ghost use Rattle.std.specs.Prelude.{◌≡◌, OnOk, IsOkUnless};
ghost use Rattle.sync_model.specs.Fetch.{put_entries};
ghost use Rattle.page_fetching.specs.Building.{GoesOn};

use crate::draft::Draft;
use causal_join::Fields;
use dots::{Key, Refusal};
use hash_path::PathHash;
use std::alloc::Allocator;

// Puts these entries, the last of them first.
pub(crate) fn put_all<H: PathHash, A: Allocator + Copy>(
    alloc: A,
    draft: &mut Draft<H, A>,
    entries: Vec<(Key<A>, Fields<A>), A>,
) -> Result<(), Refusal>
    ensures entries { OnOk result (draft.new.entries ≡ put_entries entries.items draft.old.entries) }
    ensures further { OnOk result (GoesOn draft.old draft.new) }
    ensures err { IsOkUnless result Refusal.OutOfMemory }
{
    let mut left = entries;
    while let Some((key, fields)) = left.pop() {
        draft.put(alloc, key, fields)?;
    }
    Ok(())
}
