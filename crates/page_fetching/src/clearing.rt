// What a page says stands no more under its prefix is taken out of what is built.
ghost use Rattle.std.specs.Prelude.{◌≡◌, ◌<◌, ◌++◌, ◌∷◌, ◌&&◌, length, nat_eq, OnOk, IsOkUnless};
ghost use Rattle.std.specs.List.{list_any};
ghost use Rattle.std.specs.FinMap as finite;
ghost use Rattle.hash_path.specs.Map.{path, walk_under};
ghost use Rattle.hash_path.specs.Word.{begins};
ghost use Rattle.sync_model.specs.Fetch.{stays};
ghost use Rattle.page_fetching.specs.Building.{GoesOn, GoesWhere, next_index, is_unlisted, remove_all};

use crate::draft::Draft;
use dots::Refusal;
use hash_path::{PathHash, Prefix};
use prefix_digest::FrozenMap;
use std::alloc::Allocator;
use wire_form::{Page, SentPage};

// Takes the keys out that a map has under a prefix.
fn clear_keys<H: PathHash, A: Allocator + Copy>(
    alloc: A,
    draft: &mut Draft<H, A>,
    before: &FrozenMap<H, A>,
    prefix: Prefix,
) -> Result<(), Refusal>
    ensures entries { OnOk result (draft.new.entries ≡ remove_all (walk_under (H.hash_of before.now.hash) prefix before.now.map) draft.old.entries) }
    ensures further { OnOk result (GoesOn draft.old draft.new) }
    ensures err { IsOkUnless result Refusal.OutOfMemory }
{
    for (key, _) in before.iter_under(prefix) {
        draft.remove(alloc, key)?;
    }
    Ok(())
}

// The same, said key by key.
fn clear_under<H: PathHash, A: Allocator + Copy>(
    alloc: A,
    draft: &mut Draft<H, A>,
    before: &FrozenMap<H, A>,
    prefix: Prefix,
) -> Result<(), Refusal>
    ensures entries { OnOk result (GoesWhere (λ key. begins prefix (path (H.hash_of before.now.hash) key)) before.now.map draft.old.entries draft.new.entries) }
    ensures further { OnOk result (GoesOn draft.old draft.new) }
    ensures err { IsOkUnless result Refusal.OutOfMemory }
{
    clear_keys(alloc, draft, before, prefix)?;
    Ok(())
}

// Whether a branch lists a child of this index.
fn lists(children: &[(u8, [u8; 32])], index: u8) -> bool
    ensures { result ≡ list_any (λ c. nat_eq c.0 index) children.now }
{
    for child in children {
        if child.0 == index {
            return true;
        }
    }
    false
}

// Takes the keys out that stand under a prefix with this next index, if the branch at the prefix does not list it.
fn clear_child<H: PathHash, A: Allocator + Copy>(
    alloc: A,
    draft: &mut Draft<H, A>,
    before: &FrozenMap<H, A>,
    prefix: Prefix,
    children: &[(u8, [u8; 32])],
    index: u8,
) -> Result<(), Refusal>
    requires { length prefix < 7 }
    ensures entries { OnOk result (GoesWhere (λ key. nat_eq index (next_index (H.hash_of before.now.hash) prefix key) && is_unlisted (H.hash_of before.now.hash) prefix children.now key)
        before.now.map draft.old.entries draft.new.entries) }
    ensures further { OnOk result (GoesOn draft.old draft.new) }
    ensures err { IsOkUnless result Refusal.OutOfMemory }
{
    let Some(child) = prefix.child(u32::from(index)) else {
        return Ok(());
    };
    if lists(children, index) {
        return Ok(());
    }
    clear_under(alloc, draft, before, child)?;
    Ok(())
}

// Takes the keys out that stand under a prefix and that the branch there does not list. No key that it lists is looked at.
fn clear_unlisted<H: PathHash, A: Allocator + Copy>(
    alloc: A,
    draft: &mut Draft<H, A>,
    before: &FrozenMap<H, A>,
    prefix: Prefix,
    children: &[(u8, [u8; 32])],
) -> Result<(), Refusal>
    requires { length prefix < 7 }
    ensures entries { OnOk result (GoesWhere (is_unlisted (H.hash_of before.now.hash) prefix children.now) before.now.map draft.old.entries draft.new.entries) }
    ensures further { OnOk result (GoesOn draft.old draft.new) }
    ensures err { IsOkUnless result Refusal.OutOfMemory }
{
    for index in 0..32u8 {
        clear_child(alloc, draft, before, prefix, children, index)?;
    }
    Ok(())
}

// Takes the keys out that a page says stand no more under its prefix.
pub(crate) fn clear_for<H: PathHash, A: Allocator + Copy>(
    alloc: A,
    draft: &mut Draft<H, A>,
    before: &FrozenMap<H, A>,
    sent: &SentPage<A>,
) -> Result<(), Refusal>
    requires { draft.old.entries ≡ before.now.map }
    ensures entries { OnOk result (draft.new.entries
        ≡ finite.retain_keys draft.old.entries (stays (H.hash_of before.now.hash) sent.now.prefix sent.now.page)) }
    ensures further { OnOk result (GoesOn draft.old draft.new) }
    ensures err { IsOkUnless result Refusal.OutOfMemory }
{
    let prefix = sent.prefix();
    match sent.page() {
        Page::OneKey(_, _) => clear_under(alloc, draft, before, prefix)?,
        Page::Keys(_) => clear_under(alloc, draft, before, prefix)?,
        Page::Branch(children) => clear_unlisted(alloc, draft, before, prefix, children)?,
    }
    Ok(())
}
