// Whether a page can be that of the peer, and what has to be asked for after it.
ghost use Rattle.std.specs.Prelude.{◌≡◌, ◌<◌, ◌≤◌, ◌||◌, ◌++◌, ◌∷◌, [], not, length, IfOk, IsOkUnless, OnOk};
ghost use Rattle.std.specs.List.{list_all, AllByRecursion};
ghost use Rattle.causal_context.specs.Context.{has};
ghost use Rattle.hash_path.specs.Path.{last_index};
ghost use Rattle.hash_path.specs.Word.{begins};
ghost use Rattle.hash_path.specs.Map.{path, walk_under};
ghost use Rattle.wire_form.specs.Page as form;
ghost use Rattle.sync_model.specs.Fetch.{entries_of, children_of, within};
ghost use Rattle.sync_model.specs.Fetch as model;
ghost use Rattle.sync_model.specs.Laws.{KnowsEachDot};

use crate::known::{knows_page, knows_under};
use causal_context::Context;
use dots::{Key, Refusal};
use hash_path::{PathHash, Prefix};
use prefix_digest::{FrozenMap, digest};
use std::alloc::Allocator;
use wire_form::{NamedFields, Page, SentPage};

// Whether a key stands under a prefix.
fn is_under<H: PathHash, A: Allocator + Copy>(hash: H, prefix: Prefix, key: &Key<A>) -> bool
    ensures { result ≡ begins prefix (path (H.hash_of hash) key.now) }
{
    // That a prefix has at most seven indices is what its depth tells.
    let depth = prefix.depth();
    depth <= 7 && prefix.covers(hash.hash(key.bytes()))
}

// Whether the keys of several entries stand under a prefix.
fn are_under<H: PathHash, A: Allocator + Copy>(
    hash: H,
    prefix: Prefix,
    entries: &[(Key<A>, NamedFields<A>)],
) -> bool
    ensures { result ≡ list_all (λ e. begins prefix (path (H.hash_of hash) e.0)) entries.now }
{
    for (key, _) in entries {
        if !is_under(hash, prefix, key) {
            return false;
        }
    }
    true
}

/// Whether the keys that a page tells stand under its prefix. Takes time in their bytes, which are hashed, and no memory.
pub(crate) fn keys_are_under<H: PathHash, A: Allocator + Copy>(
    hash: H,
    prefix: Prefix,
    page: &Page<A>,
) -> bool
    ensures { result ≡ list_all (λ e. begins prefix (path (H.hash_of hash) e.0)) (entries_of (form.value_of page.now)) }
{
    match page {
        Page::OneKey(key, _) => is_under(hash, prefix, key),
        Page::Keys(entries) => are_under(hash, prefix, entries),
        Page::Branch(_) => true,
    }
}

// Whether the own map has at a child of the prefix the digest that is told of it.
fn is_own<H: PathHash, A: Allocator + Copy>(
    own: &FrozenMap<H, A>,
    prefix: Prefix,
    child: &(u8, [u8; 32]),
) -> bool
    requires depth { length prefix < 7 }
    requires index { child.now.0 ≤ last_index (length prefix) }
    ensures { result ≡ model.is_own (H.hash_of own.now.hash) own.now.map prefix child.now }
{
    let Some(at) = prefix.child(u32::from(child.0)) else {
        unreachable!()
    };
    match digest(own, at) {
        Some(digest) => digest == child.1,
        None => false,
    }
}

// Puts a child behind the others, if it has to be asked for.
fn add_ask<H: PathHash, A: Allocator + Copy>(
    asks: &mut Vec<(u8, [u8; 32]), A>,
    own: &FrozenMap<H, A>,
    prefix: Prefix,
    child: &(u8, [u8; 32]),
) -> Result<(), Refusal>
    requires depth { length prefix < 7 }
    requires index { child.now.0 ≤ last_index (length prefix) }
    ensures ok { OnOk result (asks.new.items ≡ asks.old.items ++ model.to_ask (H.hash_of own.now.hash) own.now.map prefix (child.now ∷ [])) }
    ensures err { IsOkUnless result Refusal.OutOfMemory }
{
    if is_own(own, prefix, child) {
        return Ok(());
    }
    asks.push(*child)?;
    Ok(())
}

// The children that have to be asked for.
fn children_to_ask<H: PathHash, A: Allocator + Copy>(
    alloc: A,
    own: &FrozenMap<H, A>,
    prefix: Prefix,
    children: &[(u8, [u8; 32])],
) -> Result<Vec<(u8, [u8; 32]), A>, Refusal>
    requires depth { length prefix < 7 }
    requires indices { AllByRecursion (λ c. c.0 ≤ last_index (length prefix)) children.now }
    ensures ok { IfOk result (λ asks. asks.items ≡ model.to_ask (H.hash_of own.now.hash) own.now.map prefix children.now) }
    ensures err { IsOkUnless result Refusal.OutOfMemory }
{
    let mut asks = Vec::new(alloc);
    for child in children {
        add_ask(&mut asks, own, prefix, child)?;
    }
    Ok(asks)
}

/// The children of a page whose digests are not those of the own map there, so that they have to be asked for: in the order of the
/// page, which for a page that is no branch are none. Takes a digest of the own map for each child of the page, and memory in what
/// it gives.
/// Its only refusal is OutOfMemory.
pub(crate) fn to_ask<H: PathHash, A: Allocator + Copy>(
    alloc: A,
    own: &FrozenMap<H, A>,
    sent: &SentPage<A>,
) -> Result<Vec<(u8, [u8; 32]), A>, Refusal>
    ensures ok { IfOk result (λ asks. asks.items
        ≡ model.to_ask (H.hash_of own.now.hash) own.now.map sent.now.prefix (children_of sent.now.page)) }
    ensures err { IsOkUnless result Refusal.OutOfMemory }
{
    let prefix = sent.prefix();
    match sent.page() {
        Page::OneKey(_, _) => Ok(Vec::new(alloc)),
        Page::Keys(_) => Ok(Vec::new(alloc)),
        Page::Branch(children) => children_to_ask(alloc, own, prefix, children),
    }
}

// Whether all dots that the own map keeps for a child are known: those under it, where the digest told of it is the own one.
fn knows_child<H: PathHash, A: Allocator + Copy>(
    known: &Context<A>,
    own: &FrozenMap<H, A>,
    prefix: Prefix,
    child: &(u8, [u8; 32]),
) -> bool
    requires depth { length prefix < 7 }
    requires index { child.now.0 ≤ last_index (length prefix) }
    ensures { result ≡ (not (model.is_own (H.hash_of own.now.hash) own.now.map prefix child.now)
        || within (has known.now) (walk_under (H.hash_of own.now.hash) (prefix ++ child.now.0 ∷ []) own.now.map)) }
{
    if !is_own(own, prefix, child) {
        return true;
    }
    match prefix.child(u32::from(child.0)) {
        Some(at) => knows_under(known, own, at),
        None => unreachable!(),
    }
}

// The same of several children.
fn knows_children<H: PathHash, A: Allocator + Copy>(
    known: &Context<A>,
    own: &FrozenMap<H, A>,
    prefix: Prefix,
    children: &[(u8, [u8; 32])],
) -> bool
    requires depth { length prefix < 7 }
    requires indices { AllByRecursion (λ c. c.0 ≤ last_index (length prefix)) children.now }
    ensures { result ≡ list_all (λ c. not (model.is_own (H.hash_of own.now.hash) own.now.map prefix c)
        || within (has known.now) (walk_under (H.hash_of own.now.hash) (prefix ++ c.0 ∷ []) own.now.map)) children.now }
{
    for child in children {
        if !knows_child(known, own, prefix, child) {
            return false;
        }
    }
    true
}

// The same, where all that the own map holds was seen: what was seen is known as a rule, and then no entry is looked at.
fn keeps_known<H: PathHash, A: Allocator + Copy>(
    own: &FrozenMap<H, A>,
    seen: &Context<A>,
    known: &Context<A>,
    prefix: Prefix,
    children: &[(u8, [u8; 32])],
) -> bool
    requires depth { length prefix < 7 }
    requires indices { AllByRecursion (λ c. c.0 ≤ last_index (length prefix)) children.now }
    requires within { KnowsEachDot (has seen.now) own.now.map }
    ensures { result ≡ list_all (λ c. not (model.is_own (H.hash_of own.now.hash) own.now.map prefix c)
        || within (has known.now) (walk_under (H.hash_of own.now.hash) (prefix ++ c.0 ∷ []) own.now.map)) children.now }
{
    if known.includes(seen) {
        return true;
    }
    knows_children(known, own, prefix, children)
}

/// Whether a page can be that of the peer, whose opening knows these dots: its keys stand under its prefix, and the dots that it
/// tells are known, and those that are kept of the own map for it, whose dots were all seen. Takes time in the page and in the
/// names and single dots of both contexts, and no memory; where the opening does not know all that was seen, also a digest of the
/// own map for each child of the page, and time in the entries of the own map under the children whose digests are its own.
pub(crate) fn fits<H: PathHash, A: Allocator + Copy>(
    own: &FrozenMap<H, A>,
    seen: &Context<A>,
    known: &Context<A>,
    sent: &SentPage<A>,
) -> bool
    requires { KnowsEachDot (has seen.now) own.now.map }
    ensures { result ≡ model.fits (H.hash_of own.now.hash) own.now.map (has known.now) sent.now.prefix sent.now.page }
{
    let prefix = sent.prefix();
    let page = sent.page();
    if !keys_are_under(own.hash(), prefix, page) {
        return false;
    }
    if !knows_page(known, page) {
        return false;
    }
    match page {
        Page::OneKey(_, _) => true,
        Page::Keys(_) => true,
        Page::Branch(children) => keeps_known(own, seen, known, prefix, children),
    }
}
