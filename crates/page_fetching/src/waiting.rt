// The prefixes that an asker waits for, each with the digest that was promised of it.
ghost use Rattle.std.specs.Prelude.{◌≡◌, ◌<◌, ◌≤◌, ◌++◌, ◌∷◌, [], IfOk, OnOk, IsOkUnless};
ghost use Rattle.std.specs.FinMap as finite;
ghost use Rattle.sync_model.specs.Fetch.{put_children};

use dots::{Key, Refusal};
use gen_trie::{Frozen, GenTrie, NoSummary};
use hash_path::{PathHash, Prefix};
use std::alloc::{Allocator, Global};

/// The prefixes that an asker waits for, by their indices as the bytes of keys, each with the digest that was promised of it.
pub(crate) type Waiting<H, A = Global> = Frozen<[u8; 32], NoSummary, H, A>;

// The indices of a prefix, one byte each.
fn indices_of<A: Allocator + Copy>(alloc: A, prefix: Prefix) -> Result<Vec<u8, A>, Refusal>
    ensures ok { IfOk result (λ bytes. bytes.items ≡ prefix) }
    ensures err { IsOkUnless result Refusal.OutOfMemory }
{
    let mut bytes = Vec::with_capacity(alloc, 7)?;
    let mut rest = prefix;
    while let Some(first) = rest.split_first() {
        bytes.push(first.0 as u8)?;
        rest = first.1;
    }
    Ok(bytes)
}

// The key of a prefix: its indices, one byte each.
fn prefix_key<A: Allocator + Copy>(alloc: A, prefix: Prefix) -> Result<Key<A>, Refusal>
    ensures ok { IfOk result (λ key. key ≡ prefix) }
    ensures err { IsOkUnless result Refusal.OutOfMemory }
{
    let depth = prefix.depth();
    let bytes = indices_of(alloc, prefix)?;
    match Key::new(alloc, &bytes) {
        Ok(key) => Ok(key),
        Err(_) if depth <= 7 => Err(Refusal::OutOfMemory),
        Err(refusal) => Err(refusal),
    }
}

/// The digest that was promised of a prefix, or None where it is not waited for. Takes time in the logarithm of the prefixes
/// that are, and memory in the prefix.
/// Its only refusal is OutOfMemory.
pub(crate) fn promised<H: PathHash, A: Allocator + Copy>(
    alloc: A,
    waiting: &Waiting<H, A>,
    prefix: Prefix,
) -> Result<Option<[u8; 32]>, Refusal>
    ensures ok { IfOk result (λ digest. digest ≡ finite.get waiting.now.map prefix) }
    ensures err { IsOkUnless result Refusal.OutOfMemory }
{
    let key = prefix_key(alloc, prefix)?;
    match waiting.lookup(&key) {
        Some(digest) => Ok(Some(*digest)),
        None => Ok(None),
    }
}

// The key of a prefix and one index more.
fn child_key<A: Allocator + Copy>(alloc: A, prefix: Prefix, index: u8) -> Result<Key<A>, Refusal>
    ensures ok { IfOk result (λ key. key ≡ prefix ++ index ∷ []) }
    ensures err { IsOkUnless result Refusal.OutOfMemory }
{
    let depth = prefix.depth();
    let mut bytes = indices_of(alloc, prefix)?;
    bytes.push(index)?;
    match Key::new(alloc, &bytes) {
        Ok(key) => Ok(key),
        Err(_) if depth <= 7 => Err(Refusal::OutOfMemory),
        Err(refusal) => Err(refusal),
    }
}

// Puts the children of a prefix to what is waited for, the last of them first.
fn put_asks<H: PathHash, A: Allocator + Copy>(
    alloc: A,
    draft: &mut GenTrie<[u8; 32], NoSummary, H, A>,
    prefix: Prefix,
    asks: &[(u8, [u8; 32])],
) -> Result<(), Refusal>
    ensures ok { OnOk result (draft.new.map ≡ put_children prefix asks.now draft.old.map) }
    ensures err { IsOkUnless result Refusal.OutOfMemory }
{
    let mut left = asks;
    while let Some((last, rest)) = left.split_last() {
        let key = child_key(alloc, prefix, last.0)?;
        draft.insert(key, last.1)?;
        left = rest;
    }
    Ok(())
}

// Takes a prefix out of the draft and puts these children of it, and gives what is waited for then.
fn removed_and_put<H: PathHash, A: Allocator + Copy>(
    alloc: A,
    draft: &mut GenTrie<[u8; 32], NoSummary, H, A>,
    prefix: Prefix,
    asks: &[(u8, [u8; 32])],
) -> Result<Waiting<H, A>, Refusal>
    ensures ok { IfOk result (λ next. next.map ≡ put_children prefix asks.now (finite.remove draft.old.map prefix)) }
    ensures same { IfOk result (λ next. draft.new.map ≡ next.map) }
    ensures err { IsOkUnless result Refusal.OutOfMemory }
{
    let key = prefix_key(alloc, prefix)?;
    draft.remove(&key)?;
    put_asks(alloc, draft, prefix, asks)?;
    draft.share()
}

/// What is waited for once the page at a prefix was taken: the prefix no more, and these children of it, each with the digest that the
/// page told of it. What was waited for before stays as it is. Takes time and memory in the children, and the logarithm of the
/// prefixes that are waited for.
/// Its only refusal is OutOfMemory.
pub(crate) fn next_waiting<H: PathHash, A: Allocator + Copy>(
    alloc: A,
    waiting: &Waiting<H, A>,
    prefix: Prefix,
    asks: &[(u8, [u8; 32])],
) -> Result<Waiting<H, A>, Refusal>
    ensures ok { IfOk result (λ next. next.map ≡ put_children prefix asks.now (finite.remove waiting.now.map prefix)) }
    ensures err { IsOkUnless result Refusal.OutOfMemory }
{
    let mut draft = waiting.thaw()?;
    let next = removed_and_put(alloc, &mut draft, prefix, asks);
    drop(draft);
    next
}

// Nothing is waited for.
pub(crate) fn no_waiting<H: PathHash, A: Allocator + Copy>(alloc: A, hash: H) -> Waiting<H, A>
    ensures { result.map ≡ finite.empty }
{
    Frozen::new(alloc, hash)
}

// The root is waited for, by this digest.
pub(crate) fn first_waiting<H: PathHash, A: Allocator + Copy>(
    alloc: A,
    hash: H,
    root: &[u8; 32],
) -> Result<Waiting<H, A>, Refusal>
    ensures ok { IfOk result (λ waiting. waiting.map ≡ finite.insert finite.empty [] root.now) }
    ensures err { IsOkUnless result Refusal.OutOfMemory }
{
    let key = prefix_key(alloc, Prefix::root())?;
    let mut draft = GenTrie::new(alloc, hash);
    if let Err(refusal) = draft.insert(key, *root) {
        drop(draft);
        return Err(refusal);
    }
    let waiting = draft.share();
    drop(draft);
    waiting
}
