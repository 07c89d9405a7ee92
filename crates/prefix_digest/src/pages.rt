ghost use Rattle.std.specs.Prelude.{◌≡◌, ◌↔◌, ◌<◌, ◌++◌, ◌∷◌, [], ℕ, List, length, None, IfOk, OnOk, IsOkUnless, IsTrue};
ghost use Rattle.std.specs.Option.{option_map};
ghost use Rattle.std.specs.FinMap as finite;
ghost use Rattle.sha2.specs.Sha256.{sha256};
ghost use Rattle.hash_path.specs.Path.{indices};
ghost use Rattle.hash_path.specs.Map.{walk_under};
ghost use Rattle.hash_path.specs.Summary.{present, one_present};
ghost use Rattle.wire_form.specs.Page as form;
ghost use Rattle.prefix_digest.specs.Page.{named_entry, named_entries, page_at, digest_at};

use crate::naming::named_fields;
use crate::sha_summary::ShaSummary;
use crate::told::{Told, look_under};
use causal_join::Fields;
use dots::{Key, Refusal};
use gen_trie::Frozen;
use hash_path::{DEPTHS, PathHash, Prefix};
use sha2::{Digest, Sha256};
use std::alloc::{Allocator, Global};
use wire_form::Page;

/// The snapshot of a map from keys to fields, each with dots and values, whose nodes keep digests.
pub type FrozenMap<H, A = Global> = Frozen<Fields<A>, ShaSummary, H, A>;

/// The digest of a map at a prefix: the SHA-256 of the bytes of its page there. None exactly where no key stands under the
/// prefix. Takes no memory. It reads what a node keeps after a freeze or a seal, and below a node that keeps none it goes
/// on, to the keys. No digest is kept of a key alone: what stands there is hashed each time.
pub fn digest<H: PathHash, A: Allocator + Copy>(
    frozen: &FrozenMap<H, A>,
    prefix: Prefix,
) -> Option<[u8; 32]>
    ensures value { result ≡ digest_at (H.hash_of frozen.now.hash) frozen.now.map prefix }
    ensures none { (result ≡ None) ↔ ((key : List ℕ) → indices (length prefix) (H.hash_of frozen.now.hash key) ≡ prefix →
        finite.get frozen.now.map key ≡ None) }
{
    let summary = frozen.summary(prefix)?;
    Some(summary.digest())
}

/// The page of a map at a prefix, or None where no key stands under the prefix. Takes memory in the page. Of one key, or
/// of keys of one hash, it takes time in what stands there, as each value is hashed; of a branch, up to 32 digests.
/// Its only refusal is OutOfMemory.
pub fn page_value<H: PathHash, A: Allocator + Copy>(
    alloc: A,
    frozen: &FrozenMap<H, A>,
    prefix: Prefix,
) -> Result<Option<Page<A>>, Refusal>
    ensures ok { IfOk result (λ page. option_map form.value_of page ≡ page_at (H.hash_of frozen.now.hash) frozen.now.map prefix) }
    ensures err { IsOkUnless result Refusal.OutOfMemory }
{
    let depth = prefix.depth();
    match look_under(frozen, prefix) {
        Told::Nothing => Ok(None),
        Told::OneKey(key, fields) => Ok(Some(one_key(alloc, key, fields)?)),
        Told::Several if depth == DEPTHS => Ok(Some(keys(alloc, frozen, prefix)?)),
        Told::Several => Ok(Some(branch(alloc, frozen, prefix)?)),
    }
}

/// The bytes of the page of a map at a prefix, or None where no key stands under the prefix. Takes what `page_value` does,
/// and time and memory in the bytes.
/// Its only refusal is OutOfMemory.
pub fn page<H: PathHash, A: Allocator + Copy>(
    alloc: A,
    frozen: &FrozenMap<H, A>,
    prefix: Prefix,
) -> Result<Option<Vec<u8, A>>, Refusal>
    ensures ok { IfOk result (λ bytes. option_map (λ b. b.items) bytes
        ≡ option_map form.spelled (page_at (H.hash_of frozen.now.hash) frozen.now.map prefix)) }
    ensures err { IsOkUnless result Refusal.OutOfMemory }
{
    match page_value(alloc, frozen, prefix)? {
        None => Ok(None),
        Some(page) => {
            let bytes = page.bytes(alloc);
            drop(page);
            Ok(Some(bytes?))
        }
    }
}

// The page of one key.
fn one_key<A: Allocator + Copy>(
    alloc: A,
    key: &Key<A>,
    fields: &Fields<A>,
) -> Result<Page<A>, Refusal>
    ensures ok { IfOk result (λ page. form.value_of page ≡ form.OneKey (named_entry (key.now, fields.now))) }
    ensures err { IsOkUnless result Refusal.OutOfMemory }
{
    let named = named_fields(alloc, fields)?;
    Ok(Page::OneKey(key.copy(alloc)?, named))
}

// The page of the keys under a prefix, of which none is left to a child.
fn keys<H: PathHash, A: Allocator + Copy>(
    alloc: A,
    frozen: &FrozenMap<H, A>,
    prefix: Prefix,
) -> Result<Page<A>, Refusal>
    ensures ok { IfOk result (λ page. form.value_of page ≡ form.Keys (named_entries (walk_under (H.hash_of frozen.now.hash) prefix frozen.now.map))) }
    ensures err { IsOkUnless result Refusal.OutOfMemory }
{
    let mut entries = Vec::new(alloc);
    for (key, fields) in frozen.iter_under(prefix) {
        let named = named_fields(alloc, fields)?;
        entries.push((key.copy(alloc)?, named))?;
    }
    Ok(Page::Keys(entries))
}

// The page of the digests one index further.
fn branch<H: PathHash, A: Allocator + Copy>(
    alloc: A,
    frozen: &FrozenMap<H, A>,
    prefix: Prefix,
) -> Result<Page<A>, Refusal>
    requires { length prefix < 7 }
    ensures ok { IfOk result (λ page. form.value_of page
        ≡ form.Branch (present 0 32 (λ i. digest_at (H.hash_of frozen.now.hash) frozen.now.map (prefix ++ i ∷ [])))) }
    ensures err { IsOkUnless result Refusal.OutOfMemory }
{
    let mut children = Vec::new(alloc);
    for index in 0..32 {
        let digest = child_digest(frozen, prefix, index);
        add_child(&mut children, index, digest)?;
    }
    Ok(Page::Branch(children))
}

// Puts a child behind the others, if it has a digest.
fn add_child<A: Allocator + Copy>(
    children: &mut Vec<(u8, [u8; 32]), A>,
    index: u8,
    digest: Option<[u8; 32]>,
) -> Result<(), Refusal>
    ensures ok { OnOk result (children.new.items ≡ children.old.items ++ one_present index digest []) }
    ensures err { IsOkUnless result Refusal.OutOfMemory }
{
    if let Some(digest) = digest {
        children.push((index, digest))?;
    }
    Ok(())
}

// The digest at the prefix and one index more.
fn child_digest<H: PathHash, A: Allocator + Copy>(
    frozen: &FrozenMap<H, A>,
    prefix: Prefix,
    index: u8,
) -> Option<[u8; 32]>
    requires { length prefix < 7 }
    ensures { result ≡ digest_at (H.hash_of frozen.now.hash) frozen.now.map (prefix ++ index ∷ []) }
{
    let child = prefix.child(u32::from(index))?;
    digest(frozen, child)
}

/// Whether the digest is that of the page: the SHA-256 of its bytes. Takes time in them, and no memory.
pub fn check(page: &[u8], digest: &[u8; 32]) -> bool
    ensures { IsTrue result ↔ (digest.now ≡ sha256 page.now) }
{
    Sha256::digest(page) == *digest
}
