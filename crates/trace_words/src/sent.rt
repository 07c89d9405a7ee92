ghost use Rattle.std.specs.Prelude.{◌≡◌, ◌++◌, ◌∷◌, OnOk, IsOkUnless};
ghost use Rattle.std.specs.Fmt.{decimal};
ghost use Rattle.std.specs.List.{flat_map};
ghost use Rattle.trace_words.specs.Text.{kind_text, message_text, prefix_text};

use crate::kind::Kind;
use dots::Refusal;
use hash_path::Prefix;
use std::alloc::Allocator;

/// Appends a space, the number of a message, a colon and its kind, with the prefix of an ask or a page. A refusal may leave a part of it there.
/// The one refusal is OutOfMemory.
pub fn push_message<A: Allocator + Copy>(
    alloc: A,
    out: &mut Vec<u8, A>,
    number: u64,
    kind: Kind,
) -> Result<(), Refusal>
    ensures ok { OnOk result (out.new.items ≡ out.old.items ++ message_text number kind) }
    ensures err { IsOkUnless result Refusal.OutOfMemory }
{
    let digits: String<A> = format!(in alloc; " {number}:")?;
    out.extend_from_slice(digits.as_bytes())?;
    push_kind(alloc, out, kind)
}

/// Appends the kind.
fn push_kind<A: Allocator + Copy>(alloc: A, out: &mut Vec<u8, A>, kind: Kind) -> Result<(), Refusal>
    ensures ok { OnOk result (out.new.items ≡ out.old.items ++ kind_text kind) }
    ensures err { IsOkUnless result Refusal.OutOfMemory }
{
    match kind {
        Kind::Delta => Ok(out.extend_from_slice(b"delta")?),
        Kind::Hello => Ok(out.extend_from_slice(b"hello")?),
        Kind::Opening => Ok(out.extend_from_slice(b"opening")?),
        Kind::Ask(prefix) => {
            out.extend_from_slice(b"ask")?;
            push_prefix(alloc, out, prefix)
        }
        Kind::Page(prefix) => {
            out.extend_from_slice(b"page")?;
            push_prefix(alloc, out, prefix)
        }
        Kind::Gone => Ok(out.extend_from_slice(b"gone")?),
    }
}

/// Appends the prefix: a slash and the index for each index, and a slash for the root.
fn push_prefix<A: Allocator + Copy>(
    alloc: A,
    out: &mut Vec<u8, A>,
    prefix: Prefix,
) -> Result<(), Refusal>
    ensures ok { OnOk result (out.new.items ≡ out.old.items ++ prefix_text prefix) }
    ensures err { IsOkUnless result Refusal.OutOfMemory }
{
    if prefix.depth() == 0 {
        out.push(b'/')?;
        return Ok(());
    }
    push_indices(alloc, out, prefix)
}

/// Appends a slash and the index for each index.
fn push_indices<A: Allocator + Copy>(
    alloc: A,
    out: &mut Vec<u8, A>,
    prefix: Prefix,
) -> Result<(), Refusal>
    ensures ok { OnOk result (out.new.items ≡ out.old.items ++ flat_map (λ i. 47 ∷ decimal i) prefix) }
    ensures err { IsOkUnless result Refusal.OutOfMemory }
{
    let mut rest = prefix;
    while let Some((index, more)) = rest.split_first() {
        let text: String<A> = format!(in alloc; "/{index}")?;
        out.extend_from_slice(text.as_bytes())?;
        rest = more;
    }
    Ok(())
}
