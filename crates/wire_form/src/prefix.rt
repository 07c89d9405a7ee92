// Prefixes of hash paths as parts of messages.
ghost use Rattle.std.specs.Prelude.{◌≡◌, ◌⊎◌, ◌<◌, [], ◌∷◌, ◌++◌, length, OnOk, IsOkUnless, MatchOption};
ghost use Rattle.hash_path.specs.Path.{last_index};
ghost use Rattle.wire_form.specs.Prefix as form;
ghost use Rattle.wire_form.specs.Spelling.{IsWhole};
ghost use Rattle.wire_form.specs.Reading.{Reads, ReadsAll};
ghost use Rattle.wire_form.specs.Writing.{Appends};

use dots::Refusal;
use hash_path::Prefix;
use std::alloc::Allocator;

// The prefix at the front of the bytes, and the rest of them.
pub(crate) fn read_prefix(bytes: &[u8]) -> Result<(Prefix, &[u8]), Refusal>
    ensures { Reads (λ r. (r.0, r.1.now)) form.prefix form.IsPrefix bytes.now result }
{
    match bytes {
        [depth, rest @ ..] => read_indices(*depth, rest),
        [] => Err(Refusal::NotAMessage),
    }
}

// The prefix of so many indices, one byte each.
fn read_indices(depth: u8, bytes: &[u8]) -> Result<(Prefix, &[u8]), Refusal>
    ensures { Reads (λ r. (r.0, r.1.now)) (λ path. path) (λ path. form.IsPrefix path × (length path ≡ depth)) bytes.now result }
{
    let mut prefix = Prefix::root();
    let mut rest = bytes;
    while prefix.depth() < u32::from(depth) {
        let Some(longer) = read_index(prefix, rest) else {
            return Err(Refusal::NotAMessage);
        };
        prefix = longer.0;
        rest = longer.1;
    }
    Ok((prefix, rest))
}

// The prefix and one index more, which is the first of the bytes, and the rest of them.
fn read_index(prefix: Prefix, bytes: &[u8]) -> Option<(Prefix, &[u8])>
    ensures { MatchOption result
        ((index : _) (rest : _) → bytes.now ≡ index ∷ rest → (length prefix ≡ 7) ⊎ (last_index (length prefix) < index))
        (λ r. form.IsOneLonger prefix bytes.now r.0 r.1.now) }
{
    let (index, rest) = bytes.split_first()?;
    let child = prefix.child(u32::from(*index))?;
    Some((child, rest))
}

// The prefix that all the bytes spell.
pub(crate) fn read_whole_prefix(bytes: &[u8]) -> Result<Prefix, Refusal>
    ensures { ReadsAll (λ path. path) (IsWhole form.prefix form.IsPrefix bytes.now) result }
{
    match read_prefix(bytes) {
        Ok(front) => {
            if !front.1.is_empty() {
                return Err(Refusal::NotAMessage);
            }
            Ok(front.0)
        }
        Err(refusal) => Err(refusal),
    }
}

pub(crate) fn write_prefix<A: Allocator + Copy>(
    out: &mut Vec<u8, A>,
    prefix: Prefix,
) -> Result<(), Refusal>
    ensures ok { OnOk result (Appends form.prefix form.IsPrefix out.old.items out.new.items prefix) }
    ensures err { IsOkUnless result Refusal.OutOfMemory }
{
    out.push(prefix.depth() as u8)?;
    write_indices(out, prefix)
}

// The indices, one byte each.
fn write_indices<A: Allocator + Copy>(out: &mut Vec<u8, A>, prefix: Prefix) -> Result<(), Refusal>
    ensures ok { OnOk result (out.new.items ≡ out.old.items ++ prefix) }
    ensures err { IsOkUnless result Refusal.OutOfMemory }
{
    let mut rest = prefix;
    while let Some(first) = rest.split_first() {
        out.push(first.0 as u8)?;
        rest = first.1;
    }
    Ok(())
}
