ghost use Rattle.std.specs.Prelude.{◌≡◌, true, ◌≤◌, ◌<◌, ◌++◌, map, IfOk, OnOk, IsOkUnless, ◌==◌};
ghost use Rattle.std.specs.Option.{option_map};
ghost use Rattle.std.specs.List.{list_all};
ghost use Rattle.std.specs.Char.{is_ascii_digit};
ghost use Rattle.dots.specs.Printed.{is_visible, is_plain};
ghost use Rattle.trace_words.specs.Word.{words_of, numeral_value, text_of, shown_as, is_numeral};

use dots::{Name, Refusal};
use hex::FromHexError;
use std::alloc::{AllocError, Allocator};

/// The words of a line, which stand between its spaces.
pub(crate) fn words<'a, A: Allocator + Copy>(
    alloc: A,
    line: &'a [u8],
) -> Result<Vec<&'a [u8], A>, AllocError>
    ensures { IfOk result (λ words. map (λ word. word.now) words.items ≡ words_of line.now) }
{
    line.split(|byte| *byte == b' ').collect(alloc)
}

fn is_all_digits(bytes: &[u8]) -> bool
    ensures { result ≡ list_all is_ascii_digit bytes.now }
{
    bytes.iter().all(|byte| byte.is_ascii_digit())
}

/// Whether a word is decimal digits, of which the first is not 0.
fn is_numeral(word: &[u8]) -> bool
    ensures { result ≡ is_numeral word.now }
{
    match word {
        [] | [b'0', ..] => false,
        _ => is_all_digits(word),
    }
}

/// What a numeral stands for, where that is below 2^64.
fn value(word: &[u8]) -> Option<u64>
    requires { is_numeral word.now ≡ true }
    ensures { result ≡ numeral_value word.now }
{
    str::from_utf8(word).ok()?.parse().ok()
}

/// The number that a word is, from 1 to 2^64 - 1 in decimal digits without a leading zero.
pub(crate) fn number(word: &[u8]) -> Option<u64>
    ensures { result ≡ numeral_value word.now }
{
    if is_numeral(word) { value(word) } else { None }
}

/// The name that a word is.
pub(crate) fn name(word: &[u8]) -> Option<Name>
    ensures { result ≡ numeral_value word.now }
{
    Name::new(number(word)?)
}

fn is_all_visible(bytes: &[u8]) -> bool
    ensures { result ≡ list_all is_visible bytes.now }
{
    bytes.iter().all(|byte| (0x21..=0x7e).contains(byte))
}

/// The bytes that a text word stands for: itself, or after `#` the bytes of its hexadecimal digits.
pub(crate) fn text<A: Allocator + Copy>(
    alloc: A,
    word: &[u8],
) -> Result<Option<Vec<u8, A>>, Refusal>
    ensures ok { IfOk result (λ found. option_map (λ bytes. bytes.items) found ≡ text_of word.now) }
    ensures err { IsOkUnless result Refusal.OutOfMemory }
{
    match word {
        [] => Ok(None),
        [b'#', digits @ ..] => match hex::decode(alloc, digits) {
            Ok(bytes) => Ok(Some(bytes)),
            Err(FromHexError::OutOfMemory) => Err(Refusal::OutOfMemory),
            Err(_) => Ok(None),
        },
        _ if is_all_visible(word) => Ok(Some(Vec::from_slice(alloc, word)?)),
        _ => Ok(None),
    }
}

fn is_plain(bytes: &[u8]) -> bool
    ensures { result ≡ is_plain bytes.now }
{
    match bytes {
        [] | [b'#', ..] => false,
        _ => is_all_visible(bytes),
    }
}

/// Appends the word that shows these bytes. A refusal may leave a part of it there.
pub(crate) fn push_text<A: Allocator + Copy>(
    alloc: A,
    out: &mut Vec<u8, A>,
    bytes: &[u8],
) -> Result<(), Refusal>
    ensures ok { OnOk result (out.new.items ≡ out.old.items ++ shown_as bytes.now) }
    ensures err { IsOkUnless result Refusal.OutOfMemory }
{
    if is_plain(bytes) {
        out.extend_from_slice(bytes)?;
        return Ok(());
    }
    let digits = hex::encode(alloc, bytes)?;
    out.push(b'#')?;
    out.extend_from_slice(digits.as_bytes())?;
    Ok(())
}
