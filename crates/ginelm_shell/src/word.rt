// The words of a line.
use crate::fault::Fault;
use ginelm::{Field, Key, Name, Refusal, Value};
use std::alloc::{AllocError, Global};

/// The words of a line, which stand between its blanks.
pub(crate) fn words(alloc: Global, line: &[u8]) -> Result<Vec<&[u8]>, AllocError> {
    line.split(|byte| byte.is_ascii_whitespace())
        .filter(|word| !word.is_empty())
        .collect(alloc)
}

/// The number that a word is, in decimal digits.
pub(crate) fn number(word: &[u8]) -> Option<u64> {
    str::from_utf8(word).ok()?.parse().ok()
}

/// The name that a word is.
pub(crate) fn name(word: &[u8]) -> Option<Name> {
    Name::new(number(word)?)
}

/// The bytes that a word stands for: itself, or after `#` those of its hexadecimal digits.
fn text(alloc: Global, word: &[u8]) -> Result<Vec<u8>, Fault> {
    match word {
        [b'#', digits @ ..] => hex(alloc, digits),
        _ => Ok(Vec::from_slice(alloc, word)?),
    }
}

/// The bytes that these hexadecimal digits stand for.
pub(crate) fn hex(alloc: Global, digits: &[u8]) -> Result<Vec<u8>, Fault> {
    match hex::decode(alloc, digits) {
        Ok(bytes) => Ok(bytes),
        Err(hex::FromHexError::OutOfMemory) => Err(Fault::Refused(Refusal::OutOfMemory)),
        Err(_) => Err(Fault::Words),
    }
}

pub(crate) fn key(alloc: Global, word: &[u8]) -> Result<Key, Fault> {
    let bytes = text(alloc, word)?;
    Ok(Key::new(alloc, &bytes)?)
}

pub(crate) fn field(alloc: Global, word: &[u8]) -> Result<Field, Fault> {
    let bytes = text(alloc, word)?;
    Ok(Field::new(alloc, &bytes)?)
}

pub(crate) fn value(alloc: Global, word: &[u8]) -> Result<Value, Fault> {
    let bytes = text(alloc, word)?;
    Ok(Value::new(alloc, &bytes)?)
}
