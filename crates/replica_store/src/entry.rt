// The strings that keep a replica.
ghost use Rattle.std.specs.Prelude.{◌≡◌, ◌∷◌, length, IfOk, IfSome};
ghost use Rattle.std.specs.Int.{w64, from_be_bytes};
ghost use Rattle.replica_store.specs.Entry.{NAMED, OPENED, CHANGED, SaysNumber, SaysRead};

use dots::Name;
use std::alloc::{AllocError, Global};

const NAMED: u8 = b'N';

const OPENED: u8 = b'O';

const CHANGED: u8 = b'D';

/// What a string says.
#[derive(Clone, Copy)]
pub enum Entry<'a> {
    Named(u64),
    Opened(u64),
    Changed(&'a [u8]),
}

fn of_number(alloc: Global, kind: u8, number: u64) -> Result<Vec<u8>, AllocError>
    ensures { IfOk result (λ string. SaysNumber kind string.items number) }
{
    let mut string = Vec::with_capacity(alloc, 9)?;
    string.push(kind)?;
    string.extend_from_slice(&number.to_be_bytes())?;
    Ok(string)
}

/// The string that says the name.
pub fn named(alloc: Global, name: Name) -> Result<Vec<u8>, AllocError>
    ensures { IfOk result (λ string. SaysNumber NAMED string.items name) }
{
    of_number(alloc, NAMED, name.number())
}

/// The string that says the number of an own session.
pub fn opened(alloc: Global, number: u64) -> Result<Vec<u8>, AllocError>
    ensures { IfOk result (λ string. SaysNumber OPENED string.items number) }
{
    of_number(alloc, OPENED, number)
}

/// The string that says the delta of these bytes.
pub fn changed(alloc: Global, delta: &[u8]) -> Result<Vec<u8>, AllocError>
    ensures { IfOk result (λ string. string.items ≡ CHANGED ∷ delta.now) }
{
    let mut string = Vec::with_capacity(alloc, delta.len().saturating_add(1))?;
    string.push(CHANGED)?;
    string.extend_from_slice(delta)?;
    Ok(string)
}

/// The number that these eight bytes spell.
fn number_in(bytes: &[u8]) -> Option<u64>
    ensures { IfSome result (λ number. (length bytes.now ≡ 8) × (from_be_bytes w64 bytes.now ≡ number)) }
{
    if bytes.len() != 8 {
        return None;
    }
    Some(u64::from_be_bytes([
        bytes[0], bytes[1], bytes[2], bytes[3], bytes[4], bytes[5], bytes[6], bytes[7],
    ]))
}

/// What the string says, or None where its kind is none of the three or a number has not eight bytes.
pub fn read_entry(string: &[u8]) -> Option<Entry<'_>>
    ensures { IfSome result (SaysRead string.now) }
{
    let (kind, bytes) = string.split_first()?;
    match *kind {
        NAMED => Some(Entry::Named(number_in(bytes)?)),
        OPENED => Some(Entry::Opened(number_in(bytes)?)),
        CHANGED => Some(Entry::Changed(bytes)),
        _ => None,
    }
}
