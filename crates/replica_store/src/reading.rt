// What the strings of a log tell.
ghost use Rattle.std.specs.Prelude.{◌≡◌, true, false, List, [], ◌∷◌, ◌++◌, ℕ, map, IfOk};
ghost use Rattle.replica_store.specs.Reading.{IsTold};

use crate::entry::{Entry, read_entry};
use crate::store_error::StoreError;
use dots::Name;

// Whether the name was said, and the greatest number.
#[derive(Clone, Copy)]
struct Told {
    is_named: bool,
    number: u64,
}

// The refusal of a log that keeps the replica of this name.
fn other(name: u64) -> StoreError {
    match Name::new(name) {
        Some(name) => StoreError::OtherName(name),
        None => StoreError::NotAReplica,
    }
}

// What is told once this string is read too.
fn told_more(name: u64, told: Told, string: &[u8]) -> Result<Told, StoreError>
    ensures { (strings : List (List ℕ)) → IsTold name strings told.is_named told.number → IfOk result (λ more. IsTold name (strings ++ string.now ∷ []) more.is_named more.number) }
{
    match read_entry(string) {
        Some(Entry::Named(kept)) => {
            if kept != name {
                return Err(other(kept));
            }
            Ok(Told {
                is_named: true,
                number: told.number,
            })
        }
        Some(Entry::Opened(number)) => {
            if number <= told.number {
                return Ok(told);
            }
            Ok(Told {
                is_named: told.is_named,
                number,
            })
        }
        Some(Entry::Changed(_)) => Ok(told),
        None => Err(StoreError::NotAReplica),
    }
}

/// The number of the last own session that the strings tell, where they are those of a replica of this name.
pub fn last_opened(name: Name, strings: &[Vec<u8>]) -> Result<u64, StoreError>
    ensures { IfOk result (λ number. IsTold name (map (λ string. string.items) strings.now) true number) }
{
    let number = name.number();
    let mut told = Told {
        is_named: false,
        number: 0,
    };
    for string in strings {
        told = told_more(number, told, string.as_slice())?;
    }
    if !told.is_named {
        return Err(StoreError::NotAReplica);
    }
    Ok(told.number)
}
