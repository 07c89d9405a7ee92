ghost use Rattle.std.specs.Prelude.{◌≡◌};
ghost use Rattle.std.specs.Option.{option_copied};
ghost use Rattle.ginelm_c.specs.Texts.{addressee_at, alone_at, bytes_at, count_in, number_or_zero};

use dots::{Field, Key, Name, Value};
use replica_core::Letter;

/// What a call gave that gives texts, which are then read one by one.
#[derive(Drop)]
pub enum Texts {
    /// Nothing was asked for yet.
    Nothing,
    /// The values at a key or a field.
    Values(Vec<Value>),
    /// The keys of the map.
    Keys(Vec<Key>),
    /// The fields of a key.
    Fields(Vec<Field>),
    /// The letter that a flush or an ask sends, if there is one.
    Sent(Option<Letter>),
    /// The letters that are to be sent for a message that came, or again.
    Letters(Vec<Letter>),
    /// What a replica is to come back from.
    Saved(Vec<u8>),
}

impl Texts {
    // How many there are.
    pub(crate) fn count(&self) -> usize
        ensures { result ≡ count_in self.now }
    {
        match self {
            Texts::Nothing => 0,
            Texts::Values(values) => values.len(),
            Texts::Keys(keys) => keys.len(),
            Texts::Fields(fields) => fields.len(),
            Texts::Sent(None) => 0,
            Texts::Sent(Some(_)) => 1,
            Texts::Letters(letters) => letters.len(),
            Texts::Saved(_) => 1,
        }
    }

    // The bytes of the text at this place.
    pub(crate) fn bytes(&self, at: usize) -> Option<&[u8]>
        ensures { option_copied result ≡ bytes_at self.now at }
    {
        match self {
            Texts::Nothing => None,
            Texts::Values(values) => Some(values.get(at)?.bytes()),
            Texts::Keys(keys) => Some(keys.get(at)?.bytes()),
            Texts::Fields(fields) => Some(fields.get(at)?.bytes()),
            Texts::Sent(letter) => bytes_alone(letter, at),
            Texts::Letters(letters) => Some(letters.get(at)?.bytes.as_slice()),
            Texts::Saved(bytes) if at == 0 => Some(bytes.as_slice()),
            Texts::Saved(_) => None,
        }
    }

    // The number of the name of the replica that the text at this place is for, or 0 where it is for none.
    pub(crate) fn addressee(&self, at: usize) -> u64
        ensures { result ≡ addressee_at self.now at }
    {
        match self {
            Texts::Sent(Some(letter)) => number_of(letter.to),
            Texts::Letters(letters) => match letters.get(at) {
                Some(letter) => number_of(letter.to),
                None => 0,
            },
            _ => 0,
        }
    }
}

// The bytes of what is alone, where this is its place.
fn bytes_alone(letter: &Option<Letter>, at: usize) -> Option<&[u8]>
    ensures { option_copied result ≡ alone_at letter.now at }
{
    match letter {
        Some(letter) if at == 0 => Some(letter.bytes.as_slice()),
        _ => None,
    }
}

// The number of a name, or 0 where there is none.
pub(crate) fn number_of(to: Option<Name>) -> u64
    ensures { result ≡ number_or_zero to }
{
    match to {
        Some(name) => name.number(),
        None => 0,
    }
}
