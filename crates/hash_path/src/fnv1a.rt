ghost use Rattle.std.specs.Prelude.{◌≡◌};
ghost use Rattle.hash_path.specs.Fnv1a.{fnv1a};
ghost use Rattle.hash_path.specs.PathLaws.{fnv1a_bounded};

use crate::path_hash::PathHash;

// The value that the hash of no bytes has, and what each step multiplies by.
const OFFSET_BASIS: u32 = 0x811c_9dc5;

const PRIME: u32 = 0x0100_0193;

/// FNV-1a of 32 bits, after the description of Fowler, Noll and Vo. It is no defence against keys that were chosen
/// to meet.
#[derive(Clone, Copy, Default, Debug, PartialEq, Eq)]
pub struct Fnv1a;

impl PathHash for Fnv1a {
    ghost hash_of = { λ _ key. fnv1a key };

    ghost bounded = { λ _ key. fnv1a_bounded key };

    fn hash(&self, key: &[u8]) -> u32 {
        digest(key)
    }
}

// The hash of these bytes.
fn digest(bytes: &[u8]) -> u32
    ensures { result ≡ fnv1a bytes.now }
{
    let mut hash = OFFSET_BASIS;
    for byte in bytes {
        hash = (hash ^ u32::from(*byte)).wrapping_mul(PRIME);
    }
    hash
}
