ghost use Rattle.std.specs.Prelude.{◌≡◌, ◌%◌, ◌^◌};
ghost use Rattle.hash_path.specs.PathLaws.{low_bits};

use crate::path_hash::PathHash;

/// Gives its number for every key, and 0 by default. With it all keys stand in one list: the worst case of a hash, where
/// a look-up takes time in all of them.
#[derive(Clone, Copy, Default, Debug, PartialEq, Eq)]
pub struct SameHash(pub u32);

impl PathHash for SameHash {
    ghost hash_of = { λ hash key. hash.0 % 2 ^ 32 };

    ghost bounded = { λ hash key. low_bits hash.0 };

    fn hash(&self, _key: &[u8]) -> u32 {
        self.0
    }
}
