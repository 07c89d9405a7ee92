ghost use Rattle.std.specs.Prelude.{◌≡◌, ◌<◌, ◌^◌, ℕ, List};

/// A hash of 32 bits of a key's bytes, whose bits are the key's path through the trie. By law it is a function of
/// the bytes: two calls at one hash and equal keys answer the same.
pub trait PathHash: Copy + Default {
    ghost hash_of: { Self → List ℕ → ℕ };

    ghost bounded: { (hash : Self) (key : List ℕ) → hash_of hash key < 2 ^ 32 };

    /// The hash of these bytes. Takes no memory. A trie calls it once for each look-up and each write of a key.
    fn hash(&self, key: &[u8]) -> u32
        ensures { result ≡ hash_of self.now key.now };
}
