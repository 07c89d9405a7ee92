ghost use Rattle.std.specs.Prelude.{◌≡◌, ◌↔◌, ◌⊎◌, IsTrue, IsErrOf, IfErr, OnOk, OnErr};
ghost use Rattle.ctrie_api.specs.Write.{map_after};

use crate::ctrie::Ctrie;
use dots::{Key, Refusal};
use gen_trie::Summary;
use hash_path::PathHash;
use std::alloc::Allocator;

// A write at one trie.
#[derive(Drop)]
pub(crate) enum Write<V, A: Allocator> {
    // A value put at a key.
    Insert(Key<A>, V),
    // A key taken out.
    Remove(Key<A>),
    // All keys taken out.
    Clear,
}

impl<V: Drop, A: Allocator + Copy> Write<V, A> {
    // Carries the write out.
    pub(crate) fn carry_out<H: PathHash, M: Summary<V>>(
        self,
        trie: &mut Ctrie<V, H, M, A>,
    ) -> Result<(), Refusal>
        ensures read_only { IsErrOf result Refusal.ReadOnly ↔ IsTrue trie.old.read_only }
        ensures ok { OnOk result (trie.new ≡ record trie.old { map = map_after self trie.old.map }) }
        ensures same { OnErr result (trie.new ≡ trie.old) }
        ensures err { IfErr result (λ refusal. (refusal ≡ Refusal.ReadOnly) ⊎ (refusal ≡ Refusal.OutOfMemory)) }
    {
        match self {
            Write::Insert(key, value) => trie.insert(key, value),
            Write::Remove(key) => match trie.remove(&key) {
                Ok(_) => Ok(()),
                Err(refusal) => Err(refusal),
            },
            Write::Clear => trie.clear(),
        }
    }
}
