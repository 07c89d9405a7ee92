ghost use Rattle.std.specs.Prelude.{◌≡◌};
ghost use Rattle.hash_path.specs.Fan.{Rise};

use crate::feeding::feed_entry;
use causal_join::Fields;
use gen_trie::{Children, Entry, Summary};
use sha2::{Digest, Sha256};
use std::alloc::Allocator;
use std::sync::Arc;

/// The digest of a page: the SHA-256 (FIPS 180-4) of its bytes, which are fed to the hasher piece by piece, so that it takes
/// no memory.
#[derive(Clone, Copy, Debug, PartialEq, Eq)]
pub struct ShaSummary {
    digest: [u8; 32],
}

impl ShaSummary {
    /// The 32 bytes.
    pub fn digest(self) -> [u8; 32]
        ensures { result ≡ self.digest }
    {
        self.digest
    }
}

impl<A: Allocator + Copy> Summary<Fields<A>> for ShaSummary {
    ghost use Rattle.prefix_digest.specs.Summary.{sha_calls};

    ghost calls = { sha_calls };

    fn leaf(key: &[u8], fields: &Fields<A>) -> ShaSummary {
        let mut hasher = Sha256::new_with_prefix([0]);
        feed_entry(&mut hasher, key, fields);
        ShaSummary {
            digest: hasher.finalize(),
        }
    }

    fn list<B: Allocator>(entries: &[Arc<Entry<Fields<A>, B>, B>]) -> ShaSummary {
        let mut hasher = Sha256::new_with_prefix([1]);
        for entry in entries {
            feed_entry(&mut hasher, entry.key().bytes(), entry.value());
        }
        ShaSummary {
            digest: hasher.finalize(),
        }
    }

    fn branch(children: Children<'_, ShaSummary>) -> ShaSummary
        requires { Rise 0 children }
        ensures { result ≡ sha_calls.branch children.entry }
    {
        let mut hasher = Sha256::new_with_prefix([2]);
        for (index, summary) in children {
            hasher.update([(index % 0x100) as u8]);
            hasher.update(summary.digest);
        }
        ShaSummary {
            digest: hasher.finalize(),
        }
    }
}
