ghost use Rattle.std.specs.Prelude.{◌≡◌, map};

use crate::children::Children;
use crate::entry::Entry;
use std::alloc::Allocator;
use std::sync::Arc;

/// What is told of the entries under a prefix of a trie, as a digest or a count. It is made by three calls, each by law a
/// function of its arguments' values; so equal maps have equal summaries. None of the three can be refused, so none is to
/// take memory.
pub trait Summary<V>: Copy + Drop {
    ghost use Rattle.hash_path.specs.Fan.{Rise};
    ghost use Rattle.hash_path.specs.Summary.{SummaryCalls};

    ghost calls: { SummaryCalls V Self };

    /// The summary of one key alone, at any prefix. Called for each key that stands alone in a branch whenever that of
    /// the branch is made.
    fn leaf(key: &[u8], value: &V) -> Self
        ensures { result ≡ calls.leaf key.now value.now };

    /// The summary of two keys or more with equal hashes, by ascending key bytes.
    fn list<A: Allocator>(entries: &[Arc<Entry<V, A>, A>]) -> Self
        ensures { result ≡ calls.list (map (λ entry. (entry.value.key, entry.value.value)) entries.now) };

    /// The summary of a branch, of the summaries of its children by ascending index, which is below 32.
    fn branch(children: Children<'_, Self>) -> Self
        requires { Rise 0 children }
        ensures { result ≡ calls.branch children.entry };
}
