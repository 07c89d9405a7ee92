ghost use Rattle.std.specs.Prelude.{◌≡◌};
ghost use Rattle.hash_path.specs.Fan.{Rise};

use crate::children::Children;
use crate::entry::Entry;
use crate::summary::Summary;
use std::alloc::Allocator;
use std::sync::Arc;

/// No summary: it tells nothing of the entries but that there are some.
#[derive(Clone, Copy, Default, Debug, PartialEq, Eq)]
pub struct NoSummary;

impl<V> Summary<V> for NoSummary {
    ghost calls = { record { leaf = λ key value. record {}; list = λ entries. record {}; branch = λ children. record {} } };

    fn leaf(_key: &[u8], _value: &V) -> NoSummary {
        NoSummary
    }

    fn list<A: Allocator>(_entries: &[Arc<Entry<V, A>, A>]) -> NoSummary {
        NoSummary
    }

    fn branch(_children: Children<'_, NoSummary>) -> NoSummary
        requires { Rise 0 _children }
        ensures { result ≡ record {} }
    {
        NoSummary
    }
}
