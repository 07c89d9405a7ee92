ghost use Rattle.std.specs.Prelude.{◌≡◌, IfOk, IsOkUnless};
ghost use Rattle.wire_form.specs.Page.{spelled, value_of};

use crate::page_writing::write_page;
use dot_store::DotFun;
use dots::{Field, Key, Refusal};
use ordered_list::OrderedList;
use std::alloc::{Allocator, Global};

/// The dots of a field, each with the name of its value: the value's SHA-256 (FIPS 180-4).
pub type Names<A = Global> = DotFun<[u8; 32], A>;

/// The fields of a key, each with its dots and the names of their values.
pub type NamedFields<A = Global> = OrderedList<Field<A>, Names<A>, A>;

/// What a map tells of itself at a prefix of hash paths: all of one key, or of the keys of one hash, and else a digest for
/// each child. A value is told by its name alone.
#[derive(Drop)]
pub enum Page<A: Allocator + Copy = Global> {
    /// One key with its fields.
    OneKey(Key<A>, NamedFields<A>),
    /// Keys with one hash, by ascending key, each with its fields.
    Keys(Vec<(Key<A>, NamedFields<A>), A>),
    /// The children that have keys, by ascending index, each with the digest of its page.
    Branch(Vec<(u8, [u8; 32]), A>),
}

impl<A: Allocator + Copy> Page<A> {
    /// The bytes of the page, of which its digest is the SHA-256. Takes time and memory in their number.
    /// Its only refusal is OutOfMemory.
    pub fn bytes(&self, alloc: A) -> Result<Vec<u8, A>, Refusal>
        ensures ok { IfOk result (λ bytes. bytes.items ≡ spelled (value_of self.now)) }
        ensures err { IsOkUnless result Refusal.OutOfMemory }
    {
        let mut out = Vec::new(alloc);
        write_page(&mut out, self)?;
        Ok(out)
    }
}
