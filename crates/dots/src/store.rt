ghost use Rattle.std.specs.Prelude.{◌≡◌, IfOk, IsOkUnless};
ghost use Rattle.dots.specs.Store.{bytes_in, IsInPlace};
ghost use Rattle.dots.specs.declared.refusal.Refusal.TheVariants.{OutOfMemory};

use crate::refusal::Refusal;
use std::alloc::Allocator;
use std::sync::Arc;

// The bytes of a text: up to 22 stand in place, and more in memory that all copies of the text share, as no text ever
// changes. It has 24 bytes in all, which is why the vector stands behind the count of its owners.
#[derive(Drop)]
pub(crate) enum Store<A: Allocator> {
    // How many bytes there are, and those bytes with zeros after them.
    Short(u8, [u8; 22]),
    Long(Arc<Vec<u8, A>, A>),
}

impl<A: Allocator + Copy> Store<A> {
    pub fn new(alloc: A, bytes: &[u8]) -> Result<Store<A>, Refusal>
        ensures bytes { IfOk result (λ store. bytes_in store ≡ bytes.now) }
        ensures in_place { IfOk result IsInPlace }
        ensures err { IsOkUnless result Refusal.OutOfMemory }
    {
        let count = bytes.len();
        if count > 22 {
            let bytes = Vec::from_slice(alloc, bytes)?;
            return Ok(Store::Long(Arc::new(alloc, bytes)?));
        }
        let mut short = [0; 22];
        short[..count].copy_from_slice(bytes);
        Ok(Store::Short(count as u8, short))
    }
}

impl<A: Allocator> Store<A> {
    pub fn as_slice(&self) -> &[u8]
        requires { IsInPlace self.now }
        ensures { result.now ≡ bytes_in self.now }
    {
        match self {
            Store::Short(count, bytes) => &bytes[..*count as usize],
            Store::Long(bytes) => bytes.as_slice(),
        }
    }

    // The same bytes once more. Takes constant time and no memory: an OutOfMemory is a count of owners that is full.
    pub fn try_clone(&self) -> Result<Store<A>, Refusal>
        requires { IsInPlace self.now }
        ensures bytes { IfOk result (λ store. bytes_in store ≡ bytes_in self.now) }
        ensures in_place { IfOk result IsInPlace }
        ensures err { IsOkUnless result Refusal.OutOfMemory }
    {
        match self {
            Store::Short(count, bytes) => Ok(Store::Short(*count, *bytes)),
            Store::Long(bytes) => Ok(Store::Long(Arc::try_clone(bytes)?)),
        }
    }
}
