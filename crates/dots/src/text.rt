ghost use Rattle.std.specs.Prelude.{◌≡◌, ◌<◌, ◌≤◌, ◌↔◌, [], length, refl, IfOk, IfErr, IsErrOf, IsOkUnless, ◌⊎◌};
ghost use Rattle.std.specs.Cmp.{eq_by_cmp_equiv, partial_equiv_from_equiv, partial_order_from_total};
ghost use Rattle.std.specs.Cmp.Lexicographic.{nat_list_cmp_total};
ghost use Rattle.std.specs.Ordering.{eq_by_cmp, as_partial_cmp};
ghost use Rattle.dots.specs.Bytes.{MAX_LENGTH, bytes_cmp};
ghost use Rattle.dots.specs.declared.refusal.Refusal.TheVariants.{OutOfMemory, TooLong};

use crate::printed::print;
use crate::refusal::Refusal;
use crate::store::Store;
use std::alloc::{Allocator, Global};
use std::cmp::Ordering;
use std::fmt;
use std::marker::{Model, PhantomData};

/// A text of 0 to 65,535 bytes, of one of the kinds that a map tells apart: see `Key`, `Field` and `Value`.
/// Equality and order are those of the bytes. Up to 22 bytes take no memory beside the 24 of the text itself.
#[derive(Drop)]
pub struct Text<K, A: Allocator = Global> {
    store: Store<A>,
    kind: PhantomData<K>,
}

impl<K, A: Allocator> Model for Text<K, A> {
    ghost use Rattle.std.specs.Prelude.{List, ℕ, ◌≤◌, length};
    ghost use Rattle.dots.specs.Bytes.{MAX_LENGTH};

    ghost Value = { List ℕ };

    ghost use Rattle.dots.specs.Store.{bytes_in, IsInPlace};

    ghost view = { λ text. bytes_in text.store };

    ghost invariant = { λ text. IsInPlace text.store × (length (bytes_in text.store) ≤ MAX_LENGTH) };
}

impl<K, A: Allocator + Copy> Text<K, A> {
    /// The text of no bytes, as the field is that a write has which names none. Takes no memory.
    pub fn empty() -> Text<K, A>
        ensures { result ≡ [] }
    {
        Text {
            store: Store::Short(0, [0; 22]),
            kind: PhantomData,
        }
    }

    /// The text of these bytes. TooLong exactly past 65,535 bytes, else OutOfMemory or the text. Takes time in
    /// their number, and memory past 22 of them.
    pub fn new(alloc: A, bytes: &[u8]) -> Result<Text<K, A>, Refusal>
        ensures ok { IfOk result (λ text. text ≡ bytes.now) }
        ensures too_long { IsErrOf result Refusal.TooLong ↔ (MAX_LENGTH < length bytes.now) }
        ensures err { IfErr result (λ refusal. (refusal ≡ Refusal.TooLong) ⊎ (refusal ≡ Refusal.OutOfMemory)) }
    {
        if bytes.len() > 65535 {
            return Err(Refusal::TooLong);
        }
        let store = Store::new(alloc, bytes)?;
        Ok(Text {
            store,
            kind: PhantomData,
        })
    }

    /// The same text. What a text has past 22 bytes all its copies share, and its memory goes with the last of them. Takes
    /// constant time and no memory, so the allocator, which each `copy` takes, is asked for none. Its only refusal is
    /// OutOfMemory, where a text is copied more often than its owners can be counted.
    pub fn copy(&self, _alloc: A) -> Result<Text<K, A>, Refusal>
        ensures ok { IfOk result (λ copy. copy ≡ self.now) }
        ensures err { IsOkUnless result Refusal.OutOfMemory }
    {
        Ok(Text {
            store: self.store.try_clone()?,
            kind: PhantomData,
        })
    }
}

impl<K, A: Allocator> Text<K, A> {
    /// The bytes that the text was made of, in order. Copies nothing.
    pub fn bytes(&self) -> &[u8]
        ensures value { result.now ≡ self.now }
        ensures short { length result.now ≤ MAX_LENGTH }
    {
        self.store.as_slice()
    }
}

impl<K, A: Allocator> PartialEq for Text<K, A> {
    ghost eq = { eq_by_cmp bytes_cmp };

    ghost laws = { partial_equiv_from_equiv (eq_by_cmp_equiv nat_list_cmp_total) };

    fn eq(&self, other: &Text<K, A>) -> bool {
        self.cmp(other).is_eq()
    }
}

impl<K, A: Allocator> Eq for Text<K, A> {
    ghost laws = { eq_by_cmp_equiv nat_list_cmp_total };
}

impl<K, A: Allocator> PartialOrd for Text<K, A> {
    ghost partial_cmp = { as_partial_cmp bytes_cmp };

    ghost laws = { partial_order_from_total nat_list_cmp_total };

    fn partial_cmp(&self, other: &Text<K, A>) -> Option<Ordering> {
        Some(self.cmp(other))
    }
}

impl<K, A: Allocator> Ord for Text<K, A> {
    ghost cmp = { bytes_cmp };

    ghost total = { nat_list_cmp_total };

    ghost matches_partial_cmp = { λ x y. refl };

    ghost matches_eq = { λ x y. refl };

    fn cmp(&self, other: &Text<K, A>) -> Ordering {
        self.bytes().cmp(&other.bytes())
    }
}

/// The list of the bytes, in decimal digits, as a slice of them prints itself.
impl<K, A: Allocator> fmt::Debug for Text<K, A> {
    ghost use Rattle.std.specs.Prelude.{Some, decimal};
    ghost use Rattle.std.specs.Fmt.{debug_list};

    ghost debug_output = { λ text. debug_list (λ byte. Some (decimal byte)) text };

    fn fmt<W: fmt::Write>(&self, f: &mut fmt::Formatter<W>) -> fmt::Result {
        let bytes = self.bytes();
        write!(f, "{bytes:?}")
    }
}

/// The text itself, where each byte is a visible one of ASCII and the first is not `#`; any other, also the empty one, as `#` and its
/// bytes in lower-case hexadecimal digits.
impl<K, A: Allocator> fmt::Display for Text<K, A> {
    ghost use Rattle.std.specs.Prelude.{Some};
    ghost use Rattle.dots.specs.Printed.{printed};

    ghost output = { λ text. Some (printed text) };

    fn fmt<W: fmt::Write>(&self, f: &mut fmt::Formatter<W>) -> fmt::Result {
        print(f, self.bytes())
    }
}
