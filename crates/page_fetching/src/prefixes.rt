// The prefixes that an asker waits for, in ascending order.
ghost use Rattle.std.specs.Prelude.{◌≡◌, ◌≤◌, map, length, IfOk, IsOkUnless};
ghost use Rattle.std.specs.FinMap as finite;
ghost use Rattle.hash_path.specs.Path.{AreIndices};
ghost use Rattle.page_fetching.specs.Taking.{ArePrefixes};

use crate::fetching::Fetching;
use crate::waiting::Waiting;
use dots::Refusal;
use hash_path::{PathHash, Prefix};
use std::alloc::Allocator;
use std::collections::BTreeSet;

// The prefix of these indices, one byte each.
fn prefix_of(bytes: &[u8]) -> Prefix
    requires indices { AreIndices 0 bytes.now }
    requires short { length bytes.now ≤ 7 }
    ensures { result ≡ bytes.now }
{
    let mut prefix = Prefix::root();
    let mut left = bytes;
    while let Some((first, rest)) = left.split_first() {
        let Some(child) = prefix.child(u32::from(*first)) else {
            unreachable!()
        };
        prefix = child;
        left = rest;
    }
    prefix
}

// The prefixes that are waited for, as a set, which puts them in order: they are walked in the order of their hashes.
fn set_of<H: PathHash, A: Allocator + Copy>(
    alloc: A,
    waiting: &Waiting<H, A>,
) -> Result<BTreeSet<Prefix, A>, Refusal>
    requires { ArePrefixes waiting.now.map }
    ensures ok { IfOk result (λ prefixes. prefixes.keys ≡ map (λ e. e.0) (finite.entries waiting.now.map)) }
    ensures err { IsOkUnless result Refusal.OutOfMemory }
{
    let mut prefixes = BTreeSet::new(alloc);
    for (key, _) in waiting.iter() {
        let prefix = prefix_of(key.bytes());
        prefixes.insert(prefix)?;
    }
    Ok(prefixes)
}

// The members of a set of prefixes, in its order.
fn listed<A: Allocator + Copy>(
    alloc: A,
    prefixes: &BTreeSet<Prefix, A>,
) -> Result<Vec<Prefix, A>, Refusal>
    ensures ok { IfOk result (λ list. list.items ≡ prefixes.now.keys) }
    ensures err { IsOkUnless result Refusal.OutOfMemory }
{
    let mut list = Vec::with_capacity(alloc, prefixes.len())?;
    for prefix in prefixes {
        list.push(*prefix)?;
    }
    Ok(list)
}

impl<H: PathHash, A: Allocator + Copy> Fetching<H, A> {
    /// The prefixes that are waited for, in ascending order: index by index, a shorter prefix first. Takes time in their number, times its
    /// logarithm, and memory in their number.
    /// Its only refusal is OutOfMemory.
    pub fn prefixes(&self, alloc: A) -> Result<Vec<Prefix, A>, Refusal>
        ensures ok { IfOk result (λ prefixes. prefixes.items ≡ map (λ e. e.0) (finite.entries self.now.waiting)) }
        ensures err { IsOkUnless result Refusal.OutOfMemory }
    {
        let prefixes = set_of(alloc, self.waiting())?;
        listed(alloc, &prefixes)
    }
}
