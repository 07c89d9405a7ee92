// The prefixes that have to be asked for once a page was taken.
ghost use Rattle.std.specs.Prelude.{◌≡◌, ◌++◌, ◌∷◌, [], map, IfOk, IsOkUnless};
ghost use Rattle.std.specs.List.{AllByRecursion};
ghost use Rattle.page_fetching.specs.Taking.{IsChildOf};

use dots::Refusal;
use hash_path::Prefix;
use std::alloc::Allocator;

// The prefixes of these children.
pub(crate) fn asks_of<A: Allocator + Copy>(
    alloc: A,
    prefix: Prefix,
    children: &[(u8, [u8; 32])],
) -> Result<Vec<Prefix, A>, Refusal>
    requires { AllByRecursion (λ c. IsChildOf prefix c.0) children.now }
    ensures ok { IfOk result (λ asks. asks.items ≡ map (λ c. prefix ++ c.0 ∷ []) children.now) }
    ensures err { IsOkUnless result Refusal.OutOfMemory }
{
    let mut asks = Vec::with_capacity(alloc, children.len())?;
    for child in children {
        let Some(at) = prefix.child(u32::from(child.0)) else {
            unreachable!()
        };
        asks.push(at)?;
    }
    Ok(asks)
}
