ghost use Rattle.std.specs.Prelude.{◌≡◌, ◌↔◌, IsSome, IfSome};
ghost use Rattle.wire_form.specs.Page.{value_of};
ghost use Rattle.wire_form.specs.Sent.{CanBeSent};

use crate::page::Page;
use crate::standing::{can_carry, can_stand};
use dots::Value;
use hash_path::Prefix;
use std::alloc::{Allocator, Global};
use std::marker::Model;

/// A page as it is sent: for its prefix, and with the values that the replica which asks does not have. The page can stand
/// at the depth of the prefix, and goes with no value where it is a branch.
#[derive(Drop)]
pub struct SentPage<A: Allocator + Copy = Global> {
    prefix: Prefix,
    values: Vec<Value<A>, A>,
    page: Page<A>,
}

impl<A: Allocator + Copy> Model for SentPage<A> {
    ghost use Rattle.wire_form.specs.Page.{value_of};
    ghost use Rattle.wire_form.specs.Sent.{SentValue, CanBeSent};

    ghost Value = { SentValue };

    ghost view = { λ s. record { prefix = s.prefix; values = s.values.items; page = value_of s.page } };

    ghost invariant = { λ s. CanBeSent (record { prefix = s.prefix; values = s.values.items; page = value_of s.page }) };
}

impl<A: Allocator + Copy> SentPage<A> {
    /// The page for this prefix with these values, which are to be those that the page names, in its order: who takes the
    /// page looks at that. None exactly where the page cannot stand at the depth of the prefix, or is a branch and there is
    /// a value. At any depth can stand one key, with a field at least and a dot at each field; at depth 7, two keys or
    /// more, by ascending bytes, each as the one; at a lower depth, a branch of one child or more, by ascending index, each
    /// from 0 to 31, at depth 6 from 0 to 3. Takes no memory, and time in the keys and fields of the page, or in its
    /// children.
    pub fn new(prefix: Prefix, values: Vec<Value<A>, A>, page: Page<A>) -> Option<SentPage<A>>
        ensures lawful { IsSome result ↔ CanBeSent (record { prefix = prefix; values = values.items; page = value_of page }) }
        ensures parts { IfSome result (λ sent. sent ≡
            record { prefix = prefix; values = values.items; page = value_of page }) }
    {
        if !can_stand(prefix, &page) || !can_carry(&page, &values) {
            return None;
        }
        Some(SentPage {
            prefix,
            values,
            page,
        })
    }

    /// The prefix that the page is of.
    pub fn prefix(&self) -> Prefix
        ensures { result ≡ self.now.prefix }
    {
        self.prefix
    }

    /// The values, as they were given. Copies nothing.
    pub fn values(&self) -> &[Value<A>]
        ensures { result.now ≡ self.now.values }
    {
        &self.values
    }

    /// The page, which can be sent for its prefix with its values. Copies nothing.
    pub fn page(&self) -> &Page<A>
        ensures page { value_of result.now ≡ self.now.page }
        ensures lawful { CanBeSent self.now }
    {
        &self.page
    }
}
