// Which pages can be sent for a prefix.
ghost use Rattle.std.specs.Prelude.{◌↔◌, ◌≤◌, length, IsTrue};
ghost use Rattle.std.specs.List.{AllByRecursion};
ghost use Rattle.wire_form.specs.Page.{value_of, Keys, Branch};
ghost use Rattle.wire_form.specs.Sent.{IsFilled, CanStand, CanCarry};

use crate::page::{NamedFields, Names, Page};
use dots::{Field, Key, Value};
use hash_path::{DEPTHS, Prefix};
use ordered_list::is_ascending;
use std::alloc::Allocator;

// Whether the page can stand at the depth of the prefix.
pub(crate) fn can_stand<A: Allocator + Copy>(prefix: Prefix, page: &Page<A>) -> bool
    ensures { IsTrue result ↔ CanStand (length prefix) (value_of page.now) }
{
    match page {
        Page::OneKey(_, fields) => is_filled(fields),
        Page::Keys(entries) => are_keys(prefix, entries),
        Page::Branch(children) => are_children(prefix, children),
    }
}

// Whether these values can go with the page.
pub(crate) fn can_carry<A: Allocator + Copy>(page: &Page<A>, values: &[Value<A>]) -> bool
    ensures { IsTrue result ↔ CanCarry (value_of page.now) values.now }
{
    match page {
        Page::OneKey(..) => true,
        Page::Keys(_) => true,
        Page::Branch(_) => values.is_empty(),
    }
}

fn are_keys<A: Allocator + Copy>(prefix: Prefix, entries: &[(Key<A>, NamedFields<A>)]) -> bool
    ensures { IsTrue result ↔ CanStand (length prefix) (Keys entries.now) }
{
    if prefix.depth() != DEPTHS || entries.len() < 2 {
        return false;
    }
    are_filled(entries) && is_ascending(entries)
}

fn are_children(prefix: Prefix, children: &[(u8, [u8; 32])]) -> bool
    ensures { IsTrue result ↔ CanStand (length prefix) (Branch children.now) }
{
    let Some(last) = prefix.last_child() else {
        return false;
    };
    if children.is_empty() {
        return false;
    }
    have_indices(last, children) && is_ascending(children)
}

fn are_filled<A: Allocator + Copy>(entries: &[(Key<A>, NamedFields<A>)]) -> bool
    ensures { IsTrue result ↔ AllByRecursion (λ e. IsFilled e.1) entries.now }
{
    for (_, fields) in entries {
        if !is_filled(fields) {
            return false;
        }
    }
    true
}

fn is_filled<A: Allocator + Copy>(fields: &NamedFields<A>) -> bool
    ensures { IsTrue result ↔ IsFilled fields.now }
{
    let entries = fields.entries();
    if entries.is_empty() {
        return false;
    }
    have_dots(entries)
}

fn have_dots<A: Allocator + Copy>(entries: &[(Field<A>, Names<A>)]) -> bool
    ensures { IsTrue result ↔ AllByRecursion (λ f. 1 ≤ length f.1) entries.now }
{
    for (_, names) in entries {
        if !has_dot(names) {
            return false;
        }
    }
    true
}

fn has_dot<A: Allocator + Copy>(names: &Names<A>) -> bool
    ensures { IsTrue result ↔ (1 ≤ length names.now) }
{
    !names.entries().is_empty()
}

// Whether no index is above the last.
fn have_indices(last: u32, children: &[(u8, [u8; 32])]) -> bool
    ensures { IsTrue result ↔ AllByRecursion (λ c. c.0 ≤ last) children.now }
{
    for (index, _) in children {
        if u32::from(*index) > last {
            return false;
        }
    }
    true
}
