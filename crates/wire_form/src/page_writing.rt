// The bytes of a page, part by part.
ghost use Rattle.std.specs.Prelude.{OnOk, IsOkUnless};
ghost use Rattle.wire_form.specs.Page as form;
ghost use Rattle.wire_form.specs.Writing.{Appends};

use crate::append::{Append, append_each};
use crate::page::Page;
use dots::Refusal;
use std::alloc::Allocator;

// Puts the bytes of the page behind those that are there.
pub(crate) fn write_page<A: Allocator + Copy>(
    out: &mut Vec<u8, A>,
    page: &Page<A>,
) -> Result<(), Refusal>
    ensures ok { OnOk result (Appends form.spelled form.ArePartsOf out.old.items out.new.items (form.value_of page.now)) }
    ensures err { IsOkUnless result Refusal.OutOfMemory }
{
    match page {
        Page::OneKey(key, fields) => {
            out.push(0)?;
            key.append_to(out)?;
            fields.append_to(out)
        }
        Page::Keys(entries) => {
            out.push(1)?;
            append_each(out, entries)
        }
        Page::Branch(children) => {
            out.push(2)?;
            append_each(out, children)
        }
    }
}
