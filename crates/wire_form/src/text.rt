// Keys, fields and values as parts of messages: texts.
ghost use Rattle.std.specs.Prelude.{◌≡◌, ◌≤◌, length};
ghost use Rattle.wire_form.specs.Parts.{text, IsText};
ghost use Rattle.wire_form.specs.Reading.{Reads};
ghost use Rattle.wire_form.specs.Unique.{text_starts, text_unique};

use crate::append::Append;
use crate::spelled::Spelled;
use dots::{Refusal, Text};
use std::alloc::Allocator;

// The text at the front of the bytes, and the rest of them.
fn text_at(bytes: &[u8]) -> Result<(&[u8], &[u8]), Refusal>
    ensures { Reads (λ r. (r.0.now, r.1.now)) text IsText bytes.now result }
{
    if bytes.len() < 2 {
        return Err(Refusal::NotAMessage);
    }
    let (front, rest) = bytes.split_at(2);
    let length = u16::from_be_bytes([front[0], front[1]]) as usize;
    if rest.len() < length {
        return Err(Refusal::NotAMessage);
    }
    let (text, end) = rest.split_at(length);
    Ok((text, end))
}

impl<K, A: Allocator + Copy> Spelled<A> for Text<K, A> {
    ghost spell = { text };

    ghost fits = { IsText };

    fn read(alloc: A, bytes: &[u8]) -> Result<(Text<K, A>, &[u8]), Refusal> {
        let (text, rest) = text_at(bytes)?;
        let text = Text::new(alloc, text)?;
        Ok((text, rest))
    }

    ghost starts = { text_starts };

    ghost unique = { text_unique };
}

impl<K, A: Allocator + Copy> Append<A> for Text<K, A> {
    fn append_to(&self, out: &mut Vec<u8, A>) -> Result<(), Refusal> {
        let bytes = self.bytes();
        out.extend_from_slice(&(bytes.len() as u16).to_be_bytes())?;
        out.extend_from_slice(bytes)?;
        Ok(())
    }
}
