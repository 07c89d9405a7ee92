// The parts of pages, fed to a hasher piece by piece from the entries of a map.
ghost use Rattle.std.specs.Prelude.{◌≡◌};
ghost use Rattle.wire_form.specs.Spelling.{number};
ghost use Rattle.wire_form.specs.Parts as part;
ghost use Rattle.wire_form.specs.Page as form;
ghost use Rattle.prefix_digest.specs.Page.{named_values, named_fields, named_entry};
ghost use Rattle.prefix_digest.specs.Taking.{TakesBytes};

use crate::naming::value_digest;
use causal_join::Fields;
use dot_store::DotFun;
use dots::{Dot, Value};
use sha2::{Digest, Sha256};
use std::alloc::Allocator;

pub(crate) fn feed_number(hasher: &mut Sha256, value: u64)
    ensures { TakesBytes hasher.old hasher.new (number value) }
{
    hasher.update(value.to_be_bytes());
}

pub(crate) fn feed_text(hasher: &mut Sha256, bytes: &[u8])
    ensures { TakesBytes hasher.old hasher.new (part.text bytes.now) }
{
    hasher.update(((bytes.len() % 0x1_0000) as u16).to_be_bytes());
    hasher.update(bytes);
}

pub(crate) fn feed_dot(hasher: &mut Sha256, dot: Dot)
    ensures { TakesBytes hasher.old hasher.new (part.dot_bytes dot) }
{
    feed_number(hasher, dot.name().number());
    feed_number(hasher, dot.number());
}

fn feed_values<A: Allocator + Copy>(hasher: &mut Sha256, values: &DotFun<Value<A>, A>)
    ensures { TakesBytes hasher.old hasher.new (form.names (named_values values.now)) }
{
    let entries = values.entries();
    feed_number(hasher, entries.len() as u64);
    for (dot, value) in entries {
        feed_dot(hasher, *dot);
        hasher.update(value_digest(value));
    }
}

fn feed_fields<A: Allocator + Copy>(hasher: &mut Sha256, fields: &Fields<A>)
    ensures { TakesBytes hasher.old hasher.new (form.named (named_fields fields.now)) }
{
    let entries = fields.entries();
    feed_number(hasher, entries.len() as u64);
    for (field, values) in entries {
        feed_text(hasher, field.bytes());
        feed_values(hasher, values);
    }
}

pub(crate) fn feed_entry<A: Allocator + Copy>(hasher: &mut Sha256, key: &[u8], fields: &Fields<A>)
    ensures { TakesBytes hasher.old hasher.new (form.entry (named_entry (key.now, fields.now))) }
{
    feed_text(hasher, key);
    feed_fields(hasher, fields);
}
