// Pages, fed to a hasher piece by piece.
ghost use Rattle.std.specs.Prelude.{◌≡◌, ◌∷◌};
ghost use Rattle.std.specs.List.{flat_map};
ghost use Rattle.wire_form.specs.Page as form;
ghost use Rattle.prefix_digest.specs.Page as page;
ghost use Rattle.prefix_digest.specs.Taking.{TakesBytes};

use crate::feeding::{feed_dot, feed_number, feed_text};
use dots::Key;
use sha2::{Digest, Sha256};
use std::alloc::Allocator;
use wire_form::{NamedFields, Names, Page};

/// The digest of a page: the SHA-256 (FIPS 180-4) of its bytes. Takes time in them, and no memory, as they are fed to the
/// hasher piece by piece.
pub fn digest_of<A: Allocator + Copy>(told: &Page<A>) -> [u8; 32]
    ensures { result ≡ page.digest_of (form.value_of told.now) }
{
    let mut hasher = Sha256::new();
    match told {
        Page::OneKey(key, fields) => {
            hasher.update([0]);
            feed_named_entry(&mut hasher, key, fields);
        }
        Page::Keys(entries) => {
            hasher.update([1]);
            feed_entries(&mut hasher, entries);
        }
        Page::Branch(children) => {
            hasher.update([2]);
            feed_children(&mut hasher, children);
        }
    }
    hasher.finalize()
}

fn feed_names<A: Allocator + Copy>(hasher: &mut Sha256, names: &Names<A>)
    ensures { TakesBytes hasher.old hasher.new (form.names names.now) }
{
    let entries = names.entries();
    feed_number(hasher, entries.len() as u64);
    for (dot, name) in entries {
        feed_dot(hasher, *dot);
        hasher.update(name);
    }
}

fn feed_named<A: Allocator + Copy>(hasher: &mut Sha256, fields: &NamedFields<A>)
    ensures { TakesBytes hasher.old hasher.new (form.named fields.now) }
{
    let entries = fields.entries();
    feed_number(hasher, entries.len() as u64);
    for (field, names) in entries {
        feed_text(hasher, field.bytes());
        feed_names(hasher, names);
    }
}

fn feed_named_entry<A: Allocator + Copy>(hasher: &mut Sha256, key: &Key<A>, fields: &NamedFields<A>)
    ensures { TakesBytes hasher.old hasher.new (form.entry (key.now, fields.now)) }
{
    feed_text(hasher, key.bytes());
    feed_named(hasher, fields);
}

fn feed_entries<A: Allocator + Copy>(hasher: &mut Sha256, entries: &[(Key<A>, NamedFields<A>)])
    ensures { TakesBytes hasher.old hasher.new (flat_map form.entry entries.now) }
{
    for (key, fields) in entries {
        feed_named_entry(hasher, key, fields);
    }
}

fn feed_children(hasher: &mut Sha256, children: &[(u8, [u8; 32])])
    ensures { TakesBytes hasher.old hasher.new (flat_map form.child children.now) }
{
    for (index, digest) in children {
        hasher.update([*index]);
        hasher.update(digest);
    }
}
