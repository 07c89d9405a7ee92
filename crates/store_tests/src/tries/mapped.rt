// Worked maps from keys to fields, and what is asked of them at a prefix.
use crate::made::{dot, prefix};
use causal_join::Fields;
use dot_store::{DotFun, DotStore};
use dots::{Field, Key, Value};
use gen_trie::GenTrie;
use hash_path::{Fnv1a, PathHash, Prefix, SameHash};
use prefix_digest::{FrozenMap, ShaSummary, digest, page};
use std::alloc::Global;
use std::process::Abort;

// The dots with their values at a field.
type Values<'a> = &'a [((u64, u64), &'a [u8])];

type Trie<H> = GenTrie<Fields, ShaSummary, H>;

// The values at these dots.
fn values_of(rt: &impl Abort, alloc: Global, values: Values) -> DotFun<Value> {
    let mut held = DotFun::empty(alloc);
    for ((name, number), value) in values {
        let value = Value::new(alloc, value).expect(rt, "memory");
        held.insert(dot(rt, *name, *number), value)
            .expect(rt, "memory");
    }
    held
}

// Puts these values at the field.
fn put_values(rt: &impl Abort, alloc: Global, fields: &mut Fields, field: &[u8], values: Values) {
    let held = values_of(rt, alloc, values);
    let field = Field::new(alloc, field).expect(rt, "memory");
    fields.insert(field, held).expect(rt, "memory");
}

// Puts these values at the empty field of a key, others at the field `f`, which is not there where there are none, and
// nothing else there.
fn put<H: PathHash>(
    rt: &impl Abort,
    alloc: Global,
    trie: &mut Trie<H>,
    key: &[u8],
    values: Values,
    others: Values,
) {
    let mut fields = Fields::empty(alloc);
    put_values(rt, alloc, &mut fields, b"", values);
    put_values(rt, alloc, &mut fields, b"f", others);
    let key = Key::new(alloc, key).expect(rt, "memory");
    trie.insert(key, fields).expect(rt, "memory");
}

// What is put at a key: values at the empty field, and others at the field `f`.
type Put = (&'static [u8], Values<'static>, Values<'static>);

// A worked map: what is put into it, and the keys that are taken out then.
type Worked = (&'static [Put], &'static [&'static [u8]]);

// A worked map by its name, so that each row of a table is short.
#[derive(Clone, Copy)]
pub enum Map {
    Nothing,
    // x under the dot 1:1 at `a`.
    OnlyA,
    // Both x and, under the dot 2:1, y there.
    TwoValues,
    // The same, and z under the dot 1:2 at the field `f`.
    TwoFields,
    // v at the empty key and w at `b`.
    Two,
    // x, y and z at `a`, `b` and `c`.
    Three,
    // The same with `b` taken out.
    WithoutB,
    // The same with `b` and `c` taken out.
    Left,
}

const NOTHING: Worked = (&[], &[]);

const ONLY_A: Worked = (&[(b"a", &[((1, 1), b"x")], &[])], &[]);

const X_AND_Y: Values<'static> = &[((2, 1), b"y"), ((1, 1), b"x")];

const TWO_VALUES: Worked = (&[(b"a", X_AND_Y, &[])], &[]);

const TWO_FIELDS: Worked = (&[(b"a", X_AND_Y, &[((1, 2), b"z")])], &[]);

const TWO: Worked = (
    &[
        (b"b", &[((2, 2), b"w")], &[]),
        (b"", &[((2, 1), b"v")], &[]),
    ],
    &[],
);

const X_Y_AND_Z: &[Put] = &[
    (b"a", &[((1, 1), b"x")], &[]),
    (b"b", &[((1, 2), b"y")], &[]),
    (b"c", &[((1, 3), b"z")], &[]),
];

const WITHOUT_B: &[&[u8]] = &[b"b"];

const WITHOUT_TWO: &[&[u8]] = &[b"b", b"c"];

fn worked(map: Map) -> Worked {
    match map {
        Map::Nothing => NOTHING,
        Map::OnlyA => ONLY_A,
        Map::TwoValues => TWO_VALUES,
        Map::TwoFields => TWO_FIELDS,
        Map::Two => TWO,
        Map::Three => (X_Y_AND_Z, &[]),
        Map::WithoutB => (X_Y_AND_Z, WITHOUT_B),
        Map::Left => (X_Y_AND_Z, WITHOUT_TWO),
    }
}

fn take<H: PathHash>(rt: &impl Abort, alloc: Global, trie: &mut Trie<H>, key: &[u8]) {
    let key = Key::new(alloc, key).expect(rt, "memory");
    trie.remove(&key).expect(rt, "memory");
}

fn put_all<H: PathHash>(rt: &impl Abort, alloc: Global, trie: &mut Trie<H>, puts: &[Put]) {
    for (key, values, others) in puts {
        put(rt, alloc, trie, key, values, others);
    }
}

// Writes the map into an empty trie.
fn write<H: PathHash>(rt: &impl Abort, alloc: Global, trie: &mut Trie<H>, map: Worked) {
    put_all(rt, alloc, trie, map.0);
    for key in map.1 {
        take(rt, alloc, trie, key);
    }
}

// What is asked of a frozen map at a prefix.
#[derive(Clone, Copy)]
pub enum Asked<'a> {
    // Whether this is its digest.
    Digest(Option<&'a [u8; 32]>),
    // Whether these are the bytes of its page.
    Page(Option<&'a [u8]>),
}

// Whether these are the bytes of the page.
fn is_spelled<H: PathHash>(
    rt: &impl Abort,
    alloc: Global,
    frozen: &FrozenMap<H>,
    prefix: Prefix,
    wanted: Option<&[u8]>,
) -> bool {
    let page = page(alloc, frozen, prefix).expect(rt, "memory");
    page.as_deref() == wanted
}

// The hash that keys' paths are by.
#[derive(Clone, Copy)]
pub enum By {
    Fnv1a,
    // One number for all keys.
    OneHash,
}

// Of what, a hash, a map, indices that are a prefix, and what is asked there.
pub type Row = (&'static str, By, Map, &'static [u32], Asked<'static>);

// Whether what is asked is so of this frozen map.
fn is_so_of<H: PathHash>(rt: &impl Abort, alloc: Global, frozen: &FrozenMap<H>, row: &Row) -> bool {
    let prefix = prefix(rt, row.3);
    match row.4 {
        Asked::Digest(wanted) => digest(frozen, prefix) == wanted.copied(),
        Asked::Page(wanted) => is_spelled(rt, alloc, frozen, prefix, wanted),
    }
}

// The same of a freeze once the map is written into this trie, which is empty.
fn is_so_written<H: PathHash>(
    rt: &impl Abort,
    alloc: Global,
    trie: &mut Trie<H>,
    row: &Row,
) -> bool {
    write(rt, alloc, trie, worked(row.2));
    let frozen = trie.freeze().expect(rt, "memory");
    is_so_of(rt, alloc, &frozen, row)
}

// The same of a new trie by this hash.
fn is_so_by<H: PathHash>(rt: &impl Abort, alloc: Global, hash: H, row: &Row) -> bool {
    let mut trie = GenTrie::new(alloc, hash);
    is_so_written(rt, alloc, &mut trie, row)
}

// Whether what the row asks is so of its map, frozen.
pub fn is_so(rt: &impl Abort, alloc: Global, row: &Row) -> bool {
    match row.1 {
        By::Fnv1a => is_so_by(rt, alloc, Fnv1a, row),
        By::OneHash => is_so_by(rt, alloc, SameHash(0), row),
    }
}
