// Maps of forty numbers that are written in place, beside copies that were taken before: these stay what they were.
ghost use Rattle.std.specs.Prelude.{⊤};

use crate::tries::made::{Kept, Trie, bytes_of, put_all};
use dots::{Key, Refusal};
use gen_trie::{Change, GenTrie, NoSummary, Written};
use hash_path::{Fnv1a, PathHash, SameHash};
use std::alloc::Global;
use std::process::Abort;

type Map<H> = Written<u64, NoSummary, H>;

// Adds so much to a number.
struct Add(u64);

impl Change<u64> for Add {
    ghost fits = { λ _ _. ⊤ };

    ghost becomes = { λ _ _ _. ⊤ };

    fn made(&self, value: &u64) -> Result<u64, Refusal> {
        Ok(value.wrapping_add(self.0))
    }

    fn apply(&self, value: &mut u64) -> Result<(), Refusal> {
        *value = value.wrapping_add(self.0);
        Ok(())
    }
}

// What is done at the key of each number.
#[derive(Clone, Copy)]
enum Write {
    // The number is put, with 1000 more for each time.
    Insert,
    // 1000 are added.
    Change,
    // The same at a key that is not there.
    ChangeInVain,
    Remove,
    Seal,
}

// What a number's key has after so many times.
fn left(write: Write, number: u64, times: u64) -> Option<u64> {
    match write {
        Write::Insert | Write::Change => Some(number.wrapping_add(times.wrapping_mul(1000))),
        Write::Remove if times > 0 => None,
        _ => Some(number),
    }
}

fn key_of(rt: &impl Abort, alloc: Global, number: u64) -> Key {
    Key::new(alloc, &bytes_of(number)).expect(rt, "memory")
}

// Puts a number at the key of a number.
fn insert<H: PathHash>(
    rt: &impl Abort,
    alloc: Global,
    map: &mut Map<H>,
    number: u64,
    value: u64,
) -> bool {
    let key = key_of(rt, alloc, number);
    map.insert(key, value).expect(rt, "memory");
    true
}

// Adds 1000 at the key of a number. Whether it is there.
fn change<H: PathHash>(rt: &impl Abort, alloc: Global, map: &mut Map<H>, number: u64) -> bool {
    let key = key_of(rt, alloc, number);
    map.change(&key, &Add(1000)).expect(rt, "memory")
}

// Takes the key of a number out, and gives what was there.
fn removed<H: PathHash>(
    rt: &impl Abort,
    alloc: Global,
    map: &mut Map<H>,
    number: u64,
) -> Option<u64> {
    let key = key_of(rt, alloc, number);
    match map.remove(&key).expect(rt, "memory") {
        None => None,
        Some(entry) => Some(*entry.value()),
    }
}

// Writes at the key of a number, for this time, the first being 1. Whether the call answers what it has to.
fn is_told<H: PathHash>(
    rt: &impl Abort,
    alloc: Global,
    map: &mut Map<H>,
    write: Write,
    number: u64,
    times: u64,
) -> bool {
    match write {
        Write::Insert => insert(
            rt,
            alloc,
            map,
            number,
            number.wrapping_add(times.wrapping_mul(1000)),
        ),
        Write::Change => change(rt, alloc, map, number),
        Write::ChangeInVain => !change(rt, alloc, map, number.wrapping_add(100)),
        Write::Remove => {
            removed(rt, alloc, map, number) == left(write, number, times.wrapping_sub(1))
        }
        Write::Seal => {
            map.seal().expect(rt, "memory");
            map.frozen().is_sealed()
        }
    }
}

// Whether a map has what is left after so many times at the numbers below this one, and after one time less at the others.
fn has<H: PathHash>(kept: &Kept<H>, write: Write, below: u64, times: u64) -> bool {
    let mut same = true;
    for number in 0..40u64 {
        let often = if number < below {
            times
        } else {
            times.wrapping_sub(1)
        };
        let value = kept.lookup_bytes(&bytes_of(number)).copied();
        same = value == left(write, number, often) && same;
    }
    same
}

// Writes at the key of a number. Whether a copy that was taken before stays, and the map has what was written.
fn is_beside<H: PathHash>(
    rt: &impl Abort,
    alloc: Global,
    map: &mut Map<H>,
    write: Write,
    number: u64,
) -> bool {
    let before = map.frozen().copy().expect(rt, "memory");
    let is_told = is_told(rt, alloc, map, write, number, 1);
    let stays = has(&before, write, number, 1);
    let is_left = has(map.frozen(), write, number.wrapping_add(1), 1);
    is_told && stays && is_left
}

// Writes at each key beside a copy, and then at each with no copy about.
fn are_written<H: PathHash>(
    rt: &impl Abort,
    alloc: Global,
    map: &mut Map<H>,
    write: Write,
) -> bool {
    let mut all = true;
    for number in 0..40u64 {
        all = is_beside(rt, alloc, map, write, number) && all;
    }
    for number in 0..40u64 {
        all = is_told(rt, alloc, map, write, number, 2) && all;
    }
    all && has(map.frozen(), write, 40, 2)
}

// The numbers below forty at their keys.
fn forty<H: PathHash>(rt: &impl Abort, alloc: Global, hash: H) -> Map<H> {
    let mut map = Written::new(alloc, hash);
    for number in 0..40u64 {
        insert(rt, alloc, &mut map, number, number);
    }
    map
}

// The same of a new map.
fn is_so<H: PathHash>(rt: &impl Abort, alloc: Global, hash: H, write: Write) -> bool {
    let mut map = forty(rt, alloc, hash);
    are_written(rt, alloc, &mut map, write)
}

const WRITES: &[(&str, Write)] = &[
    ("insert", Write::Insert),
    ("change", Write::Change),
    ("a change in vain", Write::ChangeInVain),
    ("remove", Write::Remove),
    ("seal", Write::Seal),
];

#[test]
fn a_copy_stays_beside_each_write_in_place(rt: HostRuntime) {
    for (what, write) in WRITES {
        let by_path = is_so(&rt, rt.alloc(), Fnv1a, *write);
        let by_list = is_so(&rt, rt.alloc(), SameHash(0), *write);
        assert!(rt; by_path && by_list, "{what}");
    }
}

// Adds 1000 at each key of a trie. Whether all are there.
fn are_changed<H: PathHash>(rt: &impl Abort, alloc: Global, trie: &mut Trie<H>) -> bool {
    let mut all = true;
    for number in 0..40u64 {
        let key = key_of(rt, alloc, number);
        all = trie.change(&key, &Add(1000)).expect(rt, "memory") && all;
    }
    all
}

// Whether a frozen map of forty numbers stays while the trie is changed twice: its entries are made anew, and then changed as they stand.
fn is_changed<H: PathHash>(rt: &impl Abort, alloc: Global, trie: &mut Trie<H>) -> bool {
    put_all(rt, alloc, trie, 40);
    let before = trie.share().expect(rt, "memory");
    let once = are_changed(rt, alloc, trie);
    let twice = are_changed(rt, alloc, trie);
    let after = trie.share().expect(rt, "memory");
    let stays = has(&before, Write::Change, 40, 0);
    let is_left = has(&after, Write::Change, 40, 2);
    once && twice && stays && is_left
}

// The same of a new trie.
fn is_changed_anew<H: PathHash>(rt: &impl Abort, alloc: Global, hash: H) -> bool {
    let mut trie = GenTrie::new(alloc, hash);
    is_changed(rt, alloc, &mut trie)
}

#[test]
fn a_frozen_map_stays_while_values_change(rt: HostRuntime) {
    assert!(rt; is_changed_anew(&rt, rt.alloc(), Fnv1a));
    assert!(rt; is_changed_anew(&rt, rt.alloc(), SameHash(0)));
}
