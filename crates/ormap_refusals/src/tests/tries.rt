// The calls of tries and of their frozen maps, each of forty keys, and those of Workiva's package.
use crate::trial::{Trial, refusals, wanted};
use ctrie_api::Ctrie;
use dots::{Key, Refusal};
use gen_trie::{Frozen, GenTrie, NoSummary};
use hash_path::Fnv1a;
use linked_list_allocator::LocalHeap;
use std::alloc::{Allocator, Global};
use std::panic::Expect;
use std::process::Abort;

type Trie<A> = GenTrie<u64, NoSummary, Fnv1a, A>;

type Still<A> = Frozen<u64, NoSummary, Fnv1a, A>;

type Map<A> = Ctrie<u64, Fnv1a, NoSummary, A>;

// What is asked of a trie and of its frozen map, or of a map of Workiva's calls.
#[derive(Clone, Copy)]
enum Act {
    Insert,
    Replace,
    Remove,
    Seal,
    Freeze,
    Share,
    Copy,
    Thaw,
    MapInsert,
    MapRemove,
    MapClear,
    MapSnapshot,
    MapReadOnly,
    MapFreeze,
    MapThaw,
}

// A call of a trie, of its frozen map or of a map, in each of which the numbers below forty stand at their bytes.
#[derive(Drop)]
struct Asking<'r, A: Allocator + Copy> {
    heap: A,
    trie: &'r mut Trie<A>,
    still: &'r Still<A>,
    map: &'r mut Map<A>,
    act: Act,
}

impl<'r, A: Allocator + Copy> Trial for Asking<'r, A> {
    fn attempt(&mut self) -> Result<(), Refusal> {
        match self.act {
            Act::Insert => insert(self.heap, self.trie, 40, 41),
            Act::Replace => insert(self.heap, self.trie, 7, 40),
            Act::Remove => remove(self.heap, self.trie),
            Act::Seal => self.trie.seal(),
            Act::Freeze => wanted(self.trie.freeze()?.size() == 40),
            Act::Share => wanted(self.trie.share()?.size() == 40),
            Act::Copy => wanted(self.still.copy()?.size() == 40),
            Act::Thaw => wanted(self.still.thaw()?.size() == 40),
            Act::MapInsert => map_insert(self.heap, self.map),
            Act::MapRemove => map_remove(self.heap, self.map),
            Act::MapClear => map_clear(self.map),
            Act::MapSnapshot => wanted(self.map.snapshot()?.size() == 40),
            Act::MapReadOnly => wanted(self.map.read_only_snapshot()?.size() == 40),
            Act::MapFreeze => wanted(self.map.freeze()?.size() == 40),
            Act::MapThaw => map_thaw(self.still),
        }
    }

    fn is_as_before(&mut self) -> bool {
        let sizes = (self.trie.size(), self.still.size(), self.map.size());
        sizes == (40, 40, 40) && are_forty(self.trie, self.still, self.map)
    }
}

// The key of a number.
fn key_of<A: Allocator + Copy>(heap: A, number: u64) -> Result<Key<A>, Refusal> {
    Key::new(heap, &number.to_be_bytes())
}

// Whether each number below forty stands at its key in all three.
fn are_forty<A: Allocator + Copy>(trie: &Trie<A>, still: &Still<A>, map: &Map<A>) -> bool {
    let mut are = true;
    for number in 0..40u64 {
        let key = number.to_be_bytes();
        are = are
            && trie.lookup_bytes(&key) == Some(&number)
            && still.lookup_bytes(&key) == Some(&number)
            && map.lookup_bytes(&key) == Some(&number);
    }
    are
}

// Puts a number at its key, after which there are so many.
fn insert<A: Allocator + Copy>(
    heap: A,
    trie: &mut Trie<A>,
    number: u64,
    size: u64,
) -> Result<(), Refusal> {
    let key = key_of(heap, number)?;
    trie.insert(key, number)?;
    wanted(trie.size() == size)
}

// Takes one of the forty out.
fn remove<A: Allocator + Copy>(heap: A, trie: &mut Trie<A>) -> Result<(), Refusal> {
    let key = key_of(heap, 7)?;
    let taken = trie.remove(&key)?;
    wanted(taken.is_some() && trie.size() == 39)
}

fn map_insert<A: Allocator + Copy>(heap: A, map: &mut Map<A>) -> Result<(), Refusal> {
    let (key, same) = (key_of(heap, 40)?, key_of(heap, 40)?);
    map.insert(key, 40)?;
    wanted(map.lookup(&same) == Some(&40) && map.size() == 41)
}

fn map_remove<A: Allocator + Copy>(heap: A, map: &mut Map<A>) -> Result<(), Refusal> {
    let key = key_of(heap, 7)?;
    let taken = map.remove(&key)?;
    wanted(taken.is_some() && map.lookup(&key).is_none() && map.size() == 39)
}

fn map_clear<A: Allocator + Copy>(map: &mut Map<A>) -> Result<(), Refusal> {
    map.clear()?;
    wanted(map.size() == 0)
}

fn map_thaw<A: Allocator + Copy>(still: &Still<A>) -> Result<(), Refusal> {
    let map: Map<A> = Ctrie::thaw(still)?;
    wanted(map.size() == 40)
}

// Puts the forty into the trie.
fn fill<A: Allocator + Copy>(rt: &impl Abort, heap: A, trie: &mut Trie<A>) {
    for number in 0..40u64 {
        let key = key_of(heap, number).expect(rt, "memory");
        trie.insert(key, number).expect(rt, "memory");
    }
}

// A trie of the forty. It is in a box, as are the two below: one that is a local is dear to prove.
fn filled<A: Allocator + Copy>(rt: &impl Abort, alloc: Global, heap: A) -> Box<Trie<A>> {
    let empty: Trie<A> = GenTrie::new(heap, Fnv1a);
    let mut trie = Box::new(alloc, empty).expect(rt, "memory");
    fill(rt, heap, &mut *trie);
    trie
}

// The trie as it stands, with which it shares its nodes from then on.
fn shared<A: Allocator + Copy>(
    rt: &impl Abort,
    alloc: Global,
    trie: &mut Trie<A>,
) -> Box<Still<A>> {
    let still = trie.share().expect(rt, "memory");
    Box::new(alloc, still).expect(rt, "memory")
}

// A map of Workiva's calls of what the frozen map holds.
fn thawed<A: Allocator + Copy>(rt: &impl Abort, alloc: Global, still: &Still<A>) -> Box<Map<A>> {
    let map: Map<A> = Ctrie::thaw(still).expect(rt, "memory");
    Box::new(alloc, map).expect(rt, "memory")
}

// How often the call is refused in this small heap, in which all three stand. What is written is shared with the frozen map.
fn tried<A: Allocator + Copy>(
    rt: &impl Abort,
    alloc: Global,
    small: &LocalHeap,
    heap: A,
    act: Act,
) -> usize {
    let mut trie = filled(rt, alloc, heap);
    let still = shared(rt, alloc, &mut *trie);
    let mut map = thawed(rt, alloc, &*still);
    let mut asking = Asking {
        heap,
        trie: &mut *trie,
        still: &*still,
        map: &mut *map,
        act,
    };
    refusals(rt, alloc, small, 8, &mut asking)
}

// The same in a heap of its own, which is empty in the end.
fn tried_in_a_heap(rt: &impl Abort, alloc: Global, act: Act) -> usize {
    let heap = LocalHeap::new(alloc, 20_000).expect(rt, "memory");
    let count = tried(rt, alloc, &heap, &heap, act);
    assert!(rt; heap.used() == 0);
    count
}

// What is called, the call, and how often it is refused at least and at most: what takes no memory is never refused.
const CALLS: &[(&str, Act, usize, usize)] = &[
    ("an insert", Act::Insert, 2, usize::MAX),
    (
        "an insert at a key that is there",
        Act::Replace,
        2,
        usize::MAX,
    ),
    ("a remove", Act::Remove, 2, usize::MAX),
    ("a seal", Act::Seal, 2, usize::MAX),
    ("a freeze", Act::Freeze, 2, usize::MAX),
    ("an insert into a map", Act::MapInsert, 2, usize::MAX),
    ("a remove of a map", Act::MapRemove, 2, usize::MAX),
    ("a freeze of a map", Act::MapFreeze, 2, usize::MAX),
    ("a share", Act::Share, 0, 0),
    ("a copy", Act::Copy, 0, 0),
    ("a thaw", Act::Thaw, 0, 0),
    ("a clear of a map", Act::MapClear, 0, 0),
    ("a snapshot", Act::MapSnapshot, 0, 0),
    ("a read-only snapshot", Act::MapReadOnly, 0, 0),
    ("a thaw to a map", Act::MapThaw, 0, 0),
];

#[test]
fn a_refused_call_of_tries_changes_nothing_and_is_made_again(rt: HostRuntime) {
    for (what, act, least, most) in CALLS {
        let count = tried_in_a_heap(&rt, rt.alloc(), *act);
        let is_refused = count >= *least;
        let is_made = count <= *most;
        assert!(rt; is_refused && is_made, "{what}");
    }
}
