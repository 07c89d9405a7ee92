ghost use Rattle.std.specs.Prelude.{◌≡◌, ◌↔◌, ◌⊎◌, ◌<◌, ◌≤◌, ◌∷◌, [], ℕ, ◌++◌, is_some, true, false, length, take, slice_get, IsTrue, IsErrOf, IfOk, IfErr, IfSome, OnOk, OnErr, IsOkUnless, Some};
ghost use Rattle.std.specs.List.{All};
ghost use Rattle.std.specs.Option.{option_map};
ghost use Rattle.std.specs.FinMap as finite;
ghost use Rattle.ctrie_api.specs.Run.{acted, acted_all, index_of, is_refused, IsWriteAt, EachIsWritten, carried_out, changed_at, written, snapshot_of, takes_no_write, as_list};
ghost use Rattle.ctrie_api.specs.Write.{map_after};

use crate::act::Act;
use crate::ctrie::Ctrie;
use crate::write::Write;
use dots::Refusal;
use gen_trie::{NoSummary, Summary};
use hash_path::PathHash;
use std::alloc::{Allocator, Global};
use std::marker::Model;

/// A trie with all snapshots that were taken of it, and of these, in the order in which they were made.
///
/// A write changes its own trie alone, and a snapshot is a copy that comes last.
#[derive(Drop)]
pub struct Tries<V, H: PathHash, M: Summary<V> = NoSummary, A: Allocator = Global> {
    tries: Vec<Ctrie<V, H, M, A>, A>,
}

impl<V, H: PathHash, M: Summary<V>, A: Allocator> Model for Tries<V, H, M, A> {
    ghost use Rattle.std.specs.Prelude.{List};
    ghost use Rattle.std.specs.Coded.{coded_list};
    ghost use Rattle.ctrie_api.specs.Trie.{Trie, trie_code};

    ghost Value = { List (Trie H V) };

    ghost coded = { coded_list (trie_code H.code V.code) };

    ghost view = { λ a. a.tries.items };
}

impl<V: Drop, H: PathHash, M: Summary<V>, A: Allocator + Copy> Tries<V, H, M, A> {
    /// This trie alone. Takes memory for one place.
    /// Its only refusal is OutOfMemory.
    pub fn new(alloc: A, first: Ctrie<V, H, M, A>) -> Result<Tries<V, H, M, A>, Refusal>
        ensures ok { IfOk result (λ tries. tries ≡ first ∷ []) }
        ensures err { IsOkUnless result Refusal.OutOfMemory }
    {
        let mut tries = Vec::new(alloc);
        tries.push(first)?;
        Ok(Tries { tries })
    }

    /// How many tries were made.
    pub fn len(&self) -> usize
        ensures { result ≡ length self.now }
    {
        self.tries.len()
    }

    /// The trie of this index.
    /// None exactly where none has it.
    pub fn trie(&self, index: usize) -> Option<&Ctrie<V, H, M, A>>
        ensures { option_map (λ trie. trie.now) result ≡ slice_get self.now index }
    {
        self.tries.get(index)
    }

    /// Carries an act out, and tells whether its trie is there: where it is not, nothing changes. A write on a read-only
    /// trie is refused. A refused act changes nothing.
    /// ReadOnly exactly where the act is a write at a trie that is there and read-only; its only other refusal is
    /// OutOfMemory.
    /// A write touches eight nodes at most, and copies those that a snapshot shares; a clear lets those go that none
    /// shares; a snapshot copies no node, and adds a trie to the run.
    pub fn act(&mut self, act: Act<V, A>) -> Result<bool, Refusal>
        ensures there { IfOk result (λ there. IsTrue there ↔ index_of act < length self.old) }
        ensures read_only { IsErrOf result Refusal.ReadOnly ↔ IsTrue (is_refused self.old act) }
        ensures ok { OnOk result (self.new ≡ acted self.old act) }
        ensures same { OnErr result (self.new ≡ self.old) }
        ensures err { IfErr result (λ refusal. (refusal ≡ Refusal.ReadOnly) ⊎ (refusal ≡ Refusal.OutOfMemory)) }
    {
        match act {
            Act::Insert(index, key, value) => {
                write_at(&mut self.tries, index, Write::Insert(key, value))
            }
            Act::Remove(index, key) => write_at(&mut self.tries, index, Write::Remove(key)),
            Act::Clear(index) => write_at(&mut self.tries, index, Write::Clear),
            Act::Snapshot(index) => add_snapshot(&mut self.tries, index, false),
            Act::ReadOnlySnapshot(index) => add_snapshot(&mut self.tries, index, true),
        }
    }
}

impl<V: Drop, H: PathHash, M: Summary<V>, A: Allocator + Copy> Tries<V, H, M, A> {
    /// Carries acts out, one after the other, up to the first for which memory was refused: an error tells how many were
    /// carried out before it. An act that is refused as its trie is read-only, or that is at none, is passed over.
    /// Takes what the acts take.
    pub fn run(&mut self, acts: Vec<Act<V, A>, A>) -> Result<(), usize>
        ensures ok { OnOk result (self.new ≡ acted_all self.old acts.items) }
        ensures err { IfErr result (λ done. (done < length acts.items) × (self.new ≡ acted_all self.old (take done acts.items))) }
        ensures each { EachIsWritten self.old self.new (carried_out result acts.items) }
        ensures others { (i : ℕ) → i < length self.old → All (λ act. ¬ (IsWriteAt i act)) acts.items → slice_get self.new i ≡ slice_get self.old i }
        ensures read_only { (i : ℕ) → IfSome (slice_get self.old i) (λ trie. IsTrue trie.read_only → slice_get self.new i ≡ Some trie) }
    {
        let mut done = 0;
        for act in acts {
            if self.lacks_memory_for(act) {
                return Err(done);
            }
            done += 1;
        }
        Ok(())
    }

    // Carries an act out, and tells whether memory was refused for it.
    fn lacks_memory_for(&mut self, act: Act<V, A>) -> bool
        ensures done { result ≡ false → self.new ≡ acted self.old act }
        ensures same { result ≡ true → self.new ≡ self.old }
    {
        match self.act(act) {
            Ok(_) => false,
            Err(Refusal::ReadOnly) => false,
            Err(_) => true,
        }
    }
}

// Carries the write out at the trie of this index, and tells whether that is there.
fn write_at<V: Drop, H: PathHash, M: Summary<V>, A: Allocator + Copy>(
    tries: &mut Vec<Ctrie<V, H, M, A>, A>,
    index: usize,
    write: Write<V, A>,
) -> Result<bool, Refusal>
    ensures there { IfOk result (λ there. IsTrue there ↔ index < length tries.old.items) }
    ensures read_only { IsErrOf result Refusal.ReadOnly ↔ IsTrue (takes_no_write (slice_get tries.old.items index)) }
    ensures ok { OnOk result (tries.new.items ≡ changed_at index (written (map_after write)) tries.old.items) }
    ensures same { OnErr result (tries.new.items ≡ tries.old.items) }
    ensures err { IfErr result (λ refusal. (refusal ≡ Refusal.ReadOnly) ⊎ (refusal ≡ Refusal.OutOfMemory)) }
{
    if index >= tries.len() {
        return Ok(false);
    }
    write.carry_out(&mut tries[index])?;
    Ok(true)
}

// Appends a snapshot of the trie of this index, a read-only one where that is asked for, and tells whether the trie is there.
fn add_snapshot<V: Drop, H: PathHash, M: Summary<V>, A: Allocator + Copy>(
    tries: &mut Vec<Ctrie<V, H, M, A>, A>,
    index: usize,
    is_read_only: bool,
) -> Result<bool, Refusal>
    ensures there { IfOk result (λ there. IsTrue there ↔ index < length tries.old.items) }
    ensures ok { OnOk result (tries.new.items ≡ tries.old.items ++ as_list (snapshot_of is_read_only (slice_get tries.old.items index))) }
    ensures same { OnErr result (tries.new.items ≡ tries.old.items) }
    ensures err { IsOkUnless result Refusal.OutOfMemory }
{
    let made = snapshot_at(tries, index, is_read_only)?;
    add(tries, made)
}

// A snapshot of the trie of this index, if that is there, and a read-only one where that is asked for.
fn snapshot_at<V: Drop, H: PathHash, M: Summary<V>, A: Allocator + Copy>(
    tries: &mut Vec<Ctrie<V, H, M, A>, A>,
    index: usize,
    is_read_only: bool,
) -> Result<Option<Ctrie<V, H, M, A>>, Refusal>
    ensures ok { IfOk result (λ made. made ≡ snapshot_of is_read_only (slice_get tries.old.items index)) }
    ensures same { tries.new.items ≡ tries.old.items }
    ensures err { IsOkUnless result Refusal.OutOfMemory }
{
    if index >= tries.len() {
        return Ok(None);
    }
    let made = snapshot(&mut tries[index], is_read_only)?;
    Ok(Some(made))
}

// A snapshot of the trie, a read-only one where that is asked for.
fn snapshot<V: Drop, H: PathHash, M: Summary<V>, A: Allocator + Copy>(
    trie: &mut Ctrie<V, H, M, A>,
    is_read_only: bool,
) -> Result<Ctrie<V, H, M, A>, Refusal>
    ensures ok { IfOk result (λ made. Some made ≡ snapshot_of is_read_only (Some trie.old)) }
    ensures same { trie.new ≡ trie.old }
    ensures err { IsOkUnless result Refusal.OutOfMemory }
{
    if is_read_only {
        trie.read_only_snapshot()
    } else {
        trie.snapshot()
    }
}

// Appends the trie that was made, if one was, and tells whether one was.
fn add<V: Drop, H: PathHash, M: Summary<V>, A: Allocator + Copy>(
    tries: &mut Vec<Ctrie<V, H, M, A>, A>,
    made: Option<Ctrie<V, H, M, A>>,
) -> Result<bool, Refusal>
    ensures there { IfOk result (λ there. there ≡ is_some made) }
    ensures ok { OnOk result (tries.new.items ≡ tries.old.items ++ as_list made) }
    ensures same { OnErr result (tries.new.items ≡ tries.old.items) }
    ensures err { IsOkUnless result Refusal.OutOfMemory }
{
    match made {
        None => Ok(false),
        Some(trie) => {
            tries.push(trie)?;
            Ok(true)
        }
    }
}
