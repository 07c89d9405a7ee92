// The snapshots that are kept, by session.
ghost use Rattle.std.specs.Prelude.{◌≡◌, ◌<◌, ◌≤◌, ◌++◌, ◌∷◌, [], None, IfOk, OnOk, IsOkUnless};
ghost use Rattle.indexmap.specs.IndexMap.{insert_entry, spare};
ghost use Rattle.wire_form.specs.Session.{same_session};
ghost use Rattle.sync_protocol.specs.Answering.{snapshot_of, all_but_first, with_place, keeping};

use crate::snapshot::Snapshot;
use dots::Refusal;
use hash_path::PathHash;
use indexmap::IndexMap;
use std::alloc::Allocator;
use std::hash::{BuildHasherDefault, FoldHasher};
use wire_form::Session;

// The snapshots by session, in the order in which the sessions opened.
pub(crate) type Snapshots<H, A> = IndexMap<
    Session,
    Snapshot<H, A>,
    BuildHasherDefault<FoldHasher>,
    A,
>;

// At most so many are kept.
const LIMIT: usize = 8;

// Takes the oldest out, if there is one.
fn drop_oldest<H: PathHash, A: Allocator + Copy>(kept: &mut Snapshots<H, A>)
    ensures entries { kept.new.entries ≡ all_but_first kept.old.entries }
    ensures room { spare kept.old ≤ spare kept.new }
{
    drop(kept.shift_remove_index(0));
}

// Makes a place among eight: where there is none the oldest is taken out.
fn make_place<H: PathHash, A: Allocator + Copy>(kept: &mut Snapshots<H, A>)
    ensures entries { kept.new.entries ≡ with_place kept.old.entries }
    ensures room { spare kept.old ≤ spare kept.new }
{
    if kept.len() >= LIMIT {
        drop_oldest(kept);
    }
}

// Puts the snapshot of a new session behind the others. There has to be room for it.
fn add<H: PathHash, A: Allocator + Copy>(
    kept: &mut Snapshots<H, A>,
    session: Session,
    snapshot: Snapshot<H, A>,
)
    requires new { snapshot_of kept.old.entries session ≡ None }
    requires room { 0 < spare kept.old }
    ensures { kept.new.entries ≡ kept.old.entries ++ (session, snapshot) ∷ [] }
{
    match kept.insert(session, snapshot) {
        Ok(was) => drop(was),
        Err(_) => unreachable!(),
    }
}

// Keeps the snapshot of a new session, the last of eight: where there are as many the oldest is dropped. There has to be room for it.
pub(crate) fn keep<H: PathHash, A: Allocator + Copy>(
    kept: &mut Snapshots<H, A>,
    session: Session,
    snapshot: Snapshot<H, A>,
)
    requires new { snapshot_of kept.old.entries session ≡ None }
    requires room { 0 < spare kept.old }
    ensures { kept.new.entries ≡ keeping session snapshot kept.old.entries }
{
    make_place(kept);
    add(kept, session, snapshot);
}

// Puts the copy of a snapshot at its session.
fn add_copy<H: PathHash, A: Allocator + Copy>(
    alloc: A,
    copies: &mut Snapshots<H, A>,
    session: Session,
    snapshot: &Snapshot<H, A>,
) -> Result<(), Refusal>
    ensures ok { OnOk result (copies.new.entries ≡ insert_entry same_session copies.old.entries session snapshot.now) }
    ensures err { IsOkUnless result Refusal.OutOfMemory }
{
    let copy = snapshot.copy(alloc)?;
    drop(copies.insert(session, copy)?);
    Ok(())
}

// The same snapshots, which share the nodes of their stores.
pub(crate) fn copy_snapshots<H: PathHash, A: Allocator + Copy>(
    alloc: A,
    kept: &Snapshots<H, A>,
) -> Result<Snapshots<H, A>, Refusal>
    ensures ok { IfOk result (λ copies. copies.entries ≡ kept.now.entries) }
    ensures err { IsOkUnless result Refusal.OutOfMemory }
{
    let mut copies = IndexMap::new(alloc);
    for (session, snapshot) in kept.iter() {
        if let Err(refusal) = add_copy(alloc, &mut copies, *session, snapshot) {
            drop(copies);
            return Err(refusal);
        }
    }
    Ok(copies)
}
