// How a store begins, and comes back.
ghost use Rattle.std.specs.Prelude.{◌≡◌, false, map, IfOk, OnOk, IsPermutation};
ghost use Rattle.sqlite.specs.State.{HasCleanDisk};
ghost use Rattle.sqlite.specs.Files.{over_files};
ghost use Rattle.sqlite_wal.specs.Files.{image_at};
ghost use Rattle.durable_log.specs.Log.{IsOpenLog, log_state, strings};
ghost use Rattle.replica_core.specs.Meaning.{meaning};
ghost use Rattle.replica_store.specs.Kept.{Keeps, IsKept};
ghost use Rattle.replica_store.specs.Rebuilt.{IsKeptAs};
ghost use Rattle.replica_store.specs.Store.{ComesBackFrom};

use crate::keeping::keep_name;
use crate::rebuilding::rebuild;
use crate::store::Store;
use crate::store_error::StoreError;
use dots::Name;
use durable_log::Log;
use hash_path::PathHash;
use replica_core::Replica;
use sqlite::{Alter, FileFrom, FileStore, Start};
use std::alloc::Global;

// The replica of this name that the log keeps. Where the log has no string yet, its name is kept, and nothing happened to it.
fn come_back<S: Alter, H: PathHash>(
    alloc: Global,
    log: &mut Log<S>,
    hash: H,
    name: Name,
) -> Result<Replica<H>, StoreError>
    ensures back { HasCleanDisk (log_state S.Store log.new) → IfOk result (λ replica. IsKeptAs (strings (log_state S.Store log.old).now.trees) (meaning replica)) }
    ensures kept { HasCleanDisk (log_state S.Store log.new) → IfOk result (λ replica. Keeps (log_state S.Store log.new).now.trees (meaning replica)) }
    ensures name { IfOk result (λ replica. replica.name ≡ name) }
    ensures stays { OnOk result (log.new.is_failed ≡ false) }
{
    let strings = match log.read(alloc) {
        Ok(strings) => strings,
        Err(error) => return Err(StoreError::Log(error)),
    };
    if !strings.is_empty() {
        return rebuild(alloc, hash, name, strings.as_slice());
    }
    keep_name(alloc, log, name)?;
    Ok(Replica::new(alloc, name, hash))
}

impl<S: Alter + Drop, H: PathHash> Store<S, H> {
    /// The replica of this name that a log keeps, with none of its own synchronisations open. Where the log is new, nothing happened to the
    /// replica yet. A log of another name is refused by that name, and one whose strings keep no replica is refused.
    ///
    /// Takes time and memory in all strings.
    pub fn over(
        alloc: Global,
        mut log: Log<S>,
        hash: H,
        name: Name,
    ) -> Result<Store<S, H>, StoreError>
        ensures back { IfOk result (λ store. HasCleanDisk (log_state S.Store store.log) → IsKeptAs (strings (log_state S.Store log).now.trees) (meaning store.replica)) }
        ensures name { IfOk result (λ store. store.replica.name ≡ name) }
        ensures kept { IfOk result (λ store. HasCleanDisk (log_state S.Store store.log) → IsKept (log_state S.Store store.log) (meaning store.replica)) }
        ensures fresh { IfOk result (λ store. store.is_failed ≡ false) }
    {
        let replica = come_back(alloc, &mut log, hash, name)?;
        // proof: the clause `ready` of `is_failed`.
        let _ = log.is_failed();
        Ok(Store {
            replica,
            log,
            is_failed: false,
        })
    }
}

impl<S: Start, H: PathHash> Store<FileStore<FileFrom<S>>, H> {
    /// The replica of this name in the file at a path, as `over` has it from a log. The file is made where there is none; `start` stands for
    /// what it holds, and names how a torn write is read. It is refused where another handle has it open, and where it holds other tables.
    pub fn open(
        rt: &HostRuntime,
        path: &str,
        start: S,
        hash: H,
        name: Name,
    ) -> Result<Store<FileStore<FileFrom<S>>, H>, StoreError>
        ensures back { IfOk result (λ store. HasCleanDisk (log_state over_files store.log) → ComesBackFrom over_files (IsOpenLog (image_at S.Start)) store.log (meaning store.replica)) }
        ensures name { IfOk result (λ store. store.replica.name ≡ name) }
        ensures kept { IfOk result (λ store. HasCleanDisk (log_state over_files store.log) → IsKept (log_state over_files store.log) (meaning store.replica)) }
        ensures fresh { IfOk result (λ store. store.is_failed ≡ false) }
    {
        match Log::open(rt, path, start) {
            Ok(log) => Store::over(rt.alloc(), log, hash, name),
            Err(error) => Err(StoreError::Log(error)),
        }
    }
}
