ghost use Rattle.std.specs.Prelude.{◌≡◌, false, IfOk};
ghost use Rattle.sqlite_wal.specs.Reads.{AreClean};
ghost use Rattle.replica_core.specs.Meaning.{meaning};
ghost use Rattle.replica_store.specs.Kept.{IsKeptIn};

use crate::store_error::StoreError;
use durable_log::Log;
use hash_path::{Fnv1a, PathHash};
use replica_core::Replica;
use sqlite::{Alter, FileFrom, FileStore, Files, Start};
use sqlite_disk::Disk;
use std::marker::Model;

/// A replica that is kept in a log: what a call of it did is on the disk before it is acknowledged, and before anything of it is sent.
///
/// It comes back as it was after a front of its calls that has each acknowledged one, with none of its own synchronisations open.
pub struct Store<S: Alter, H: PathHash = Fnv1a> {
    pub(crate) replica: Replica<H>,
    pub(crate) log: Log<S>,
    pub(crate) is_failed: bool,
}

// It is written out, so that a caller does not prove again how each part is dropped.
impl<S: Alter + Drop, H: PathHash> Drop for Store<S, H> {
    fn drop(self) {
        let Store {
            replica: _,
            log: _,
            is_failed: _,
        } = self;
    }
}

impl<S: Alter, H: PathHash> Model for Store<S, H> {
    ghost use Rattle.std.specs.Prelude.{◌≡◌, false};
    ghost use Rattle.sqlite.specs.State.{HasCleanDisk};
    ghost use Rattle.durable_log.specs.Log.{log_state};
    ghost use Rattle.replica_core.specs.Meaning.{meaning};
    ghost use Rattle.replica_store.specs.Kept.{Keeps};
    ghost use Rattle.replica_store.specs.Store.{StoreValue, store_code};

    ghost Value = { StoreValue S H };

    ghost coded = { store_code S.code H.code };

    ghost view = { λ s. record { replica = s.replica; log = s.log; is_failed = s.is_failed } };

    ghost invariant = { λ s. s.is_failed ≡ false → (s.log.is_failed ≡ false) × (HasCleanDisk (log_state S.Store s.log) → Keeps (log_state S.Store s.log).now.trees (meaning s.replica)) };
}

impl<S: Alter, H: PathHash> Store<S, H> {
    /// The replica, to be read.
    pub fn replica(&self) -> &Replica<H>
        ensures { result.now ≡ self.now.replica }
    {
        &self.replica
    }

    /// Whether a call failed, so that no other is made: what is kept is told by opening it again.
    pub fn is_failed(&self) -> bool
        ensures { result ≡ self.now.is_failed }
    {
        self.is_failed
    }
}

impl<S: Start, H: PathHash> Store<FileStore<FileFrom<S>>, H> {
    /// Closes the file, and puts what is beside it into it.
    pub fn close(self) -> Result<(), StoreError> {
        match self.close_files() {
            Ok(files) => {
                drop(files);
                Ok(())
            }
            Err(error) => Err(error),
        }
    }
}

impl<D: Disk + Drop, H: PathHash> Store<FileStore<D>, H> {
    /// Puts what is beside the file into it, and gives the files back. What they hold then keeps the replica, as a reader finds it now and
    /// after a crash.
    pub fn close_files(self) -> Result<Files<D>, StoreError>
        ensures held { self.is_failed ≡ false → IfOk result (λ files. AreClean D.Disk files.log files.db → IsKeptIn D.Disk files (meaning self.replica)) }
    {
        let Store {
            replica,
            log,
            is_failed: _,
        } = self;
        drop(replica);
        match log.close_files() {
            Ok(files) => Ok(files),
            Err(error) => Err(StoreError::Log(error)),
        }
    }
}
