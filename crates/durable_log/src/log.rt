ghost use Rattle.std.specs.Prelude.{◌≡◌, false, [], ◌∷◌, map, Err, IfOk, OnOk, OnErr, IsTrue, IsPermutation};
ghost use Rattle.sqlite.specs.State.{HasCleanDisk, Opens, Survives, IsUnchanged};
ghost use Rattle.sqlite.specs.Held.{state};
ghost use Rattle.sqlite_wal.specs.Files.{image_at};
ghost use Rattle.sqlite.specs.Files.{over_files};
ghost use Rattle.durable_log.specs.Log.{log_state, strings, Gains, IsReady, IsBetween, IsReplaced, IsKept, IsBegun, IsOpenLog, IsInFiles};
ghost use Rattle.sqlite_wal.specs.Reads.{AreClean};

use crate::log_error::LogError;
use crate::statements::{begin, failure, insert, replace, select_strings};
use sqlite::{Alter, Connection, FileFrom, FileStore, Files, Start};
use sqlite_disk::Disk;
use std::alloc::Global;
use std::marker::Model;

/// A log of byte strings in a SQLite file.
///
/// A string that is kept is on the disk before the call ends, and a crash in the middle of the call leaves it or leaves it out, and
/// all others stay. After a call that failed no other is made: what the file holds then is told by opening it again.
pub struct Log<S: Alter> {
    conn: Connection<S>,
    is_failed: bool,
}

// It is written out, so that a caller does not prove again how each part is dropped.
impl<S: Alter + Drop> Drop for Log<S> {
    fn drop(self) {
        let Log {
            conn: _,
            is_failed: _,
        } = self;
    }
}

impl<S: Alter> Model for Log<S> {
    ghost use Rattle.std.specs.Prelude.{◌≡◌, false};
    ghost use Rattle.sqlite.specs.State.{HasCleanDisk};
    ghost use Rattle.sqlite.specs.Held.{state};
    ghost use Rattle.durable_log.specs.Log.{LogValue, log_code, IsReady};

    ghost Value = { LogValue S };

    ghost coded = { log_code S.code };

    ghost view = { λ l. record { conn = l.conn; is_failed = l.is_failed } };

    ghost invariant = { λ l. l.is_failed ≡ false → HasCleanDisk (state S.Store l.conn) → IsReady (state S.Store l.conn) };
}

impl<S: Alter + Drop> Log<S> {
    /// The log in a database that was just opened; it is made where there is no table. A database with other tables is refused.
    pub fn over(mut conn: Connection<S>) -> Result<Log<S>, LogError>
        requires opened { HasCleanDisk (state S.Store conn) → Opens (state S.Store conn) }
        requires fresh { conn.in_transaction ≡ false }
        ensures found { IfOk result (λ log. HasCleanDisk (log_state S.Store log) → HasCleanDisk (state S.Store conn) × IsBegun (state S.Store conn) (log_state S.Store log)) }
        ensures fresh { IfOk result (λ log. log.is_failed ≡ false) }
    {
        begin(&mut conn)?;
        Ok(Log {
            conn,
            is_failed: false,
        })
    }
}

impl<S: Alter> Log<S> {
    /// Whether a call failed, so that no other is made. While none did, a crash at this moment leaves all strings and nothing else.
    pub fn is_failed(&self) -> bool
        ensures value { result ≡ self.now.is_failed }
        ensures ready { result ≡ false → HasCleanDisk (log_state S.Store self.now) → IsReady (log_state S.Store self.now) }
    {
        self.is_failed
    }

    /// Adds a string, and returns once it is on the disk.
    ///
    /// Takes a write to the disk and a wait for it, and time in the string; of those that are there, in the logarithm of their number.
    pub fn keep(&mut self, string: &[u8]) -> Result<(), LogError>
        ensures acknowledged { HasCleanDisk (log_state S.Store self.new) → OnOk result (IsKept (log_state S.Store self.old) (log_state S.Store self.new) string.now) }
        ensures any_moment { Survives (log_state S.Store self.old) (log_state S.Store self.new) (λ db. Gains (log_state S.Store self.old).now.trees db string.now) }
        ensures ok { OnOk result (self.new.is_failed ≡ false) }
        ensures err { OnErr result (IsTrue self.new.is_failed) }
        ensures ended { IsTrue self.old.is_failed → (result ≡ Err LogError.Failed) × (self.new ≡ self.old) }
    {
        if self.is_failed {
            return Err(LogError::Failed);
        }
        match insert(&mut self.conn, string) {
            Ok(_place) => Ok(()),
            Err(error) => {
                self.is_failed = true;
                Err(failure(error))
            }
        }
    }

    /// Adds three strings and then takes out all others, and returns once that is on the disk. A crash in the middle of the call leaves all
    /// that were there or the three, and none beside them.
    ///
    /// Takes time in all strings, and four writes to the disk with a wait for each.
    pub fn replace(&mut self, first: &[u8], second: &[u8], third: &[u8]) -> Result<(), LogError>
        ensures replaced { HasCleanDisk (log_state S.Store self.new) → OnOk result (IsReady (log_state S.Store self.new) × IsReplaced (log_state S.Store self.old).now.trees (log_state S.Store self.new).now.trees (first.now ∷ second.now ∷ third.now ∷ [])) }
        ensures any_moment { Survives (log_state S.Store self.old) (log_state S.Store self.new) (λ db. IsBetween (log_state S.Store self.old).now.trees db (first.now ∷ second.now ∷ third.now ∷ [])) }
        ensures ok { OnOk result (self.new.is_failed ≡ false) }
        ensures err { OnErr result (IsTrue self.new.is_failed) }
        ensures ended { IsTrue self.old.is_failed → (result ≡ Err LogError.Failed) × (self.new ≡ self.old) }
    {
        if self.is_failed {
            return Err(LogError::Failed);
        }
        match replace(&mut self.conn, first, second, third) {
            Ok(_) => Ok(()),
            Err(error) => {
                self.is_failed = true;
                Err(failure(error))
            }
        }
    }

    /// All strings, in some order. Takes time and memory in them.
    pub fn read(&mut self, alloc: Global) -> Result<Vec<Vec<u8>>, LogError>
        ensures strings { HasCleanDisk (log_state S.Store self.new) → IfOk result (λ found. IsPermutation (strings (log_state S.Store self.old).now.trees) (map (λ string. string.items) found.items)) }
        ensures same { HasCleanDisk (log_state S.Store self.new) → OnOk result (IsUnchanged (log_state S.Store self.old) (log_state S.Store self.new)) }
        ensures any_moment { Survives (log_state S.Store self.old) (log_state S.Store self.new) (λ db. ⊥) }
        ensures ok { OnOk result (self.new.is_failed ≡ false) }
        ensures err { OnErr result (IsTrue self.new.is_failed) }
        ensures ended { IsTrue self.old.is_failed → (result ≡ Err LogError.Failed) × (self.new ≡ self.old) }
    {
        if self.is_failed {
            return Err(LogError::Failed);
        }
        match select_strings(alloc, &mut self.conn) {
            Ok(found) => Ok(found),
            Err(error) => {
                self.is_failed = true;
                Err(failure(error))
            }
        }
    }
}

impl<S: Start> Log<FileStore<FileFrom<S>>> {
    /// The log in the file at a path, which is made where there is none; `start` stands for what the file holds, and names how a torn
    /// write is read. A new file has sums on its pages. It is refused where another handle has it open, and where it holds other tables.
    ///
    /// Takes time and memory in the whole file, as each page is tested.
    pub fn open(
        rt: &HostRuntime,
        path: &str,
        start: S,
    ) -> Result<Log<FileStore<FileFrom<S>>>, LogError>
        ensures found { IfOk result (λ log. HasCleanDisk (log_state over_files log) → IsOpenLog (image_at S.Start) (log_state over_files log)) }
        ensures fresh { IfOk result (λ log. log.is_failed ≡ false) }
    {
        match Connection::open_from(rt, path, true, start) {
            Ok(conn) => Log::over(conn),
            Err((error, _)) => Err(failure(error)),
        }
    }

    /// Closes the file, and puts what is beside it into it.
    pub fn close(self) -> Result<(), LogError> {
        match self.close_files() {
            Ok(_) => Ok(()),
            Err(error) => Err(error),
        }
    }
}

impl<D: Disk + Drop> Log<FileStore<D>> {
    /// Puts what is beside the file into it, and gives the files back. What they hold then is the strings, as a reader finds them now and
    /// after a crash.
    pub fn close_files(self) -> Result<Files<D>, LogError>
        ensures held { self.is_failed ≡ false → IfOk result (λ files. AreClean D.Disk files.log files.db → HasCleanDisk (log_state over_files self) × IsInFiles D.Disk files (log_state over_files self).now.trees) }
    {
        let Log { conn, is_failed: _ } = self;
        match conn.close_files() {
            Ok(files) => Ok(files),
            Err((error, store)) => {
                drop(store);
                Err(failure(error))
            }
        }
    }
}
