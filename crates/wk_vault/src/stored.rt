//! A store of the program, as one keeper.
ghost use Rattle.std.specs.Prelude.{◌≡◌, ◌≢◌, ◌≤◌, None, Some, true, is_some, IfOk, IfSome, IsErr, OnErr, OnOk};
ghost use Rattle.wk_base.specs.Faults.{Rose};
ghost use Rattle.wk_table_rules.specs.Changes.{applied, fits};
ghost use Rattle.wk_keeper.specs.CallCounts.{CountsOne};
ghost use Rattle.wk_vault.specs.Stores.{IsClosed, IsClosedIfOpened, IsEnded, stored_calls, stored_cause, stored_faults, stored_news, stored_told, stored_whole};
ghost use Rattle.wk_vault.specs.Voices.{told_after};

use crate::tells::Voice;
use sqlite::{Connection, File, FileStore, Files};
use wk_keeper::{Keeper, KeeperRefusal, MemKeeper};
use wk_sqlkeeper::{SqlCause, SqlKeeper, cause_of};
use wk_tables::{Change, Tables};

/// A store of the program: in memory, where it tells its tables and is whole, or in a file, where it tells none and isn't.
/// One in a file says on the standard error why it can't be read, why changes can't be stored, and when they are again. Its
/// keeper is in memory of its own, since a wiki is moved at each turn and a connection is the larger part of it.
pub enum Stored {
    Memory(MemKeeper),
    File(Box<SqlKeeper<FileStore<File>>>, Voice),
}

// It is written out, so that a caller does not prove again how a database in a file is dropped.
impl Drop for Stored {
    fn drop(self) {
        match self {
            Stored::Memory(_) => {}
            Stored::File(_, _) => {}
        }
    }
}

impl Keeper for Stored {
    ghost told = { stored_told };

    ghost faults = { stored_faults };

    ghost is_whole = { stored_whole };

    ghost calls = { stored_calls };

    /// The tables of the keeper within. Why it refuses is told, but for want of memory.
    fn load(&mut self) -> Result<Tables, KeeperRefusal> {
        match self {
            Stored::Memory(keeper) => keeper.load(),
            Stored::File(keeper, voice) => {
                let answer = keeper.load();
                voice.hear_load(keeper.cause());
                answer
            }
        }
    }

    /// The change is made by the keeper within. A cause for which it refuses is told once until a change is stored again,
    /// and that is told too.
    fn apply(&mut self, change: &Change) -> Result<(), KeeperRefusal>
        requires { IfSome (stored_told self.old) (λ kept. fits kept change.now ≡ true) }
        ensures made { OnOk result (IfSome (stored_told self.old) (λ kept. stored_told self.new ≡ Some (applied kept change.now))) }
        ensures refused { OnErr result (stored_told self.new ≡ stored_told self.old) }
        ensures tells { is_some (stored_told self.new) ≡ is_some (stored_told self.old) }
        ensures stays_whole { stored_whole self.new ≡ stored_whole self.old }
        ensures never_falls { stored_faults self.old ≤ stored_faults self.new }
        ensures whole { stored_whole self.old ≡ true → stored_faults self.new ≡ stored_faults self.old }
        ensures no_fault { result ≢ Err KeeperRefusal.Failed → stored_faults self.new ≡ stored_faults self.old }
        ensures cause { result ≡ Err KeeperRefusal.Failed → Rose (stored_faults self.old) (stored_faults self.new) }
        ensures one_call { OnOk result (CountsOne (stored_calls self.old) (stored_calls self.new)) }
        ensures failed_call { result ≡ Err KeeperRefusal.Failed → CountsOne (stored_calls self.old) (stored_calls self.new) }
        ensures no_call { result ≡ Err KeeperRefusal.Memory → stored_calls self.new ≡ stored_calls self.old }

        ensures heard { stored_news self.new ≡ told_after (stored_news self.old) (stored_cause self.new) }
    {
        match self {
            Stored::Memory(keeper) => keeper.apply(change),
            Stored::File(keeper, voice) => {
                let answer = keeper.apply(change);
                voice.hear(keeper.cause());
                answer
            }
        }
    }
}

/// What is left of a store that was ended.
pub enum Closed {
    /// It was in memory.
    Memory,
    /// The file and its log.
    Files(Files<File>),
}

// It is written out, so that a caller does not prove again how a file is dropped.
impl Drop for Closed {
    fn drop(self) {
        match self {
            Closed::Memory => {}
            Closed::Files(_) => {}
        }
    }
}

/// Ends the connection: what stands in the log is copied into the file.
fn ended(connection: Connection<FileStore<File>>) -> Result<Files<File>, SqlCause>
    ensures { IfOk result (λ files. IsEnded connection files) }
{
    match connection.close_files() {
        Ok(files) => Ok(files),
        Err((error, _)) => Err(cause_of(error)),
    }
}

impl Stored {
    /// Ends the store: what stands in the log of a file is copied into the file. An error comes where that fails, and tells
    /// why; then nothing is lost, and the file and its log belong together.
    pub fn close(self) -> Result<Closed, SqlCause>
        ensures memory { IsErr result → stored_told self ≡ None }
        ensures copied { IfOk result (λ left. IsClosed self left) }
    {
        match self {
            Stored::Memory(_) => Ok(Closed::Memory),
            Stored::File(keeper, _) => match ended(Box::into_inner(keeper).release()) {
                Ok(files) => Ok(Closed::Files(files)),
                Err(cause) => Err(cause),
            },
        }
    }
}

/// Ends the store, if one was opened.
pub fn close_opened(store: Option<Stored>) -> Result<Option<Closed>, SqlCause>
    ensures copied { IfOk result (λ left. IsClosedIfOpened store left) }
{
    match store {
        None => Ok(None),
        Some(store) => match store.close() {
            Ok(left) => Ok(Some(left)),
            Err(cause) => Err(cause),
        },
    }
}
