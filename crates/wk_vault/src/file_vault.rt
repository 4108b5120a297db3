//! The vault of the program's stores.
ghost use Rattle.std.specs.Prelude.{◌≡◌, ◌≢◌, ◌↔◌, ◌≤◌, true, None, Some, IfOk, IfSome, IsOk, IsSome, OnOk};
ghost use Rattle.wk_base.specs.Faults.{Rose, one_more};
ghost use Rattle.wk_keeper.specs.CallCounts.{CountsOne};
ghost use Rattle.wk_vault.specs.Stores.{stored_faults, stored_told, stored_whole};
ghost use Rattle.wk_vault.specs.Vault.{names_memory, opened_tables, vault_calls, vault_cause, vault_faults, vault_opens_whole, vault_told};

use crate::cause::{Refusal, StoreCause};
use crate::opening::opened;
use crate::stored::Stored;
use crate::tells::Voice;
use std::io;
use wk_keeper::{MemKeeper, OpenRefusal, Vault};
use wk_tables::Tables;

/// The vault of the program. The empty name is a new, empty store in memory, which is gone when the program ends; every
/// other name is a file, which is a new store where it is missing or empty, unless none is to be made.
#[derive(Drop)]
pub struct FileVault<'a> {
    rt: &'a HostRuntime,
    makes: bool,
    faults: u64,
    cause: Option<StoreCause>,
}

impl<'a> FileVault<'a> {
    /// A vault of which no call has failed yet, and which makes new stores in files or doesn't. Takes no memory.
    pub fn new(rt: &'a HostRuntime, makes: bool) -> FileVault<'a>
        ensures faults { vault_faults result ≡ 0 }
        ensures cause { vault_cause result ≡ None }
    {
        FileVault {
            rt,
            makes,
            faults: 0,
            cause: None,
        }
    }

    /// How many calls have failed. It stops at the end of `u64`.
    pub fn faults(&self) -> u64
        ensures { result ≡ vault_faults self.now }
    {
        self.faults
    }

    /// Tells on the standard error why the store of this name wasn't opened, if the last call failed.
    pub fn tell_cause(&self, name: &str) -> io::Result<()> {
        match self.cause {
            None => Ok(()),
            Some(StoreCause::NoStore) => eprintln!(self.rt; "wiki: there is no store {name}"),
            Some(StoreCause::LogAlone) => {
                eprintln!(self.rt; "wiki: {name} is missing or empty, and its log {name}-wal isn't")
            }
            Some(StoreCause::OtherLog) => {
                eprintln!(self.rt; "wiki: {name}-wal is no log, or not the log of {name}")
            }
            Some(cause) => eprintln!(self.rt; "wiki: {cause}"),
        }
    }

    /// Why the last call failed, and None where it didn't.
    pub fn cause(&self) -> Option<StoreCause>
        ensures { result ≡ vault_cause self.now }
    {
        self.cause
    }
}

/// What a vault answers where opening answers so. A refusal for another cause than memory is counted, and its cause kept.
fn answered<T: Drop>(
    faults: &mut u64,
    cause: &mut Option<StoreCause>,
    opened: Result<T, Refusal>,
) -> Result<T, OpenRefusal>
    ensures given { IfOk result (λ store. opened ≡ Ok store) }
    ensures kept { IsOk opened → IsOk result }
    ensures no_fault { result ≢ Err OpenRefusal.Failed → faults.new ≡ faults.old }
    ensures memory { result ≡ Err OpenRefusal.Memory → faults.new ≡ faults.old }
    ensures counted { result ≡ Err OpenRefusal.Failed → faults.new ≡ one_more faults.old }
    ensures never_falls { faults.old ≤ faults.new }
    ensures cause { result ≡ Err OpenRefusal.Failed → Rose faults.old faults.new }
    ensures why { (result ≡ Err OpenRefusal.Failed) ↔ IsSome cause.new }
    ensures because { (why : _) → (cause.new ≡ Some why) ↔ (opened ≡ Err (Refusal.Because why)) }
    ensures no_memory { (result ≡ Err OpenRefusal.Memory) ↔ (opened ≡ Err Refusal.Memory) }
{
    *cause = None;
    match opened {
        Ok(store) => Ok(store),
        Err(Refusal::Memory) => Err(OpenRefusal::Memory),
        Err(Refusal::Because(why)) => {
            *faults = faults.saturating_add(1);
            *cause = Some(why);
            Err(OpenRefusal::Failed)
        }
    }
}

/// The store of the name.
fn opened_as_named(rt: &HostRuntime, name: &str, makes: bool) -> Result<Stored, Refusal>
    ensures tells { IfOk result (λ store. stored_told store ≡ opened_tables name.now) }
    ensures whole { IfOk result (λ store. names_memory name.now ≡ true → stored_whole store ≡ true) }
    ensures no_faults { IfOk result (λ store. stored_faults store ≡ 0) }
    ensures in_memory { names_memory name.now ≡ true → IsOk result }
{
    if name.is_empty() {
        return Ok(Stored::Memory(MemKeeper::new(Tables::new(rt.alloc()))));
    }
    Ok(Stored::File(opened(rt, name, makes)?, Voice::new(rt)))
}

impl<'a> Vault for FileVault<'a> {
    type Store = Stored;

    ghost told = { vault_told };

    ghost opens_whole = { vault_opens_whole };

    ghost faults = { vault_faults };

    ghost calls = { vault_calls };

    /// The store of this name. For the empty name it is an empty one in memory, and the answer is `Ok`.
    ///
    /// `Failed` comes where the file is open elsewhere, where the system doesn't open or make it, where it has something
    /// else than a wiki's database, of which it keeps each byte, where it is missing or empty beside a log that isn't, where
    /// what lies in the log's place is none or another database's, where there is no store and none is to be made, and where
    /// the disk fails or is full; `cause` tells which.
    fn open(&mut self, name: &str) -> Result<Stored, OpenRefusal>
        ensures given { IfOk result (λ store. IfSome (vault_told self.old name.now) (λ kept. stored_told store ≡ Some kept)) }
        ensures whole { IfOk result (λ store. vault_opens_whole self.old name.now ≡ true → stored_whole store ≡ true) }
        ensures no_faults { IfOk result (λ store. stored_faults store ≡ 0) }
        ensures tells { vault_told self.new ≡ vault_told self.old }
        ensures tells_whole { vault_opens_whole self.new ≡ vault_opens_whole self.old }
        ensures never_falls { vault_faults self.old ≤ vault_faults self.new }
        ensures no_fault { result ≢ Err OpenRefusal.Failed → vault_faults self.new ≡ vault_faults self.old }
        ensures cause { result ≡ Err OpenRefusal.Failed → Rose (vault_faults self.old) (vault_faults self.new) }
        ensures one_call { OnOk result (CountsOne (vault_calls self.old) (vault_calls self.new)) }
        ensures failed_call { result ≡ Err OpenRefusal.Failed → CountsOne (vault_calls self.old) (vault_calls self.new) }
        ensures no_call { result ≡ Err OpenRefusal.Memory → vault_calls self.new ≡ vault_calls self.old }

        ensures told_tables { IfOk result (λ store. stored_told store ≡ opened_tables name.now) }
        ensures in_memory { names_memory name.now ≡ true → IsOk result }
        ensures memory { result ≡ Err OpenRefusal.Memory → vault_faults self.new ≡ vault_faults self.old }
        ensures counted { result ≡ Err OpenRefusal.Failed → vault_faults self.new ≡ one_more (vault_faults self.old) }
        ensures why { (result ≡ Err OpenRefusal.Failed) ↔ IsSome (vault_cause self.new) }
    {
        let opened = opened_as_named(self.rt, name, self.makes);
        answered(&mut self.faults, &mut self.cause, opened)
    }
}
