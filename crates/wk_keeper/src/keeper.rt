// The traits of what keeps tables.
ghost use Rattle.std.specs.Prelude.{◌≡◌, ◌≢◌, ℕ, ◌≤◌, Bool, true, List, IfOk, IfSome, OnErr, OnOk, Option, None, Some, is_some};
ghost use Rattle.wk_base.specs.Faults.{Rose};
ghost use Rattle.wk_table_rules.specs.Changes.{applied, fits};
ghost use Rattle.wk_table_rules.specs.Rows.{StoreTables};
ghost use Rattle.wk_keeper.specs.CallCounts.{CountsOne};
ghost use Rattle.wk_keeper.specs.declared.keeper.KeeperRefusal.TheVariants.{Memory as NoMemoryToKeep};
ghost use Rattle.wk_keeper.specs.declared.keeper.OpenRefusal.TheVariants.{Memory as NoMemoryToOpen};

use thiserror::Error;
use wk_memory::Memory;
use wk_tables::{Change, Tables};

/// Why a keeper gives no tables, or doesn't change them.
#[derive(Clone, Copy, Debug, PartialEq, Eq, Error)]
pub enum KeeperRefusal {
    /// The keeper failed.
    #[error("the store failed")]
    Failed,
    /// Memory ran out.
    #[error("out of memory")]
    Memory,
}

impl From<Memory> for KeeperRefusal {
    ghost from_gives = { λ _ refusal. refusal ≡ NoMemoryToKeep };

    fn from(_: Memory) -> KeeperRefusal {
        KeeperRefusal::Memory
    }
}

/// Why a vault opens no store.
#[derive(Clone, Copy, Debug, PartialEq, Eq, Error)]
pub enum OpenRefusal {
    /// The vault failed.
    #[error("the store can't be opened")]
    Failed,
    /// Memory ran out.
    #[error("out of memory")]
    Memory,
}

impl From<Memory> for OpenRefusal {
    ghost from_gives = { λ _ refusal. refusal ≡ NoMemoryToOpen };

    fn from(_: Memory) -> OpenRefusal {
        OpenRefusal::Memory
    }
}

/// What keeps the tables of a wiki.
pub trait Keeper: Drop {
    /// The tables, where the keeper tells them. Whether it tells them is left as it was by each call.
    ghost told: { Self → Option StoreTables };

    /// How many calls have failed. It stops at the end of `u64`.
    ghost faults: { Self → ℕ };

    /// The keeper tells that it is whole: its count of faults can't rise. Each call leaves this as it was.
    ghost is_whole: { Self → Bool };

    /// How many calls were made, where the keeper tells it. A call that answers `Memory` isn't counted. It stops at the
    /// end of `u64`.
    ghost calls: { Self → Option ℕ } = { λ _. None };

    /// Gives the tables. They are as before, whatever it answers.
    ///
    /// `Failed` comes only where the count of faults rose in this call, or stands at its end; `Memory` may come. At
    /// each answer but `Failed` the count is as it was: no call that failed is made up for by another, or told as want of
    /// memory.
    fn load(&mut self) -> Result<Tables, KeeperRefusal>
        ensures given { IfOk result (λ tables. IfSome (told self.old) (λ kept. tables.tables ≡ kept)) }
        ensures tables { told self.new ≡ told self.old }
        ensures stays_whole { is_whole self.new ≡ is_whole self.old }
        ensures never_falls { faults self.old ≤ faults self.new }
        ensures whole { is_whole self.old ≡ true → faults self.new ≡ faults self.old }
        ensures no_fault { result ≢ Err KeeperRefusal.Failed → faults self.new ≡ faults self.old }
        ensures cause { result ≡ Err KeeperRefusal.Failed → Rose (faults self.old) (faults self.new) }
        ensures one_call { OnOk result (CountsOne (calls self.old) (calls self.new)) }
        ensures failed_call { result ≡ Err KeeperRefusal.Failed → CountsOne (calls self.old) (calls self.new) }
        ensures no_call { result ≡ Err KeeperRefusal.Memory → calls self.new ≡ calls self.old };

    /// Makes the change, which fits the tables where they are told. After a refusal they are as before.
    ///
    /// `Failed` comes only where the count of faults rose in this call, or stands at its end; `Memory` may come. At
    /// each answer but `Failed` the count is as it was: no call that failed is made up for by another, or told as want of
    /// memory.
    fn apply(&mut self, change: &Change) -> Result<(), KeeperRefusal>
        requires { IfSome (told self.old) (λ kept. fits kept change.now ≡ true) }
        ensures made { OnOk result (IfSome (told self.old) (λ kept. told self.new ≡ Some (applied kept change.now))) }
        ensures refused { OnErr result (told self.new ≡ told self.old) }
        ensures tells { is_some (told self.new) ≡ is_some (told self.old) }
        ensures stays_whole { is_whole self.new ≡ is_whole self.old }
        ensures never_falls { faults self.old ≤ faults self.new }
        ensures whole { is_whole self.old ≡ true → faults self.new ≡ faults self.old }
        ensures no_fault { result ≢ Err KeeperRefusal.Failed → faults self.new ≡ faults self.old }
        ensures cause { result ≡ Err KeeperRefusal.Failed → Rose (faults self.old) (faults self.new) }
        ensures one_call { OnOk result (CountsOne (calls self.old) (calls self.new)) }
        ensures failed_call { result ≡ Err KeeperRefusal.Failed → CountsOne (calls self.old) (calls self.new) }
        ensures no_call { result ≡ Err KeeperRefusal.Memory → calls self.new ≡ calls self.old };
}

/// What opens stores by their names.
pub trait Vault: Drop {
    type Store: Keeper;

    /// The tables of the store that is opened by a name, where the vault tells them.
    ghost told: { Self → List ℕ → Option StoreTables };

    /// The vault tells that the store that is opened by a name is whole.
    ghost opens_whole: { Self → List ℕ → Bool };

    /// How many calls have failed. It stops at the end of `u64`.
    ghost faults: { Self → ℕ };

    /// How many calls were made, where the vault tells it. A call that answers `Memory` isn't counted. It stops at the
    /// end of `u64`.
    ghost calls: { Self → Option ℕ } = { λ _. None };

    /// Opens the store of this name. Its count of faults is 0. What the vault tells is as before, whatever it answers.
    ///
    /// `Failed` comes only where the count of faults rose in this call, or stands at its end; `Memory` may come. At
    /// each answer but `Failed` the count is as it was: no call that failed is made up for by another, or told as want of
    /// memory.
    fn open(&mut self, name: &str) -> Result<Self::Store, OpenRefusal>
        ensures given { IfOk result (λ store. IfSome (told self.old name.now) (λ kept. Self.Store.told store ≡ Some kept)) }
        ensures whole { IfOk result (λ store. opens_whole self.old name.now ≡ true → Self.Store.is_whole store ≡ true) }
        ensures no_faults { IfOk result (λ store. Self.Store.faults store ≡ 0) }
        ensures tells { told self.new ≡ told self.old }
        ensures tells_whole { opens_whole self.new ≡ opens_whole self.old }
        ensures never_falls { faults self.old ≤ faults self.new }
        ensures no_fault { result ≢ Err OpenRefusal.Failed → faults self.new ≡ faults self.old }
        ensures cause { result ≡ Err OpenRefusal.Failed → Rose (faults self.old) (faults self.new) }
        ensures one_call { OnOk result (CountsOne (calls self.old) (calls self.new)) }
        ensures failed_call { result ≡ Err OpenRefusal.Failed → CountsOne (calls self.old) (calls self.new) }
        ensures no_call { result ≡ Err OpenRefusal.Memory → calls self.new ≡ calls self.old };
}
