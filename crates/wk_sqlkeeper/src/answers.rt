//! What a keeper answers where the database refuses, and what it keeps of its calls.
ghost use Rattle.std.specs.Prelude.{◌≡◌, ◌↔◌, ◌≤◌, None, Some, IfErr, IfOk, OnOk, IsErr, IsSome};
ghost use Rattle.wk_base.specs.Faults.{one_more};
ghost use Rattle.wk_sqlkeeper.specs.Causes.{cause_of};

use crate::cause::{SqlCause, cause_of};
use sqlite::{Error, ErrorCode};
use wk_keeper::KeeperRefusal;
use wk_memory::Memory;

/// Want of memory, as the database tells it.
pub fn no_memory(_: Memory) -> Error
    ensures { result ≡ Error.SqliteFailure ErrorCode.OutOfMemory }
{
    Error::SqliteFailure(ErrorCode::OutOfMemory)
}

/// What a keeper answers where the database refuses for this cause: `Memory` exactly where memory was wanting.
pub fn refusal_of(cause: SqlCause) -> KeeperRefusal
    ensures { (result ≡ KeeperRefusal.Memory) ↔ (cause ≡ SqlCause.Memory) }
{
    match cause {
        SqlCause::Memory => KeeperRefusal::Memory,
        _ => KeeperRefusal::Failed,
    }
}

/// The leave to ask the database for one load or one change.
pub struct Permit {
    only: (),
}

impl Drop for Permit {
    fn drop(self) {
        let Permit { only: _ } = self;
    }
}

/// What a keeper keeps of its calls.
#[derive(Clone, Copy)]
pub struct Calls {
    made: u64,
    faults: u64,
    cause: Option<SqlCause>,
}

impl Calls {
    /// Before the first call.
    pub fn new() -> Calls
        ensures { result ≡ record { made = 0; faults = 0; cause = None } }
    {
        Calls {
            made: 0,
            faults: 0,
            cause: None,
        }
    }

    /// How many were made. It stops at the end of `u64`.
    pub fn made(&self) -> u64
        ensures { result ≡ self.now.made }
    {
        self.made
    }

    /// How many have failed. It stops at the end of `u64`.
    pub fn faults(&self) -> u64
        ensures { result ≡ self.now.faults }
    {
        self.faults
    }

    /// Why the last one was refused, if it was.
    pub fn cause(&self) -> Option<SqlCause>
        ensures { result ≡ self.now.cause }
    {
        self.cause
    }

    /// Counts a call that is made now, and gives the leave for it.
    pub fn permit(&mut self) -> Permit
        ensures { self.new ≡ record self.old { made = one_more self.old.made } }
    {
        self.made = self.made.saturating_add(1);
        Permit { only: () }
    }

    /// What the keeper answers where the database answers so to a call before which this many were made. The cause of a
    /// refusal is kept; it is counted unless memory was wanting, and then the call isn't counted either.
    pub fn answered<T: Drop>(
        &mut self,
        made: u64,
        answer: Result<T, Error>,
    ) -> Result<T, KeeperRefusal>
        ensures given { IfOk result (λ value. answer ≡ Ok value) }
        ensures refused { IfErr answer (λ _. IsErr result) }
        ensures only { IfErr result (λ _. IsErr answer) }
        ensures no_fault { OnOk result (self.new ≡ record self.old { cause = None }) }
        ensures memory { result ≡ Err KeeperRefusal.Memory → self.new ≡ record self.old { made = made; cause = Some SqlCause.Memory } }
        ensures failed { result ≡ Err KeeperRefusal.Failed → self.new ≡ record self.old { faults = one_more self.old.faults; cause = self.new.cause } }
        ensures never_falls { self.old.faults ≤ self.new.faults }
        ensures because { IfErr answer (λ error. self.new.cause ≡ Some (cause_of error)) }
        ensures why { IsErr result → IsSome self.new.cause }
        ensures no_memory { (self.new.cause ≡ Some SqlCause.Memory) ↔ (result ≡ Err KeeperRefusal.Memory) }
    {
        match answer {
            Ok(value) => {
                self.cause = None;
                Ok(value)
            }
            Err(error) => Err(self.refused(made, cause_of(error))),
        }
    }

    /// What the keeper answers where the database refuses for this cause, in a call before which this many were made.
    fn refused(&mut self, made: u64, cause: SqlCause) -> KeeperRefusal
        ensures memory { result ≡ KeeperRefusal.Memory → self.new ≡ record self.old { made = made; cause = Some cause } }
        ensures failed { result ≡ KeeperRefusal.Failed → self.new ≡ record self.old { faults = one_more self.old.faults; cause = Some cause } }
        ensures which { (result ≡ KeeperRefusal.Memory) ↔ (cause ≡ SqlCause.Memory) }
        ensures never_falls { self.old.faults ≤ self.new.faults }
        ensures kept { self.new.cause ≡ Some cause }
    {
        self.cause = Some(cause);
        let refusal = refusal_of(cause);
        match refusal {
            KeeperRefusal::Memory => self.made = made,
            KeeperRefusal::Failed => self.faults = self.faults.saturating_add(1),
        }
        refusal
    }
}
