// A keeper whose calls fail where it was told so.
ghost use Rattle.std.specs.Prelude.{◌≡◌, ◌≢◌, ◌+◌, ◌≤◌, ◌==◌, ◌&&◌, ◌⊎◌, true, length, IfOk, IfSome, OnErr, OnOk, Some, is_some};
ghost use Rattle.wk_base.specs.Calls.{IsNextToFail, after_failure, after_success, none_made};
ghost use Rattle.wk_base.specs.Faults.{Rose};
ghost use Rattle.wk_table_rules.specs.Changes.{applied, fits};
ghost use Rattle.wk_keeper.specs.CallCounts.{CountsOne};
ghost use Rattle.wk_keeper.specs.FailKeeper.{calls_of, inner_of};

use crate::keeper::{Keeper, KeeperRefusal};
use wk_base::Calls;
use wk_tables::{Change, Tables};

/// A keeper whose calls fail where it was told so; the others are those of the keeper within it. Calls of `load` and of
/// `apply` are counted together, and a call that answers `Memory` isn't counted. It is whole where the keeper within is
/// whole and none of its calls is to fail. Its count of faults is its own and that of the keeper within, added.
#[derive(Drop)]
pub struct FailKeeper<K> {
    inner: K,
    calls: Calls,
}

impl<K: Keeper> FailKeeper<K> {
    /// The keeper, of which the calls with the numbers of `fail`, counted from 1, fail. Takes no memory.
    pub fn new(inner: K, fail: Vec<u64>) -> FailKeeper<K>
        ensures inner { inner_of result ≡ inner }
        ensures calls { calls_of result ≡ none_made fail.items }
    {
        FailKeeper {
            inner,
            calls: Calls::new(fail),
        }
    }
}

/// Counts a call that the keeper within answered so. One that answers `Memory` isn't counted.
fn count_answer<T>(calls: &mut Calls, answer: &Result<T, KeeperRefusal>)
    ensures to_fail { calls.new.to_fail ≡ calls.old.to_fail }
    ensures faults { calls.new.faults ≡ calls.old.faults }
    ensures counted { OnOk answer.now (calls.new ≡ after_success calls.old) }
    ensures passed_on { answer.now ≡ Err KeeperRefusal.Failed → calls.new ≡ after_success calls.old }
    ensures memory { answer.now ≡ Err KeeperRefusal.Memory → calls.new ≡ calls.old }
{
    match answer {
        Err(KeeperRefusal::Memory) => {}
        Ok(_) | Err(KeeperRefusal::Failed) => calls.succeed(),
    }
}

impl<K: Keeper> Keeper for FailKeeper<K> {
    ghost told = { λ k. K.told k.inner };

    ghost faults = { λ k. K.faults k.inner + k.calls.faults };

    ghost is_whole = { λ k. K.is_whole k.inner && length k.calls.to_fail == 0 };

    ghost calls = { λ k. Some k.calls.made };

    /// The tables of the keeper within, unless this call is one that is to fail: then the keeper within isn't touched, and
    /// only the counts change.
    fn load(&mut self) -> Result<Tables, KeeperRefusal>
        ensures given { IfOk result (λ tables. IfSome (K.told (inner_of self.old)) (λ kept. tables.tables ≡ kept)) }
        ensures tables { K.told (inner_of self.new) ≡ K.told (inner_of self.old) }
        ensures stays_whole { (K.is_whole (inner_of self.new) && length (calls_of self.new).to_fail == 0) ≡ (K.is_whole (inner_of self.old) && length (calls_of self.old).to_fail == 0) }
        ensures never_falls { K.faults (inner_of self.old) + (calls_of self.old).faults ≤ K.faults (inner_of self.new) + (calls_of self.new).faults }
        ensures whole { (K.is_whole (inner_of self.old) && length (calls_of self.old).to_fail == 0) ≡ true → K.faults (inner_of self.new) + (calls_of self.new).faults ≡ K.faults (inner_of self.old) + (calls_of self.old).faults }
        ensures no_fault { result ≢ Err KeeperRefusal.Failed → K.faults (inner_of self.new) + (calls_of self.new).faults ≡ K.faults (inner_of self.old) + (calls_of self.old).faults }
        ensures cause { result ≡ Err KeeperRefusal.Failed → Rose (K.faults (inner_of self.old) + (calls_of self.old).faults) (K.faults (inner_of self.new) + (calls_of self.new).faults) }
        ensures one_call { OnOk result (CountsOne (Some (calls_of self.old).made) (Some (calls_of self.new).made)) }
        ensures failed_call { result ≡ Err KeeperRefusal.Failed → CountsOne (Some (calls_of self.old).made) (Some (calls_of self.new).made) }
        ensures no_call { result ≡ Err KeeperRefusal.Memory → Some (calls_of self.new).made ≡ Some (calls_of self.old).made }

        ensures fails { IsNextToFail (calls_of self.old) → result ≡ Err KeeperRefusal.Failed }
        ensures failed { IsNextToFail (calls_of self.old) → calls_of self.new ≡ after_failure (calls_of self.old) }
        ensures untouched { IsNextToFail (calls_of self.old) → inner_of self.new ≡ inner_of self.old }
        ensures cause_within { result ≡ Err KeeperRefusal.Failed → IsNextToFail (calls_of self.old) ⊎ Rose (K.faults (inner_of self.old)) (K.faults (inner_of self.new)) }
        ensures counted { OnOk result (calls_of self.new ≡ after_success (calls_of self.old)) }
        ensures passed_on { ¬ IsNextToFail (calls_of self.old) → result ≡ Err KeeperRefusal.Failed → calls_of self.new ≡ after_success (calls_of self.old) }
        ensures memory { result ≡ Err KeeperRefusal.Memory → calls_of self.new ≡ calls_of self.old }
        ensures one_call_within { OnOk result (CountsOne (K.calls (inner_of self.old)) (K.calls (inner_of self.new))) }
        ensures failed_call_within { ¬ IsNextToFail (calls_of self.old) → result ≡ Err KeeperRefusal.Failed → CountsOne (K.calls (inner_of self.old)) (K.calls (inner_of self.new)) }
        ensures no_call_within { result ≡ Err KeeperRefusal.Memory → K.calls (inner_of self.new) ≡ K.calls (inner_of self.old) }
    {
        if self.calls.is_next_to_fail() {
            self.calls.fail();
            return Err(KeeperRefusal::Failed);
        }
        let answer = self.inner.load();
        count_answer(&mut self.calls, &answer);
        answer
    }

    /// Makes the change in the keeper within, unless this call is one that is to fail: then the keeper within isn't
    /// touched, and only the counts change.
    fn apply(&mut self, change: &Change) -> Result<(), KeeperRefusal>
        requires { IfSome (K.told (inner_of self.old)) (λ kept. fits kept change.now ≡ true) }
        ensures made { OnOk result (IfSome (K.told (inner_of self.old)) (λ kept. K.told (inner_of self.new) ≡ Some (applied kept change.now))) }
        ensures refused { OnErr result (K.told (inner_of self.new) ≡ K.told (inner_of self.old)) }
        ensures tells { is_some (K.told (inner_of self.new)) ≡ is_some (K.told (inner_of self.old)) }
        ensures stays_whole { (K.is_whole (inner_of self.new) && length (calls_of self.new).to_fail == 0) ≡ (K.is_whole (inner_of self.old) && length (calls_of self.old).to_fail == 0) }
        ensures never_falls { K.faults (inner_of self.old) + (calls_of self.old).faults ≤ K.faults (inner_of self.new) + (calls_of self.new).faults }
        ensures whole { (K.is_whole (inner_of self.old) && length (calls_of self.old).to_fail == 0) ≡ true → K.faults (inner_of self.new) + (calls_of self.new).faults ≡ K.faults (inner_of self.old) + (calls_of self.old).faults }
        ensures no_fault { result ≢ Err KeeperRefusal.Failed → K.faults (inner_of self.new) + (calls_of self.new).faults ≡ K.faults (inner_of self.old) + (calls_of self.old).faults }
        ensures cause { result ≡ Err KeeperRefusal.Failed → Rose (K.faults (inner_of self.old) + (calls_of self.old).faults) (K.faults (inner_of self.new) + (calls_of self.new).faults) }
        ensures one_call { OnOk result (CountsOne (Some (calls_of self.old).made) (Some (calls_of self.new).made)) }
        ensures failed_call { result ≡ Err KeeperRefusal.Failed → CountsOne (Some (calls_of self.old).made) (Some (calls_of self.new).made) }
        ensures no_call { result ≡ Err KeeperRefusal.Memory → Some (calls_of self.new).made ≡ Some (calls_of self.old).made }

        ensures fails { IsNextToFail (calls_of self.old) → result ≡ Err KeeperRefusal.Failed }
        ensures failed { IsNextToFail (calls_of self.old) → calls_of self.new ≡ after_failure (calls_of self.old) }
        ensures untouched { IsNextToFail (calls_of self.old) → inner_of self.new ≡ inner_of self.old }
        ensures cause_within { result ≡ Err KeeperRefusal.Failed → IsNextToFail (calls_of self.old) ⊎ Rose (K.faults (inner_of self.old)) (K.faults (inner_of self.new)) }
        ensures counted { OnOk result (calls_of self.new ≡ after_success (calls_of self.old)) }
        ensures passed_on { ¬ IsNextToFail (calls_of self.old) → result ≡ Err KeeperRefusal.Failed → calls_of self.new ≡ after_success (calls_of self.old) }
        ensures memory { result ≡ Err KeeperRefusal.Memory → calls_of self.new ≡ calls_of self.old }
        ensures one_call_within { OnOk result (CountsOne (K.calls (inner_of self.old)) (K.calls (inner_of self.new))) }
        ensures failed_call_within { ¬ IsNextToFail (calls_of self.old) → result ≡ Err KeeperRefusal.Failed → CountsOne (K.calls (inner_of self.old)) (K.calls (inner_of self.new)) }
        ensures no_call_within { result ≡ Err KeeperRefusal.Memory → K.calls (inner_of self.new) ≡ K.calls (inner_of self.old) }
    {
        if self.calls.is_next_to_fail() {
            self.calls.fail();
            return Err(KeeperRefusal::Failed);
        }
        let answer = self.inner.apply(change);
        count_answer(&mut self.calls, &answer);
        answer
    }
}
