// A vault whose calls fail where it was told so.
ghost use Rattle.std.specs.Prelude.{◌≡◌, ◌≢◌, ◌+◌, ◌≤◌, ◌==◌, ◌&&◌, ◌⊎◌, true, length, IfOk, IfSome, OnOk, Some};
ghost use Rattle.wk_base.specs.Calls.{IsNextToFail, after_failure, after_success, none_made};
ghost use Rattle.wk_base.specs.Faults.{Rose};
ghost use Rattle.wk_keeper.specs.CallCounts.{CountsOne};
ghost use Rattle.wk_keeper.specs.FailKeeper.{calls_of, inner_of};
ghost use Rattle.wk_keeper.specs.FailVault.{open_calls_of, store_fail_of, vault_of, whole_with};

use crate::fail_keeper::FailKeeper;
use crate::keeper::{OpenRefusal, Vault};
use wk_base::Calls;
use wk_memory::Memory;

/// A vault whose calls fail where it was told so; the others are those of the vault within it. Each store that it gives
/// is a keeper whose calls fail where the vault was told so. A call that answers `Memory` isn't counted. Its count of
/// faults is its own and that of the vault within, added.
#[derive(Drop)]
pub struct FailVault<V> {
    inner: V,
    calls: Calls,
    store_fail: Vec<u64>,
}

impl<V: Vault> FailVault<V> {
    /// The vault, of which the calls with the numbers of `fail`, counted from 1, fail; so do those calls of each store that
    /// `store_fail` lists. Takes no memory.
    pub fn over(inner: V, fail: Vec<u64>, store_fail: Vec<u64>) -> FailVault<V>
        ensures inner { vault_of result ≡ inner }
        ensures calls { open_calls_of result ≡ none_made fail.items }
        ensures store_fail { store_fail_of result ≡ store_fail.items }
    {
        FailVault {
            inner,
            calls: Calls::new(fail),
            store_fail,
        }
    }
}

fn copied(numbers: &Vec<u64>) -> Result<Vec<u64>, Memory>
    ensures { IfOk result (λ copied. copied.items ≡ numbers.now.items) }
{
    Ok(Vec::from_slice(*numbers.allocator(), numbers)?)
}

impl<V: Vault> Vault for FailVault<V> {
    type Store = FailKeeper<V::Store>;

    ghost told = { λ v. V.told v.inner };

    ghost opens_whole = { λ v. whole_with (V.opens_whole v.inner) v.store_fail.items };

    ghost faults = { λ v. V.faults v.inner + v.calls.faults };

    ghost calls = { λ v. Some v.calls.made };

    /// The store of the vault within, as one whose calls fail where they are to, unless this call is one that is to fail:
    /// then the vault within isn't touched, and only the counts change.
    fn open(&mut self, name: &str) -> Result<FailKeeper<V::Store>, OpenRefusal>
        ensures given { IfOk result (λ store. IfSome (V.told (vault_of self.old) name.now) (λ kept. V.Store.told (inner_of store) ≡ Some kept)) }
        ensures whole { IfOk result (λ store. whole_with (V.opens_whole (vault_of self.old)) (store_fail_of self.old) name.now ≡ true → (V.Store.is_whole (inner_of store) && length (calls_of store).to_fail == 0) ≡ true) }
        ensures no_faults { IfOk result (λ store. V.Store.faults (inner_of store) + (calls_of store).faults ≡ 0) }
        ensures tells { V.told (vault_of self.new) ≡ V.told (vault_of self.old) }
        ensures tells_whole { whole_with (V.opens_whole (vault_of self.new)) (store_fail_of self.new) ≡ whole_with (V.opens_whole (vault_of self.old)) (store_fail_of self.old) }
        ensures never_falls { V.faults (vault_of self.old) + (open_calls_of self.old).faults ≤ V.faults (vault_of self.new) + (open_calls_of self.new).faults }
        ensures no_fault { result ≢ Err OpenRefusal.Failed → V.faults (vault_of self.new) + (open_calls_of self.new).faults ≡ V.faults (vault_of self.old) + (open_calls_of self.old).faults }
        ensures cause { result ≡ Err OpenRefusal.Failed → Rose (V.faults (vault_of self.old) + (open_calls_of self.old).faults) (V.faults (vault_of self.new) + (open_calls_of self.new).faults) }
        ensures one_call { OnOk result (CountsOne (Some (open_calls_of self.old).made) (Some (open_calls_of self.new).made)) }
        ensures failed_call { result ≡ Err OpenRefusal.Failed → CountsOne (Some (open_calls_of self.old).made) (Some (open_calls_of self.new).made) }
        ensures no_call { result ≡ Err OpenRefusal.Memory → Some (open_calls_of self.new).made ≡ Some (open_calls_of self.old).made }

        ensures fails { IsNextToFail (open_calls_of self.old) → result ≡ Err OpenRefusal.Failed }
        ensures failed { IsNextToFail (open_calls_of self.old) → open_calls_of self.new ≡ after_failure (open_calls_of self.old) }
        ensures untouched { IsNextToFail (open_calls_of self.old) → vault_of self.new ≡ vault_of self.old }
        ensures cause_within { result ≡ Err OpenRefusal.Failed → IsNextToFail (open_calls_of self.old) ⊎ Rose (V.faults (vault_of self.old)) (V.faults (vault_of self.new)) }
        ensures counted { OnOk result (open_calls_of self.new ≡ after_success (open_calls_of self.old)) }
        ensures passed_on { ¬ IsNextToFail (open_calls_of self.old) → result ≡ Err OpenRefusal.Failed → open_calls_of self.new ≡ after_success (open_calls_of self.old) }
        ensures memory { result ≡ Err OpenRefusal.Memory → open_calls_of self.new ≡ open_calls_of self.old }
        ensures one_call_within { OnOk result (CountsOne (V.calls (vault_of self.old)) (V.calls (vault_of self.new))) }
        ensures failed_call_within { ¬ IsNextToFail (open_calls_of self.old) → result ≡ Err OpenRefusal.Failed → CountsOne (V.calls (vault_of self.old)) (V.calls (vault_of self.new)) }
        ensures no_call_within { result ≡ Err OpenRefusal.Memory → V.calls (vault_of self.new) ≡ V.calls (vault_of self.old) }
        ensures store_calls { IfOk result (λ store. calls_of store ≡ none_made (store_fail_of self.old)) }
        ensures store_fail { store_fail_of self.new ≡ store_fail_of self.old }
    {
        if self.calls.is_next_to_fail() {
            self.calls.fail();
            return Err(OpenRefusal::Failed);
        }
        let fail = copied(&self.store_fail)?;
        match self.inner.open(name) {
            Ok(store) => {
                self.calls.succeed();
                Ok(FailKeeper::new(store, fail))
            }
            Err(OpenRefusal::Failed) => {
                self.calls.succeed();
                Err(OpenRefusal::Failed)
            }
            Err(OpenRefusal::Memory) => Err(OpenRefusal::Memory),
        }
    }
}
