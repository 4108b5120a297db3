//! Keepers and vaults in memory whose calls fail where they were told so.
ghost use Rattle.std.specs.Prelude.{◌≡◌, ◌∷◌, [], IfOk};
ghost use Rattle.wk_table_rules.specs.Changes.{set_version};

use std::alloc::Global;
use std::test::Fail;
use wk_keeper::{
    FailKeeper, Keeper, KeeperRefusal, ListVault, MemKeeper, MemVault, OpenRefusal, Vault,
};
use wk_memory::Memory;
use wk_tables::{Change, RowEdit, TableRows, Tables};

/// A change that sets the version, which fits any tables.
fn version(alloc: Global) -> Result<Change, Memory>
    ensures { IfOk result (λ change. change ≡ set_version 5 ∷ []) }
{
    let mut edits = Vec::new(alloc);
    edits.push(RowEdit::SetVersion(5))?;
    Ok(Change { edits })
}

/// The version of the tables that a keeper gives.
fn loaded<K: Keeper>(keeper: &mut K) -> Result<u64, KeeperRefusal> {
    let tables = keeper.load()?;
    Ok(tables.version())
}

/// The version that a change sets, where it is made.
fn version_of(changed: Result<(), KeeperRefusal>) -> Result<u64, KeeperRefusal> {
    match changed {
        Ok(()) => Ok(5),
        Err(refusal) => Err(refusal),
    }
}

/// What a load, a change and another load answer.
fn three_calls(
    keeper: &mut FailKeeper<MemKeeper>,
    change: &Change,
) -> [Result<u64, KeeperRefusal>; 3]
    requires { change.now ≡ set_version 5 ∷ [] }
{
    let first = loaded(keeper);
    let changed = keeper.apply(change);
    [first, version_of(changed), loaded(keeper)]
}

/// What loads and changes of a keeper answer, of which these fail.
fn calls(alloc: Global, fail: &[u64]) -> Result<String, Memory> {
    let change = version(alloc)?;
    let kept = MemKeeper::new(Tables::new(alloc));
    let mut keeper = FailKeeper::new(kept, fail.to_vec(alloc)?);
    let first = three_calls(&mut keeper, &change);
    let then = three_calls(&mut keeper, &change);
    Ok(format!(in alloc; "{first:?} {then:?}")?)
}

#[test]
fn listed_calls_fail(rt: HostRuntime) -> Result<(), Fail> {
    for (fail, want) in [
        ([0, 0], "[Ok(2), Ok(5), Ok(5)] [Ok(5), Ok(5), Ok(5)]"),
        (
            [2, 4],
            "[Ok(2), Err(Failed), Ok(2)] [Err(Failed), Ok(5), Ok(5)]",
        ),
    ] {
        let told = calls(rt.alloc(), &fail)?;
        assert_eq!(rt; told.as_str(), want);
    }
    Ok(())
}

/// Tables of this version, under a name.
fn named(alloc: Global, name: &str, version: u64) -> Result<(String, Tables), Memory> {
    let mut rows = TableRows::new(alloc);
    rows.version = version;
    Ok((
        String::from_str(alloc, name)?,
        Tables::from_rows(alloc, rows)?,
    ))
}

/// Stores of two names, one of them empty, and a second store of one of them.
fn stores(alloc: Global) -> Result<Vec<(String, Tables)>, Memory> {
    let mut stores = Vec::new(alloc);
    for (name, version) in [("a", 7), ("", 8), ("a", 9)] {
        stores.push(named(alloc, name, version)?)?;
    }
    Ok(stores)
}

/// The versions of the tables that the store of a name gives at two loads, unless it can't be opened.
fn opened<V: Vault>(
    vault: &mut V,
    name: &str,
) -> Result<[Result<u64, KeeperRefusal>; 2], OpenRefusal> {
    let mut store = vault.open(name)?;
    Ok([loaded(&mut store), loaded(&mut store)])
}

/// What a vault answers where these names are opened, one after the other.
fn all_opened<V: Vault>(alloc: Global, vault: &mut V, names: &[&str]) -> Result<String, Memory> {
    let mut told = String::new(alloc);
    'names: for name in names {
        let answer = opened(vault, name);
        told.push_str(&format!(in alloc; "{answer:?} ")?)?;
    }
    Ok(told)
}

/// What a vault answers whose second call fails, as does the first one of each store.
fn failing_opened(alloc: Global, names: &[&str]) -> Result<String, Memory> {
    let (second, first) = ([2].to_vec(alloc)?, [1].to_vec(alloc)?);
    let mut vault = MemVault::new(stores(alloc)?, second, first);
    all_opened(alloc, &mut vault, names)
}

/// What a vault answers of which no call fails.
fn listed_opened(alloc: Global, names: &[&str]) -> Result<String, Memory> {
    let mut vault = ListVault::new(stores(alloc)?);
    all_opened(alloc, &mut vault, names)
}

#[test]
fn stores_are_opened_by_their_names(rt: HostRuntime) -> Result<(), Fail> {
    let told = listed_opened(rt.alloc(), &["a", "", "b", "a"])?;
    assert_eq!(rt;
        told.as_str(),
        "Ok([Ok(7), Ok(7)]) Ok([Ok(8), Ok(8)]) Ok([Ok(2), Ok(2)]) Ok([Ok(7), Ok(7)]) "
    );
    Ok(())
}

#[test]
fn calls_of_a_vault_fail(rt: HostRuntime) -> Result<(), Fail> {
    let told = failing_opened(rt.alloc(), &["a", "a", ""])?;
    assert_eq!(rt;
        told.as_str(),
        "Ok([Err(Failed), Ok(7)]) Err(Failed) Ok([Err(Failed), Ok(8)]) "
    );
    Ok(())
}

#[test]
fn the_texts_of_refusals(rt: HostRuntime) -> Result<(), Fail> {
    let (failed, memory) = (KeeperRefusal::Failed, KeeperRefusal::Memory);
    let (closed, wanting) = (OpenRefusal::Failed, OpenRefusal::Memory);
    let told = format!(in rt.alloc(); "{failed}, {memory}, {closed}, {wanting}")?;
    assert_eq!(rt;
        told.as_str(),
        "the store failed, out of memory, the store can't be opened, out of memory"
    );
    Ok(())
}
