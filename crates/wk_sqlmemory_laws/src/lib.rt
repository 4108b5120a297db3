//! Laws of a wiki over a SQLite database in memory: whatever it has seen, the database holds the tables of its state, and gives
//! them.
#![tactic(auto)]

ghost use Rattle.std.specs.Prelude.{◌≡◌, IfOk, None};
ghost use Rattle.sqlite.specs.Held.{state};
ghost use Rattle.sqlite.specs.Steps.{IsEmpty, over_memory};
ghost use Rattle.wk_table_rules.specs.Rows.{StoreTables, no_tables};
ghost use Rattle.wk_wiki_rules.specs.Tables.{tables_of};
ghost use Rattle.wk_wiki_rules.specs.Lives.{opened};
ghost use Rattle.wk_revs.specs.Edit.{most_held};
ghost use Rattle.wk_core.specs.Limits.{AreWithinFull};
ghost use Rattle.wk_sqlkeeper.specs.Kept.{IsInRange};
ghost use Rattle.wk_sqlkeeper.specs.Older.{KeepsOlder};
ghost use Rattle.wk_sqlmemory.specs.Told.{KeepsOlderTables, tables_in};

use sqlite::{Connection, MemStore};
use std::alloc::Global;
use wk_core::{Keeper, KeeperRefusal, Limits, LoadRefusal, Tables, Wiki};
use wk_sqlmemory::SqlMemory;

/// A wiki over an empty database in memory is that of a new store: no page, no revision and no job, and its journal isn't
/// sealed. Where the database or the wiki is refused the connection is handed back.
pub fn a_new_database_has_a_new_wiki(
    alloc: Global,
    connection: Connection<MemStore>,
    limits: Limits,
) -> Result<Wiki<SqlMemory>, Connection<MemStore>>
    requires empty { IsEmpty (state over_memory connection) }
    requires within { AreWithinFull (most_held limits) }
    ensures state { IfOk result (λ wiki. wiki.state ≡ opened no_tables) }
    ensures unsealed { IfOk result (λ wiki. wiki.start.sealed ≡ None) }
{
    match SqlMemory::adopt(alloc, connection) {
        Ok(keeper) => match Wiki::load(alloc, keeper, limits) {
            Ok(wiki) => Ok(wiki),
            Err(LoadRefusal { keeper, cause: _ }) => Err(keeper.release()),
        },
        Err((connection, _)) => Err(connection),
    }
}

/// A wiki over the database of an older store, which has no table redirect, is that of the store's tables, each page of which is
/// queued where they are of version 1.
pub fn an_older_database_has_its_wiki(
    alloc: Global,
    connection: Connection<MemStore>,
    limits: Limits,
) -> Result<Wiki<SqlMemory>, Connection<MemStore>>
    requires older { ∥ KeepsOlderTables (state over_memory connection) ∥₁ }
    requires within { AreWithinFull (most_held limits) }
    ensures { IfOk result (λ wiki. (tables : StoreTables) → KeepsOlder (state over_memory connection) tables → IsInRange tables → wiki.state ≡ opened tables) }
{
    match SqlMemory::adopt(alloc, connection) {
        Ok(keeper) => match Wiki::load(alloc, keeper, limits) {
            Ok(wiki) => Ok(wiki),
            Err(LoadRefusal { keeper, cause: _ }) => Err(keeper.release()),
        },
        Err((connection, _)) => Err(connection),
    }
}

/// A wiki that is given up, and opened again over its database, begins a life of its state.
pub fn a_wiki_is_opened_again(
    alloc: Global,
    wiki: Wiki<SqlMemory>,
    limits: Limits,
) -> Result<Wiki<SqlMemory>, Connection<MemStore>>
    requires { AreWithinFull (most_held limits) }
    ensures { IfOk result (λ again. again.state ≡ opened (tables_of wiki.state)) }
{
    let connection = wiki.release().release();
    match SqlMemory::adopt(alloc, connection) {
        Ok(keeper) => match Wiki::load(alloc, keeper, limits) {
            Ok(wiki) => Ok(wiki),
            Err(LoadRefusal { keeper, cause: _ }) => Err(keeper.release()),
        },
        Err((connection, _)) => Err(connection),
    }
}

/// Whatever events a wiki over a database in memory has seen, its keeper gives the tables of its state, once it is given up.
pub fn the_released_keeper_gives_the_tables(wiki: Wiki<SqlMemory>) -> Result<Tables, KeeperRefusal>
    ensures { IfOk result (λ tables. tables.tables ≡ tables_of wiki.state) }
{
    let mut keeper = wiki.release();
    keeper.load()
}

/// The trees of its database hold these tables too.
pub fn the_released_database_holds_the_tables(wiki: Wiki<SqlMemory>) -> Connection<MemStore>
    ensures { tables_in (state over_memory result).now.trees ≡ tables_of wiki.state }
{
    wiki.release().release()
}
