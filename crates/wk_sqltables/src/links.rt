//! The statements on the link tables pagelinks, templatelinks and existlinks.
ghost use Rattle.std.specs.Prelude.{◌≡◌, ◌==◌, pos, [], ◌∷◌, ◌++◌, map, filter, not, OnOk, IsTrue};
ghost use Rattle.sqlite_value.specs.declared.value.Value.TheVariants.{Int, Text as TextValue};
ghost use Rattle.sqlite.specs.Held.{state};
ghost use Rattle.sqlite.specs.State.{ExecutesInside, HasCleanDisk, KeepsCommit, Survives};
ghost use Rattle.wk_table_rules.specs.Changes.{link_row};
ghost use Rattle.wk_sqltables.specs.declared.links.LinkTable.{LinkTable as AnyTable};
ghost use Rattle.wk_sqltables.specs.Entries.{link_values};
ghost use Rattle.wk_sqltables.specs.Held.{RewritesAll};
ghost use Rattle.wk_sqltables.specs.LinkTables.{SetsLinks, tree_of, drop_links_text, add_link_text};

use sqlite::types::ValueRef;
use sqlite::{Alter, Error, Statement, Transaction};
use wk_title::Title;

/// A link table: those of one form.
#[derive(Clone, Copy)]
pub enum LinkTable {
    Pagelinks,
    Templatelinks,
    Existlinks,
}

/// The page that rows are of: its number, and the namespace of its title.
#[derive(Clone, Copy)]
pub struct FromPage {
    pub page: u32,
    pub namespace: i64,
}

fn drop_text(table: LinkTable) -> &'static str
    ensures { result.now ≡ drop_links_text table }
{
    match table {
        LinkTable::Pagelinks => "DELETE FROM pagelinks WHERE pl_from = ?1",
        LinkTable::Templatelinks => "DELETE FROM templatelinks WHERE tl_from = ?1",
        LinkTable::Existlinks => "DELETE FROM existlinks WHERE el_from = ?1",
    }
}

fn add_text(table: LinkTable) -> &'static str
    ensures { result.now ≡ add_link_text table }
{
    match table {
        LinkTable::Pagelinks => {
            "INSERT INTO pagelinks (pl_from, pl_from_namespace, pl_namespace, pl_title) VALUES (?1, ?2, ?3, ?4)"
        }
        LinkTable::Templatelinks => {
            "INSERT INTO templatelinks (tl_from, tl_from_namespace, tl_namespace, tl_title) VALUES (?1, ?2, ?3, ?4)"
        }
        LinkTable::Existlinks => {
            "INSERT INTO existlinks (el_from, el_from_namespace, el_namespace, el_title) VALUES (?1, ?2, ?3, ?4)"
        }
    }
}

fn run_drop<S: Alter>(
    transaction: &mut Transaction<'_, S>,
    text: &str,
    page: i64,
) -> Result<usize, Error>
    ensures same { transaction.new.conn.ghost_name ≡ transaction.old.conn.ghost_name }
    ensures runs { HasCleanDisk (state S.Store transaction.new.conn.now) → IsTrue (state S.Store transaction.old.conn.now).in_transaction → ExecutesInside 0 text.now (Int page ∷ []) (state S.Store transaction.old.conn.now) (state S.Store transaction.new.conn.now) result }
    ensures survives { Survives (state S.Store transaction.old.conn.now) (state S.Store transaction.new.conn.now) (λ _. ⊥) }
{
    transaction.execute(text, &[ValueRef::Int(page)])
}

/// Takes away the rows of the page in the table.
fn drop_links<S: Alter>(
    transaction: &mut Transaction<'_, S>,
    table: LinkTable,
    page: u32,
) -> Result<(), Error>
    ensures same { transaction.new.conn.ghost_name ≡ transaction.old.conn.ghost_name }
    ensures made { HasCleanDisk (state S.Store transaction.new.conn.now) → OnOk result (RewritesAll (tree_of table) link_values (filter (λ link. not (link.from == page))) (state S.Store transaction.old.conn.now) (state S.Store transaction.new.conn.now)) }
    ensures inside { HasCleanDisk (state S.Store transaction.new.conn.now) → OnOk result (IsTrue (state S.Store transaction.old.conn.now).in_transaction → IsTrue (state S.Store transaction.new.conn.now).in_transaction) }
    ensures kept { HasCleanDisk (state S.Store transaction.new.conn.now) → IsTrue (state S.Store transaction.old.conn.now).in_transaction → KeepsCommit (state S.Store transaction.old.conn.now) (state S.Store transaction.new.conn.now) }
    ensures survives { Survives (state S.Store transaction.old.conn.now) (state S.Store transaction.new.conn.now) (λ _. ⊥) }
{
    run_drop(transaction, drop_text(table), i64::from(page))?;
    Ok(())
}

fn run_add<S: Alter>(
    transaction: &mut Transaction<'_, S>,
    insert: &Statement,
    page: i64,
    namespace: i64,
    target: i64,
    title: &str,
) -> Result<usize, Error>
    ensures same { transaction.new.conn.ghost_name ≡ transaction.old.conn.ghost_name }
    ensures runs { HasCleanDisk (state S.Store transaction.new.conn.now) → IsTrue (state S.Store transaction.old.conn.now).in_transaction → ExecutesInside 0 insert.now.text (Int page ∷ Int namespace ∷ Int target ∷ TextValue title.now ∷ []) (state S.Store transaction.old.conn.now) (state S.Store transaction.new.conn.now) result }
    ensures survives { Survives (state S.Store transaction.old.conn.now) (state S.Store transaction.new.conn.now) (λ _. ⊥) }
{
    transaction.execute_prepared(
        insert,
        &[
            ValueRef::Int(page),
            ValueRef::Int(namespace),
            ValueRef::Int(target),
            ValueRef::Text(title.as_bytes()),
        ],
    )
}

fn add_link<S: Alter>(
    transaction: &mut Transaction<'_, S>,
    insert: &Statement,
    from: FromPage,
    title: &Title,
) -> Result<usize, Error>
    ensures same { transaction.new.conn.ghost_name ≡ transaction.old.conn.ghost_name }
    ensures runs { HasCleanDisk (state S.Store transaction.new.conn.now) → IsTrue (state S.Store transaction.old.conn.now).in_transaction → ExecutesInside 0 insert.now.text (link_values (link_row from.page from.namespace title.now)) (state S.Store transaction.old.conn.now) (state S.Store transaction.new.conn.now) result }
    ensures survives { Survives (state S.Store transaction.old.conn.now) (state S.Store transaction.new.conn.now) (λ _. ⊥) }
{
    run_add(
        transaction,
        insert,
        i64::from(from.page),
        from.namespace,
        i64::from(title.ns()),
        title.key(),
    )
}

/// Adds a row of the page for each title, by the statement that adds one.
fn add_each<S: Alter>(
    transaction: &mut Transaction<'_, S>,
    insert: &Statement,
    from: FromPage,
    titles: &[Title],
) -> Result<(), Error>
    ensures same { transaction.new.conn.ghost_name ≡ transaction.old.conn.ghost_name }
    ensures made { HasCleanDisk (state S.Store transaction.new.conn.now) → OnOk result ((table : AnyTable) → insert.now.text ≡ add_link_text table → RewritesAll (tree_of table) link_values (λ links. links ++ map (link_row from.page from.namespace) titles.now) (state S.Store transaction.old.conn.now) (state S.Store transaction.new.conn.now)) }
    ensures inside { HasCleanDisk (state S.Store transaction.new.conn.now) → OnOk result (IsTrue (state S.Store transaction.old.conn.now).in_transaction → IsTrue (state S.Store transaction.new.conn.now).in_transaction) }
    ensures kept { HasCleanDisk (state S.Store transaction.new.conn.now) → IsTrue (state S.Store transaction.old.conn.now).in_transaction → KeepsCommit (state S.Store transaction.old.conn.now) (state S.Store transaction.new.conn.now) }
    ensures survives { Survives (state S.Store transaction.old.conn.now) (state S.Store transaction.new.conn.now) (λ _. ⊥) }
{
    'titles: for title in titles {
        add_link(transaction, insert, from, title)?;
    }
    Ok(())
}

/// Adds a row of the page for each title.
fn add_links<S: Alter>(
    transaction: &mut Transaction<'_, S>,
    table: LinkTable,
    from: FromPage,
    titles: &[Title],
) -> Result<(), Error>
    ensures same { transaction.new.conn.ghost_name ≡ transaction.old.conn.ghost_name }
    ensures made { HasCleanDisk (state S.Store transaction.new.conn.now) → OnOk result (RewritesAll (tree_of table) link_values (λ links. links ++ map (link_row from.page from.namespace) titles.now) (state S.Store transaction.old.conn.now) (state S.Store transaction.new.conn.now)) }
    ensures inside { HasCleanDisk (state S.Store transaction.new.conn.now) → OnOk result (IsTrue (state S.Store transaction.old.conn.now).in_transaction → IsTrue (state S.Store transaction.new.conn.now).in_transaction) }
    ensures kept { HasCleanDisk (state S.Store transaction.new.conn.now) → IsTrue (state S.Store transaction.old.conn.now).in_transaction → KeepsCommit (state S.Store transaction.old.conn.now) (state S.Store transaction.new.conn.now) }
    ensures survives { Survives (state S.Store transaction.old.conn.now) (state S.Store transaction.new.conn.now) (λ _. ⊥) }
{
    if titles.is_empty() {
        return Ok(());
    }
    let insert = transaction.prepare(add_text(table))?;
    add_each(transaction, &insert, from, titles)
}

/// Makes these all rows of the page in the table, one for each title.
pub fn set_links<S: Alter>(
    transaction: &mut Transaction<'_, S>,
    table: LinkTable,
    from: FromPage,
    titles: &[Title],
) -> Result<(), Error>
    ensures same { transaction.new.conn.ghost_name ≡ transaction.old.conn.ghost_name }
    ensures made { HasCleanDisk (state S.Store transaction.new.conn.now) → OnOk result (SetsLinks table (state S.Store transaction.old.conn.now) (state S.Store transaction.new.conn.now) from.page from.namespace titles.now) }
    ensures inside { HasCleanDisk (state S.Store transaction.new.conn.now) → OnOk result (IsTrue (state S.Store transaction.old.conn.now).in_transaction → IsTrue (state S.Store transaction.new.conn.now).in_transaction) }
    ensures kept { HasCleanDisk (state S.Store transaction.new.conn.now) → IsTrue (state S.Store transaction.old.conn.now).in_transaction → KeepsCommit (state S.Store transaction.old.conn.now) (state S.Store transaction.new.conn.now) }
    ensures survives { Survives (state S.Store transaction.old.conn.now) (state S.Store transaction.new.conn.now) (λ _. ⊥) }
{
    drop_links(transaction, table, from.page)?;
    add_links(transaction, table, from, titles)
}
