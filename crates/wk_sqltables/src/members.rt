//! The statements on the table categorylinks.
ghost use Rattle.std.specs.Prelude.{◌≡◌, ◌==◌, [], ◌∷◌, ◌++◌, map, filter, not, OnOk, IsTrue};
ghost use Rattle.sqlite_value.specs.declared.value.Value.TheVariants.{Int, Text as TextValue};
ghost use Rattle.sqlite.specs.Held.{state};
ghost use Rattle.sqlite.specs.State.{ExecutesInside, HasCleanDisk, KeepsCommit, Survives};
ghost use Rattle.wk_table_rules.specs.Changes.{category_row};
ghost use Rattle.wk_table_rows.specs.Members.{member_of};
ghost use Rattle.wk_sqltables.specs.Entries.{member_values};
ghost use Rattle.wk_sqltables.specs.Held.{RewritesAll};
ghost use Rattle.wk_sqltables.specs.Members.{SetsMembers};
ghost use Rattle.wk_sqltables.specs.Statements.{drop_members_text, add_member_text};

use sqlite::types::ValueRef;
use sqlite::{Alter, Error, Statement, Transaction};
use wk_bytes::Text;
use wk_title::Title;

fn run_drop<S: Alter>(transaction: &mut Transaction<'_, S>, page: i64) -> Result<usize, Error>
    ensures same { transaction.new.conn.ghost_name ≡ transaction.old.conn.ghost_name }
    ensures runs { HasCleanDisk (state S.Store transaction.new.conn.now) → IsTrue (state S.Store transaction.old.conn.now).in_transaction → ExecutesInside 0 drop_members_text (Int page ∷ []) (state S.Store transaction.old.conn.now) (state S.Store transaction.new.conn.now) result }
    ensures survives { Survives (state S.Store transaction.old.conn.now) (state S.Store transaction.new.conn.now) (λ _. ⊥) }
{
    transaction.execute(
        "DELETE FROM categorylinks WHERE cl_from = ?1",
        &[ValueRef::Int(page)],
    )
}

/// Takes away the members of the page.
fn drop_members<S: Alter>(transaction: &mut Transaction<'_, S>, page: u32) -> Result<(), Error>
    ensures same { transaction.new.conn.ghost_name ≡ transaction.old.conn.ghost_name }
    ensures made { HasCleanDisk (state S.Store transaction.new.conn.now) → OnOk result (RewritesAll 9 member_values (filter (λ member. not (member.cl_from == page))) (state S.Store transaction.old.conn.now) (state S.Store transaction.new.conn.now)) }
    ensures inside { HasCleanDisk (state S.Store transaction.new.conn.now) → OnOk result (IsTrue (state S.Store transaction.old.conn.now).in_transaction → IsTrue (state S.Store transaction.new.conn.now).in_transaction) }
    ensures kept { HasCleanDisk (state S.Store transaction.new.conn.now) → IsTrue (state S.Store transaction.old.conn.now).in_transaction → KeepsCommit (state S.Store transaction.old.conn.now) (state S.Store transaction.new.conn.now) }
    ensures survives { Survives (state S.Store transaction.old.conn.now) (state S.Store transaction.new.conn.now) (λ _. ⊥) }
{
    run_drop(transaction, i64::from(page))?;
    Ok(())
}

fn run_add<'a, S: Alter>(
    transaction: &mut Transaction<'_, S>,
    insert: &Statement,
    page: i64,
    category: &'a str,
    sortkey: &'a str,
    prefix: &'a str,
) -> Result<usize, Error>
    ensures same { transaction.new.conn.ghost_name ≡ transaction.old.conn.ghost_name }
    ensures runs { HasCleanDisk (state S.Store transaction.new.conn.now) → IsTrue (state S.Store transaction.old.conn.now).in_transaction → ExecutesInside 0 insert.now.text (Int page ∷ TextValue category.now ∷ TextValue sortkey.now ∷ TextValue prefix.now ∷ []) (state S.Store transaction.old.conn.now) (state S.Store transaction.new.conn.now) result }
    ensures survives { Survives (state S.Store transaction.old.conn.now) (state S.Store transaction.new.conn.now) (λ _. ⊥) }
{
    transaction.execute_prepared(
        insert,
        &[
            ValueRef::Int(page),
            ValueRef::Text(category.as_bytes()),
            ValueRef::Text(sortkey.as_bytes()),
            ValueRef::Text(prefix.as_bytes()),
        ],
    )
}

fn add_member<S: Alter>(
    transaction: &mut Transaction<'_, S>,
    insert: &Statement,
    page: u32,
    member: &(Title, Text, Text),
) -> Result<usize, Error>
    ensures same { transaction.new.conn.ghost_name ≡ transaction.old.conn.ghost_name }
    ensures runs { HasCleanDisk (state S.Store transaction.new.conn.now) → IsTrue (state S.Store transaction.old.conn.now).in_transaction → ExecutesInside 0 insert.now.text (member_values (category_row page (member_of member.now))) (state S.Store transaction.old.conn.now) (state S.Store transaction.new.conn.now) result }
    ensures survives { Survives (state S.Store transaction.old.conn.now) (state S.Store transaction.new.conn.now) (λ _. ⊥) }
{
    run_add(
        transaction,
        insert,
        i64::from(page),
        member.0.key(),
        member.1.as_str(),
        member.2.as_str(),
    )
}

/// Adds a row of the page for each member, by the statement that adds one.
fn add_each<S: Alter>(
    transaction: &mut Transaction<'_, S>,
    insert: &Statement,
    page: u32,
    members: &[(Title, Text, Text)],
) -> Result<(), Error>
    ensures same { transaction.new.conn.ghost_name ≡ transaction.old.conn.ghost_name }
    ensures made { HasCleanDisk (state S.Store transaction.new.conn.now) → OnOk result (insert.now.text ≡ add_member_text → RewritesAll 9 member_values (λ rows. rows ++ map (category_row page) (map member_of members.now)) (state S.Store transaction.old.conn.now) (state S.Store transaction.new.conn.now)) }
    ensures inside { HasCleanDisk (state S.Store transaction.new.conn.now) → OnOk result (IsTrue (state S.Store transaction.old.conn.now).in_transaction → IsTrue (state S.Store transaction.new.conn.now).in_transaction) }
    ensures kept { HasCleanDisk (state S.Store transaction.new.conn.now) → IsTrue (state S.Store transaction.old.conn.now).in_transaction → KeepsCommit (state S.Store transaction.old.conn.now) (state S.Store transaction.new.conn.now) }
    ensures survives { Survives (state S.Store transaction.old.conn.now) (state S.Store transaction.new.conn.now) (λ _. ⊥) }
{
    'members: for member in members {
        add_member(transaction, insert, page, member)?;
    }
    Ok(())
}

/// Adds a row of the page for each member.
fn add_members<S: Alter>(
    transaction: &mut Transaction<'_, S>,
    page: u32,
    members: &[(Title, Text, Text)],
) -> Result<(), Error>
    ensures same { transaction.new.conn.ghost_name ≡ transaction.old.conn.ghost_name }
    ensures made { HasCleanDisk (state S.Store transaction.new.conn.now) → OnOk result (RewritesAll 9 member_values (λ rows. rows ++ map (category_row page) (map member_of members.now)) (state S.Store transaction.old.conn.now) (state S.Store transaction.new.conn.now)) }
    ensures inside { HasCleanDisk (state S.Store transaction.new.conn.now) → OnOk result (IsTrue (state S.Store transaction.old.conn.now).in_transaction → IsTrue (state S.Store transaction.new.conn.now).in_transaction) }
    ensures kept { HasCleanDisk (state S.Store transaction.new.conn.now) → IsTrue (state S.Store transaction.old.conn.now).in_transaction → KeepsCommit (state S.Store transaction.old.conn.now) (state S.Store transaction.new.conn.now) }
    ensures survives { Survives (state S.Store transaction.old.conn.now) (state S.Store transaction.new.conn.now) (λ _. ⊥) }
{
    if members.is_empty() {
        return Ok(());
    }
    let insert = transaction.prepare(
        "INSERT INTO categorylinks (cl_from, cl_to, cl_sortkey, cl_sortkey_prefix) VALUES (?1, ?2, ?3, ?4)",
    )?;
    add_each(transaction, &insert, page, members)
}

/// Makes these all members of the page.
pub fn set_members<S: Alter>(
    transaction: &mut Transaction<'_, S>,
    page: u32,
    members: &[(Title, Text, Text)],
) -> Result<(), Error>
    ensures same { transaction.new.conn.ghost_name ≡ transaction.old.conn.ghost_name }
    ensures made { HasCleanDisk (state S.Store transaction.new.conn.now) → OnOk result (SetsMembers (state S.Store transaction.old.conn.now) (state S.Store transaction.new.conn.now) page (map member_of members.now)) }
    ensures inside { HasCleanDisk (state S.Store transaction.new.conn.now) → OnOk result (IsTrue (state S.Store transaction.old.conn.now).in_transaction → IsTrue (state S.Store transaction.new.conn.now).in_transaction) }
    ensures kept { HasCleanDisk (state S.Store transaction.new.conn.now) → IsTrue (state S.Store transaction.old.conn.now).in_transaction → KeepsCommit (state S.Store transaction.old.conn.now) (state S.Store transaction.new.conn.now) }
    ensures survives { Survives (state S.Store transaction.old.conn.now) (state S.Store transaction.new.conn.now) (λ _. ⊥) }
{
    drop_members(transaction, page)?;
    add_members(transaction, page, members)
}
