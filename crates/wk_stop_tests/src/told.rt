//! A wiki over a database in memory, whose keeper gives the tables of the wiki behind each call. What a wiki does is generic in
//! the keeper, so that nothing is proved of a wiki over one.
ghost use Rattle.std.specs.Prelude.{◌≡◌, ◌∷◌, [], IfOk};
ghost use Rattle.wk_table_rules.specs.Changes.{set_version};

use crate::older::make_older;
use crate::opened::rows_of;
use crate::same::are_both;
use sqlite::Connection;
use std::alloc::Global;
use std::test::Fail;
use wk_core::{Edit, Limits, Wiki};
use wk_expand::Trees;
use wk_keeper::Keeper;
use wk_memory::Memory;
use wk_sqlmemory::SqlMemory;
use wk_tables::{Change, RowEdit, TableRows};
use wk_tools::refresh_here;

/// A call of a wiki.
#[derive(Clone, Copy)]
enum Call {
    /// Gives a page a text.
    Save(&'static str, &'static str),
    Delete(&'static str),
    /// Claims the first refresh job, and finishes with the draft of its page.
    Refresh,
    /// Serves the first fan job.
    Fan,
}

/// Calls that are all made. Together they put rows into each table, change some, and drop some.
static CALLS: [Call; 10] = [
    Call::Save(
        "P",
        "{{T}}{{U}}{{#ifexist:R|y|n}}[[Q]][[Category:X|k]][[Category:Y]]",
    ),
    Call::Save("Template:T", "t1"),
    Call::Save("Template:U", "#REDIRECT [[Template:T]]"),
    Call::Refresh,
    Call::Save("Template:T", "t2"),
    Call::Fan,
    Call::Refresh,
    Call::Refresh,
    Call::Delete("Template:U"),
    Call::Fan,
];

/// An edit that gives a page a text, whatever stands there.
fn edit(alloc: Global, title: &str, text: &str) -> Result<Edit, Memory> {
    Ok(Edit {
        title: String::from_str(alloc, title)?,
        body: Some(String::from_str(alloc, text)?),
        base: None,
        create_only: false,
        no_create: false,
    })
}

/// Saves a page. Whether it was saved.
fn save<K: Keeper>(wiki: &mut Wiki<K>, edit: &Edit) -> bool {
    if wiki.is_sealed() {
        return false;
    }
    wiki.save(edit, 5).is_ok()
}

/// Deletes a page. Whether it was deleted.
fn delete<K: Keeper>(wiki: &mut Wiki<K>, title: &str) -> bool {
    if wiki.is_sealed() {
        return false;
    }
    wiki.remove(title, None, 6).is_ok()
}

/// Serves a fan job. Whether there was one.
fn fan<K: Keeper>(wiki: &mut Wiki<K>) -> bool {
    match wiki.fan() {
        Ok(Some(_)) => true,
        Ok(None) => false,
        Err(_) => false,
    }
}

/// Makes a call. Whether it did something.
fn make<K: Keeper>(
    alloc: Global,
    wiki: &mut Wiki<K>,
    trees: &mut Trees,
    call: Call,
) -> Result<bool, Memory> {
    match call {
        Call::Save(title, text) => Ok(save(wiki, &edit(alloc, title, text)?)),
        Call::Delete(title) => Ok(delete(wiki, title)),
        Call::Refresh => Ok(refresh_here(wiki, trees) == Ok(true)),
        Call::Fan => Ok(fan(wiki)),
    }
}

/// Makes so many of the calls. Whether each did something.
fn make_all<K: Keeper>(alloc: Global, wiki: &mut Wiki<K>, count: usize) -> Result<bool, Memory> {
    let mut trees = Trees::new(alloc, 8)?;
    let mut made = true;
    'calls: for call in CALLS.iter().take(count) {
        made = make(alloc, wiki, &mut trees, *call)? && made;
    }
    Ok(made)
}

/// A wiki over the keeper of a good store.
fn loaded<K: Keeper>(alloc: Global, keeper: K) -> Result<Wiki<K>, Memory> {
    match Wiki::load(alloc, keeper, Limits::FULL) {
        Ok(wiki) => Ok(wiki),
        Err(_) => Err(Memory),
    }
}

/// Whether the keeper of the wiki, given up, gives the rows of the wiki's tables.
pub fn is_given<K: Keeper>(wiki: Wiki<K>) -> Result<bool, Memory> {
    let tables = wiki.tables()?;
    let rows = tables.rows().ok();
    let mut keeper = wiki.release();
    Ok(are_both(&rows, &rows_of(&mut keeper)))
}

/// Whether so many of the calls are made in a wiki over the keeper, which, given up, then gives the rows of the wiki's tables.
fn gives_its_tables<K: Keeper>(alloc: Global, keeper: K, count: usize) -> Result<bool, Memory> {
    let mut wiki = loaded(alloc, keeper)?;
    let made = make_all(alloc, &mut wiki, count)?;
    Ok(is_given(wiki)? && made)
}

/// A keeper over a new database in memory.
pub fn new_store(alloc: Global) -> Result<SqlMemory, Fail> {
    match SqlMemory::adopt(alloc, Connection::open_in_memory(alloc)?) {
        Ok(keeper) => Ok(keeper),
        Err((_, _)) => Err(Fail::from("a new database is refused")),
    }
}

/// A change to version 1.
fn version_1(alloc: Global) -> Result<Change, Memory>
    ensures { IfOk result (λ change. change ≡ set_version 1 ∷ []) }
{
    let mut edits = Vec::new(alloc);
    edits.push(RowEdit::SetVersion(1))?;
    Ok(Change { edits })
}

/// Sets the version to 1. Whether it is set.
fn is_set<K: Keeper>(keeper: &mut K, change: &Change) -> bool
    requires { change.now ≡ set_version 1 ∷ [] }
{
    keeper.apply(change).is_ok()
}

/// Saves a page that redirects, in a wiki over the keeper.
fn with_redirect<K: Keeper>(alloc: Global, keeper: K) -> Result<K, Memory> {
    let mut wiki = loaded(alloc, keeper)?;
    let _ = save(&mut wiki, &edit(alloc, "A", "#REDIRECT [[B]]")?);
    Ok(wiki.release())
}

/// Does the first refresh job of a wiki over the keeper.
fn refreshed<K: Keeper>(alloc: Global, keeper: K) -> Result<K, Memory> {
    let mut wiki = loaded(alloc, keeper)?;
    let mut trees = Trees::new(alloc, 8)?;
    let _ = refresh_here(&mut wiki, &mut trees);
    Ok(wiki.release())
}

/// A keeper over a store of version 1 in memory, which had no table redirect: a page that redirects, its link, and no job.
pub fn older_store(alloc: Global) -> Result<SqlMemory, Fail> {
    let saved = with_redirect(alloc, new_store(alloc)?)?;
    let mut keeper = refreshed(alloc, saved)?;
    let change = version_1(alloc)?;
    if !is_set(&mut keeper, &change) {
        return Err(Fail::from("the version isn't set"));
    }
    let mut connection = keeper.release();
    make_older(&mut connection)?;
    match SqlMemory::adopt(alloc, connection) {
        Ok(keeper) => Ok(keeper),
        Err((_, _)) => Err(Fail::from("an older database is refused")),
    }
}

/// Whether these are the rows of that store as one of version 2: its page is queued.
fn are_migrated(rows: &TableRows) -> bool {
    rows.version == 2
        && rows.pages.len() == 1
        && rows.pagelinks.len() == 1
        && rows.redirects.is_empty()
        && rows.jobs.len() == 1
}

/// Whether a wiki over the keeper of that store makes of it one of version 2.
fn is_migrated<K: Keeper>(alloc: Global, keeper: K) -> Result<bool, Memory> {
    let wiki = loaded(alloc, keeper)?;
    let mut keeper = wiki.release();
    match rows_of(&mut keeper) {
        Some(rows) => Ok(are_migrated(&rows)),
        None => Ok(false),
    }
}

#[test]
fn a_database_in_memory_gives_what_it_tells(rt: HostRuntime) -> Result<(), Fail> {
    let alloc = rt.alloc();
    for count in 0..=CALLS.len() {
        let keeper = new_store(alloc)?;
        assert!(rt;
            gives_its_tables(alloc, keeper, count)?,
            "behind {count} calls"
        );
    }
    Ok(())
}

#[test]
fn an_older_database_in_memory_gives_what_it_tells(rt: HostRuntime) -> Result<(), Fail> {
    let alloc = rt.alloc();
    let keeper = older_store(alloc)?;
    assert!(rt; is_migrated(alloc, keeper)?);
    for count in 0..=CALLS.len() {
        let keeper = refreshed(alloc, older_store(alloc)?)?;
        assert!(rt;
            gives_its_tables(alloc, keeper, count)?,
            "behind {count} calls"
        );
    }
    Ok(())
}
