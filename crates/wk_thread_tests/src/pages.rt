//! A shared wiki, and saves of its pages. All of it is generic in the keeper, so that no test proves anything of a wiki over
//! one.
ghost use Rattle.std.specs.Prelude.{◌≡◌, IfOk, None};
ghost use Rattle.wk_thread_tests.specs.Ready.{IsReady};

use std::alloc::Global;
use std::sync::Wait;
use wk_core::Limits;
use wk_memory::Memory;
use wk_shared::{Edit, Keeper, Pass, SaveRefusal, Shared, Wiki};
use wk_tables::Tables;
use wk_title::{Title, page_named};

/// The title of the page with this number.
pub fn page_title(alloc: Global, page: u64) -> Result<Title, Memory> {
    let name = format!(in alloc; "P{page}")?;
    match page_named(alloc, name.as_str())? {
        Some(title) => Ok(title),
        None => Err(Memory),
    }
}

/// An edit that gives a page a text, by one who has seen this revision of it.
pub fn edit(alloc: Global, page: u64, text: &str, base: u64) -> Result<Edit, Memory> {
    Ok(Edit {
        title: format!(in alloc; "P{page}")?,
        body: Some(String::from_str(alloc, text)?),
        base: Some(base),
        create_only: false,
        no_create: false,
    })
}

/// A wiki over a keeper of a good store, which isn't sealed.
fn loaded<K: Keeper>(alloc: Global, keeper: K) -> Result<Wiki<K>, Memory>
    ensures { IfOk result (λ wiki. wiki.start.sealed ≡ None) }
{
    match Wiki::load(alloc, keeper, Limits::FULL) {
        Ok(wiki) => Ok(wiki),
        Err(_) => Err(Memory),
    }
}

/// A shared wiki over a keeper of a good store, which isn't sealed, and a pass of it.
pub fn begun<K: Keeper>(alloc: Global, keeper: K) -> Result<(Shared<K>, Pass<Wiki<K>>), Memory>
    ensures { IfOk result (λ t. IsReady t.0 t.1) }
{
    match Shared::new(loaded(alloc, keeper)?) {
        Ok(both) => Ok(both),
        Err((wiki, memory)) => {
            let _keeper = wiki.release();
            Err(memory)
        }
    }
}

/// Takes the wiki back from all who share it. How many pages and revisions it has, by its tables.
pub fn ended<K: Keeper, R: Wait>(
    rt: &R,
    shared: Shared<K>,
    pass: Pass<Wiki<K>>,
) -> (Option<(usize, usize)>, u64)
    requires { IsReady shared pass }
{
    let wiki = shared.finish(rt, pass);
    let counted = counted(wiki.tables());
    let point = wiki.point();
    let _keeper = wiki.release();
    (counted, point)
}

/// How many pages and revisions tables have.
fn counted(tables: Result<Tables, Memory>) -> Option<(usize, usize)> {
    match tables {
        Ok(tables) => Some((tables.pages().len(), tables.revisions().len())),
        Err(_) => None,
    }
}

/// Gives a page this text, by one who has seen this revision. The point, where it is saved.
pub fn save<K: Keeper, R: Wait>(
    rt: &R,
    alloc: Global,
    shared: &Shared<K>,
    pass: &mut Pass<Wiki<K>>,
    page: u64,
    text: &str,
    base: u64,
) -> Result<u64, SaveRefusal>
    requires { IsReady shared.now pass.old }
    ensures { IsReady shared.now pass.new }
{
    let Ok(edit) = edit(alloc, page, text, base) else {
        return Err(SaveRefusal::Memory);
    };
    let (answer, point) = shared.save(rt, pass, &edit, 0);
    match answer {
        Ok(_) => Ok(point),
        Err(refusal) => Err(refusal),
    }
}
