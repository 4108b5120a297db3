//! A wiki in which calls are made. All of it is generic in the keeper, so that no test proves anything of a wiki over one.
ghost use Rattle.std.specs.Prelude.{◌≡◌, [], IfOk, None};

use std::alloc::Global;
use wk_core::{Edit, Keeper, Limits, Wiki};
use wk_expand::Trees;
use wk_memory::Memory;
use wk_tools::refresh_here;

/// The moment of each save, in seconds since 1970.
pub const MOMENT: u64 = 7;

/// The edit `TITLE=TEXT`, which gives a page a text, whatever stands there.
pub fn edit(alloc: Global, page: &str) -> Result<Edit, Memory> {
    let (title, text) = page.split_once('=').unwrap_or((page, ""));
    Ok(Edit {
        title: String::from_str(alloc, title)?,
        body: Some(String::from_str(alloc, text)?),
        base: None,
        create_only: false,
        no_create: false,
    })
}

/// Saves a page, where the edit isn't refused.
fn save<K: Keeper>(wiki: &mut Wiki<K>, page: &str) {
    let Ok(edit) = edit(wiki.allocator(), page) else {
        return;
    };
    if wiki.is_sealed() {
        return;
    }
    let _saved = wiki.save(&edit, MOMENT);
}

/// Deletes a page, where it is there.
fn delete<K: Keeper>(wiki: &mut Wiki<K>, title: &str) {
    if wiki.is_sealed() {
        return;
    }
    let _deleted = wiki.remove(title, None, MOMENT);
}

/// Claims the first refresh job, where one is queued, and gives it back.
fn give_back<K: Keeper>(wiki: &mut Wiki<K>) {
    match wiki.claim() {
        Ok(Some(ticket)) => wiki.give_back(ticket),
        Ok(None) => {}
        Err(_) => {}
    }
}

/// Serves the first fan job, where one stands.
fn fan<K: Keeper>(wiki: &mut Wiki<K>) {
    let _fanned = wiki.fan();
}

/// Refreshes the first page whose job is queued, where one is.
fn refresh<K: Keeper>(wiki: &mut Wiki<K>, trees: &mut Trees) {
    let _refreshed = refresh_here(wiki, trees);
}

/// Makes the call of a line.
fn make<K: Keeper>(wiki: &mut Wiki<K>, trees: &mut Trees, call: &str) {
    let (word, behind) = call.split_once(' ').unwrap_or((call, ""));
    match word {
        "save" => save(wiki, behind),
        "delete" => delete(wiki, behind),
        "refresh" => refresh(wiki, trees),
        "back" => give_back(wiki),
        "fan" => fan(wiki),
        _ => {}
    }
}

/// Makes the calls of lines.
fn make_each<K: Keeper>(wiki: &mut Wiki<K>, trees: &mut Trees, calls: &str) {
    'calls: for call in calls.lines() {
        make(wiki, trees, call);
    }
}

/// The same with trees of its own, where there is memory for them.
pub fn make_all<K: Keeper>(alloc: Global, wiki: &mut Wiki<K>, calls: &str) {
    if let Ok(mut trees) = Trees::new(alloc, 8) {
        make_each(wiki, &mut trees, calls);
    }
}

/// A wiki over a keeper of a good store, which isn't sealed.
pub fn loaded<K: Keeper>(alloc: Global, keeper: K) -> Result<Wiki<K>, Memory>
    ensures { IfOk result (λ wiki. wiki.start.sealed ≡ None) }
{
    match Wiki::load(alloc, keeper, Limits::FULL) {
        Ok(wiki) => Ok(wiki),
        Err(_) => Err(Memory),
    }
}

/// A wiki over a keeper of a good store, in which these calls were made and which was restarted then.
pub fn restarted<K: Keeper>(alloc: Global, keeper: K, calls: &str) -> Result<Wiki<K>, Memory>
    ensures { IfOk result (λ wiki. wiki.journal ≡ []) }
{
    let mut wiki = loaded(alloc, keeper)?;
    make_all(alloc, &mut wiki, calls);
    match wiki.renew() {
        Ok(()) => Ok(wiki),
        Err(memory) => {
            let _keeper = wiki.release();
            Err(memory)
        }
    }
}
