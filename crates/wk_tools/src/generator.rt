//! Pages that are generated.
ghost use Rattle.std.specs.Prelude.{◌≡◌, ◌≢◌, ◌∷◌, ◌++◌, ◌+◌, ◌≤◌, ◌<◌, ◌^◌, List, None, Some, string_bytes, IfOk, IfErr, OnErr, OnOk};
ghost use Rattle.wk_base.specs.Faults.{Rose};
ghost use Rattle.wk_page_rules.specs.Verdict.{EditAsked};
ghost use Rattle.wk_core.specs.Steps.{GoesOn};
ghost use Rattle.wk_tool_rules.specs.Generator.{generated, page_drawn, page_name, plain_save};
ghost use Rattle.wk_revs.specs.Edit.{edit_asked};
ghost use Rattle.wk_tools.specs.Generating.{Refuses, SavesNext, infobox_save, note_save, page_save};
ghost use Rattle.wk_tools.specs.Saves.{HasSaved, IsRefusedAt};

use crate::drawing::{infobox_text, note_text, page_drawing, page_name};
use std::alloc::Global;
use wk_base::Clock;
use wk_core::{Edit, Keeper, SaveRefusal, Wiki};
use wk_memory::Memory;

/// An edit of a title, to this text, that names no base.
fn plain_edit(title: String, text: String) -> Edit
    ensures { edit_asked result ≡ plain_save (string_bytes title) (string_bytes text) }
{
    Edit {
        title,
        body: Some(text),
        base: None,
        create_only: false,
        no_create: false,
    }
}

/// The edit of the template of the box.
fn infobox_edit(alloc: Global) -> Result<Edit, Memory>
    ensures { IfOk result (λ edit. edit_asked edit ≡ infobox_save) }
{
    let title = String::from_str(alloc, "Template:Infobox")?;
    Ok(plain_edit(title, infobox_text(alloc)?))
}

/// The edit of the template of the note.
fn note_edit(alloc: Global) -> Result<Edit, Memory>
    ensures { IfOk result (λ edit. edit_asked edit ≡ note_save) }
{
    let title = String::from_str(alloc, "Template:Note")?;
    Ok(plain_edit(title, note_text(alloc)?))
}

/// The edit of a page of so many, where the draws go on with this number, and the number with which they go on behind it.
fn page_edit(alloc: Global, pages: u32, page: u32, seed: u32) -> Result<(Edit, u32), Memory>
    requires { 0 < pages }
    ensures edit { IfOk result (λ made. edit_asked made.0 ≡ page_save pages page seed) }
    ensures seed { IfOk result (λ made. made.1 ≡ (page_drawn pages page seed).seed) }
{
    let title = page_name(alloc, page)?;
    let (text, later) = page_drawing(alloc, pages, page, seed)?.into_parts();
    Ok((plain_edit(title, text), later))
}

/// Saves an edit at the clock's next moment.
fn save_next<K: Keeper, C: Clock>(
    wiki: &mut Wiki<K>,
    edit: &Edit,
    clock: &mut C,
) -> Result<(), SaveRefusal>
    requires { wiki.old.start.sealed ≡ None }
    ensures saved { OnOk result (SavesNext K.told wiki.old wiki.new (edit_asked edit.now) (C.left clock.old) (C.left clock.new)) }
    ensures refused { IfErr result (Refuses K.told wiki.old wiki.new (edit_asked edit.now)) }
    ensures unsealed { wiki.new.start.sealed ≡ None }
    ensures keeper { GoesOn K.told K.faults wiki.old wiki.new }
    ensures fault { result ≡ Err SaveRefusal.StoreFault → Rose (K.faults wiki.old.keeper) (K.faults wiki.new.keeper) }
    ensures no_fault { result ≢ Err SaveRefusal.StoreFault → K.faults wiki.new.keeper ≡ K.faults wiki.old.keeper }
{
    let now = clock.now();
    wiki.save(edit, now)?;
    Ok(())
}

/// Saves a page of so many at the clock's next moment, where the draws go on with this number, and gives the number with
/// which they go on behind it.
fn save_page<K: Keeper, C: Clock>(
    wiki: &mut Wiki<K>,
    pages: u32,
    page: u32,
    seed: u32,
    clock: &mut C,
) -> Result<u32, SaveRefusal>
    requires some { 0 < pages }
    requires unsealed { wiki.old.start.sealed ≡ None }
    ensures saved { OnOk result (SavesNext K.told wiki.old wiki.new (page_save pages page seed) (C.left clock.old) (C.left clock.new)) }
    ensures seed { IfOk result (λ later. later ≡ (page_drawn pages page seed).seed) }
    ensures refused { IfErr result (Refuses K.told wiki.old wiki.new (page_save pages page seed)) }
    ensures unsealed { wiki.new.start.sealed ≡ None }
    ensures keeper { GoesOn K.told K.faults wiki.old wiki.new }
    ensures fault { result ≡ Err SaveRefusal.StoreFault → Rose (K.faults wiki.old.keeper) (K.faults wiki.new.keeper) }
    ensures no_fault { result ≢ Err SaveRefusal.StoreFault → K.faults wiki.new.keeper ≡ K.faults wiki.old.keeper }
{
    let Ok((edit, later)) = page_edit(wiki.allocator(), pages, page, seed) else {
        return Err(SaveRefusal::Memory);
    };
    match save_next(wiki, &edit, clock) {
        Ok(()) => Ok(later),
        Err(refusal) => Err(refusal),
    }
}

/// Saves the template of the box at the clock's next moment.
fn save_infobox<K: Keeper, C: Clock>(wiki: &mut Wiki<K>, clock: &mut C) -> Result<(), SaveRefusal>
    requires { wiki.old.start.sealed ≡ None }
    ensures saved { OnOk result (SavesNext K.told wiki.old wiki.new infobox_save (C.left clock.old) (C.left clock.new)) }
    ensures refused { IfErr result (Refuses K.told wiki.old wiki.new infobox_save) }
    ensures unsealed { wiki.new.start.sealed ≡ None }
    ensures keeper { GoesOn K.told K.faults wiki.old wiki.new }
    ensures fault { result ≡ Err SaveRefusal.StoreFault → Rose (K.faults wiki.old.keeper) (K.faults wiki.new.keeper) }
    ensures no_fault { result ≢ Err SaveRefusal.StoreFault → K.faults wiki.new.keeper ≡ K.faults wiki.old.keeper }
{
    let Ok(edit) = infobox_edit(wiki.allocator()) else {
        return Err(SaveRefusal::Memory);
    };
    save_next(wiki, &edit, clock)
}

/// Saves the template of the note at the clock's next moment.
fn save_note<K: Keeper, C: Clock>(wiki: &mut Wiki<K>, clock: &mut C) -> Result<(), SaveRefusal>
    requires { wiki.old.start.sealed ≡ None }
    ensures saved { OnOk result (SavesNext K.told wiki.old wiki.new note_save (C.left clock.old) (C.left clock.new)) }
    ensures refused { IfErr result (Refuses K.told wiki.old wiki.new note_save) }
    ensures unsealed { wiki.new.start.sealed ≡ None }
    ensures keeper { GoesOn K.told K.faults wiki.old wiki.new }
    ensures fault { result ≡ Err SaveRefusal.StoreFault → Rose (K.faults wiki.old.keeper) (K.faults wiki.new.keeper) }
    ensures no_fault { result ≢ Err SaveRefusal.StoreFault → K.faults wiki.new.keeper ≡ K.faults wiki.old.keeper }
{
    let Ok(edit) = note_edit(wiki.allocator()) else {
        return Err(SaveRefusal::Memory);
    };
    save_next(wiki, &edit, clock)
}

/// Saves pages as they are made for benches and tests (own): two templates, and so many pages that call them with values
/// that are drawn, where the draws begin with this number. The wiki isn't sealed. Each save takes the clock's next moment.
///
/// At Ok all of them were saved, or had changed nothing. A refusal is that of the first edit that was refused, and those
/// before it were saved: one of the rules' where their verdict on that edit is to refuse it so (the edits are made so that
/// this is `WikiFull` or `JournalFull`, which no clause says), `StoreFault` only where the keeper's count of faults rose, or
/// `Memory`, which may come. At each answer but `StoreFault` that count is as it was.
pub fn generate<K: Keeper, C: Clock>(
    wiki: &mut Wiki<K>,
    pages: u32,
    number: u32,
    clock: &mut C,
) -> Result<(), SaveRefusal>
    requires { wiki.old.start.sealed ≡ None }
    ensures saved { OnOk result (HasSaved wiki.old wiki.new (generated pages number) (C.left clock.old) (C.left clock.new)) }
    ensures refused { IfErr result (IsRefusedAt wiki.old wiki.new (generated pages number) (C.left clock.old)) }
    ensures keeper { GoesOn K.told K.faults wiki.old wiki.new }
    ensures fault { result ≡ Err SaveRefusal.StoreFault → Rose (K.faults wiki.old.keeper) (K.faults wiki.new.keeper) }
    ensures no_fault { result ≢ Err SaveRefusal.StoreFault → K.faults wiki.new.keeper ≡ K.faults wiki.old.keeper }
{
    save_infobox(wiki, clock)?;
    save_note(wiki, clock)?;
    let mut seed = number;
    'pages: for done in 0..pages {
        match save_page(wiki, pages, done + 1, seed, clock) {
            Ok(later) => seed = later,
            Err(refusal) => return Err(refusal),
        }
    }
    Ok(())
}
