//! Reads of pages and of texts.
ghost use Rattle.std.specs.Prelude.{◌≡◌, IfErr, IfOk, None, Some};
ghost use Rattle.wk_cache.specs.Entries.{entry_of};
ghost use Rattle.wk_shared.specs.Calls.{IsFree};
ghost use Rattle.wk_shared.specs.Looks.{HasRead};
ghost use Rattle.wk_readers.specs.Reads.{IsAnswered, IsLate, IsPageRead, KeepsCount};

use crate::entries::found;
use crate::reader::{Checked, Reader};
use std::sync::Wait;
use wk_base::Gate;
use wk_bytes::Text;
use wk_cache::Kept;
use wk_core::{Keeper, PageRead, ReadRefusal};
use wk_expand::Root;
use wk_shared::Shared;
use wk_title::Title;

/// Reads a page of which the reader keeps nothing. It waits.
fn read_new<K: Keeper, R: Wait, G: Gate>(
    shared: &Shared<K>,
    rt: &R,
    reader: &mut Reader<K>,
    title: &Title,
    least: u64,
    gate: &mut G,
) -> Result<PageRead, ReadRefusal>
    requires { IsFree shared.now reader.old.pass }
    ensures { IsPageRead shared.now title.now least reader.old reader.new result }
{
    match reader.check_new(shared, rt, title, least) {
        Checked::Current(read) => Ok(read),
        Checked::Stale => reader.draft_page(shared, rt, title, gate),
        Checked::Late(point) => Err(ReadRefusal::Future(point)),
    }
}

/// Reads a page of which the reader keeps this. It waits.
fn read_kept<K: Keeper, R: Wait, G: Gate>(
    shared: &Shared<K>,
    rt: &R,
    reader: &mut Reader<K>,
    title: &Title,
    least: u64,
    gate: &mut G,
    kept: Kept,
) -> Result<PageRead, ReadRefusal>
    requires free { IsFree shared.now reader.old.pass }
    requires entry { entry_of title.now reader.old.entries ≡ Some kept }
    ensures { IsPageRead shared.now title.now least reader.old reader.new result }
{
    reader.facts();
    if reader.is_served(&kept, least) {
        return Ok(reader.serve(title, kept));
    }
    match reader.check(shared, rt, title, least, kept) {
        Checked::Current(read) => Ok(read),
        Checked::Stale => reader.draft_page(shared, rt, title, gate),
        Checked::Late(point) => Err(ReadRefusal::Future(point)),
    }
}

/// What a page expands to at a point that is at least `least` and no older than what the reader has seen (MediaWiki's
/// Help:Templates; MediaWiki keeps a page's output in its parser cache). It makes no entry.
///
/// What the reader keeps of the page is served as it is where it is new enough, was served less than 16 times since it was
/// checked, and the reader has looked since its session began. Else it is served where each of its reads is current, and else
/// so is what the wiki keeps of the page. Else the page is drafted without the turn, and the gate is passed between two reads;
/// after three drafts that weren't current it is drafted with the turn held. The reader keeps the answer, and so does the wiki.
///
/// `Future` exactly where `least` is above the journal's length at its step, which it carries; or `Memory`. It waits.
pub fn read_page<K: Keeper, R: Wait, G: Gate>(
    shared: &Shared<K>,
    rt: &R,
    reader: &mut Reader<K>,
    title: &Title,
    least: u64,
    gate: &mut G,
) -> Result<PageRead, ReadRefusal>
    requires { IsFree shared.now reader.old.pass }
    ensures pass { HasRead shared.now reader.old.pass reader.new.pass }
    ensures read { IfOk result (IsAnswered shared.now reader.old.pass reader.new.pass title.now None least) }
    ensures late { IfErr result (IsLate least reader.new.pass) }
    ensures uses { KeepsCount shared.now title.now least reader.old reader.new result }
{
    match found(&mut reader.cache, title) {
        Some(kept) => read_kept(shared, rt, reader, title, least, gate, kept),
        None => read_new(shared, rt, reader, title, least, gate),
    }
}

/// What a text in the place of a page's own expands to, as `read_page` has it for the page. It is drafted anew each time, and
/// nothing is kept of it.
pub fn read_text<K: Keeper, R: Wait, G: Gate>(
    shared: &Shared<K>,
    rt: &R,
    reader: &mut Reader<K>,
    title: &Title,
    text: &Text,
    least: u64,
    gate: &mut G,
) -> Result<PageRead, ReadRefusal>
    requires { IsFree shared.now reader.old.pass }
    ensures pass { HasRead shared.now reader.old.pass reader.new.pass }
    ensures read { IfOk result (IsAnswered shared.now reader.old.pass reader.new.pass title.now (Some text.now) least) }
    ensures late { IfErr result (IsLate least reader.new.pass) }
    ensures kept { reader.new.entries ≡ reader.old.entries }
{
    reader.reach(shared, rt, least)?;
    let Ok(text) = text.share() else {
        return Err(ReadRefusal::Memory);
    };
    match reader.draft(shared, rt, title, &Root::Given(text), gate) {
        Ok(read) => Ok(read),
        Err(_) => Err(ReadRefusal::Memory),
    }
}
