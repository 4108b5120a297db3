//! Events that are taken of a wiki, and their lines.
ghost use Rattle.std.specs.Prelude.{◌≡◌, ◌-◌, ◌++◌, ◌≤◌, ◌∷◌, [], length, drop, map, slice_get, string_bytes, IfOk, IsOkAnd, OnOk, Some};
ghost use Rattle.std.specs.Option.{option_copied};
ghost use Rattle.wk_wiki_rules.specs.Entries.{event_of_entry};
ghost use Rattle.wk_wiki_rules.specs.Events.{Save};
ghost use Rattle.wk_feed_rules.specs.Lines.{save};
ghost use Rattle.wk_wiki_rules.specs.declared.Entry.TheVariants as entry;
ghost use Rattle.wk_feeder.specs.Bytes.{event_bytes, feed_bytes};
ghost use Rattle.wk_life_laws.specs.Standing.{EntryStands, RevisionStands};
ghost use Rattle.wk_feeder.specs.Events.{event_of};

use crate::lines::{Cell, push_line};
use std::alloc::Global;
use wk_bytes::Text;
use wk_core::{Entry, Keeper, Wiki};
use wk_memory::Memory;
use wk_revs::Revs;
use wk_title::{Title, shown};
use wk_wiki_laws::journals::calls_make_a_journal;

/// An event, with what its line tells of it. A title and a text are shared with the wiki.
#[derive(Drop)]
pub enum FeedEvent {
    /// A save.
    Save {
        title: Title,
        /// The text as it is kept, or none for a deletion.
        text: Option<Text>,
        /// Seconds since 1970.
        moment: u64,
    },
    /// A claim of the first refresh job that waits.
    Claim,
    /// The refresh with this ticket was done.
    Done(u64),
    /// The refresh with this ticket was given back.
    Back(u64),
    /// A step of the first fan-out job.
    Fan,
}

/// A text for a further owner.
fn shared_text(text: Option<&Text>) -> Result<Option<Text>, Memory>
    ensures { IfOk result (λ shared. shared ≡ option_copied text.entry) }
{
    match text {
        None => Ok(None),
        Some(text) => Ok(Some(text.share()?)),
    }
}

/// The save that made the revision with this number.
fn save_event(revs: &Revs, number: u64) -> Result<FeedEvent, Memory>
    requires { RevisionStands revs.now.history number }
    ensures { IfOk result (λ event. event_of_entry revs.now.history (entry.Save number) ≡ Some (event_of event)) }
{
    let Some(revision) = revs.revision(number) else {
        unreachable!()
    };
    let Some((title, _)) = revs.page_at(revision.page()) else {
        unreachable!()
    };
    Ok(FeedEvent::Save {
        title: title.share()?,
        text: shared_text(revision.text())?,
        moment: revision.moment(),
    })
}

/// The event that this entry stands for.
fn entry_event(revs: &Revs, entry: Entry) -> Result<FeedEvent, Memory>
    requires { EntryStands revs.now.history entry }
    ensures { IfOk result (λ event. event_of_entry revs.now.history entry ≡ Some (event_of event)) }
{
    match entry {
        Entry::Save { revision } => save_event(revs, revision),
        Entry::Claim => Ok(FeedEvent::Claim),
        Entry::Done(ticket) => Ok(FeedEvent::Done(ticket)),
        Entry::Back(ticket) => Ok(FeedEvent::Back(ticket)),
        Entry::Fan => Ok(FeedEvent::Fan),
    }
}

/// The event with this number, counted from 1.
fn event_at<K: Keeper>(wiki: &Wiki<K>, number: u64) -> Result<FeedEvent, Memory>
    requires positive { 1 ≤ number }
    requires within { number ≤ length wiki.now.journal }
    ensures { IfOk result (λ event. slice_get wiki.now.journal (number - 1) ≡ Some (event_of event)) }
{
    wiki.facts();
    calls_make_a_journal();
    let Some(entry) = wiki.event(number) else {
        unreachable!()
    };
    entry_event(wiki.live().revs(), entry)
}

/// The events behind the first so many of the journal. Their titles and texts are shared.
pub fn events_behind<K: Keeper>(wiki: &Wiki<K>, first: u64) -> Result<Vec<FeedEvent>, Memory>
    requires { first ≤ length wiki.now.journal }
    ensures { IfOk result (λ events. map event_of events.items ≡ drop first wiki.now.journal) }
{
    let point = wiki.point();
    let mut events = Vec::new(wiki.allocator());
    let mut at = first;
    'entries: while at < point {
        at += 1;
        events.push(event_at(wiki, at)?)?;
    }
    Ok(events)
}

/// Appends the line of a save of the title that is shown so.
fn push_named<'x>(
    alloc: Global,
    name: &'x str,
    text: &'x Option<Text>,
    moment: u64,
    lines: &mut String,
) -> Result<(), Memory>
    ensures { OnOk result (string_bytes lines.new ≡ string_bytes lines.old ++ feed_bytes (save name.now text.now moment ∷ [])) }
{
    let kept = match text {
        Some(text) => Cell::Text(text.as_str()),
        None => Cell::Null,
    };
    let cells = [
        Cell::Text("save"),
        Cell::Text(name),
        kept,
        Cell::Whole(moment),
    ];
    push_line(alloc, &cells, lines)
}

/// Appends the line of a save.
fn push_save(
    alloc: Global,
    title: &Title,
    text: &Option<Text>,
    moment: u64,
    lines: &mut String,
) -> Result<(), Memory>
    ensures { OnOk result (string_bytes lines.new ≡ string_bytes lines.old ++ event_bytes (Save title.now text.now moment ∷ [])) }
{
    let mut name = String::new(alloc);
    shown(title, &mut name)?;
    push_named(alloc, name.as_str(), text, moment, lines)
}

/// Appends the line of an event.
fn push_event(alloc: Global, event: &FeedEvent, lines: &mut String) -> Result<(), Memory>
    ensures { OnOk result (string_bytes lines.new ≡ string_bytes lines.old ++ event_bytes (event_of event.now ∷ [])) }
{
    match event {
        FeedEvent::Save {
            title,
            text,
            moment,
        } => push_save(alloc, title, text, *moment, lines),
        FeedEvent::Claim => push_line(alloc, &[Cell::Text("claim")], lines),
        FeedEvent::Done(ticket) => {
            push_line(alloc, &[Cell::Text("done"), Cell::Whole(*ticket)], lines)
        }
        FeedEvent::Back(ticket) => {
            push_line(alloc, &[Cell::Text("back"), Cell::Whole(*ticket)], lines)
        }
        FeedEvent::Fan => push_line(alloc, &[Cell::Text("fan")], lines),
    }
}

/// The lines of these events.
fn event_lines(alloc: Global, events: &[FeedEvent]) -> Result<String, Memory>
    ensures { IfOk result (λ lines. string_bytes lines ≡ event_bytes (map event_of events.now)) }
{
    let mut lines = String::new(alloc);
    'events: for event in events {
        push_event(alloc, event, &mut lines)?;
    }
    Ok(lines)
}

/// The lines of these events, if memory was there for them.
pub fn lines_of(alloc: Global, events: Result<Vec<FeedEvent>, Memory>) -> Result<String, Memory>
    ensures { IfOk result (λ lines. IsOkAnd events (λ events. string_bytes lines ≡ event_bytes (map event_of events.items))) }
{
    match events {
        Ok(events) => event_lines(alloc, &events),
        Err(memory) => Err(memory),
    }
}
