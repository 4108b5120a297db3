//! The replies to lines that are carried out (own). Each shows the length that the journal has behind the line.
ghost use Rattle.std.specs.Prelude.{◌≡◌, ◌+◌, codes, length, IfOk};
ghost use Rattle.serde_json.specs.View.{view};
ghost use Rattle.wk_answer_rules.specs.Values.{reply_beside};
ghost use Rattle.wk_script_rules.specs.Replies.{claim_entries, done_entries, fan_entries, giveback_entries, nothing_entries, stale_entries};
ghost use Rattle.wk_script_lines.specs.Shown.{read_shown, restart_shown};

use crate::errors::kind_name;
use serde_json::Value;
use std::alloc::Global;
use wk_memory::Memory;
use wk_replies::{Plain, object, reply, reply_of, shown_text, titled};
use wk_title::Title;
use wk_view_rules::Kind;

/// A refresh job was claimed: its ticket, and its page.
pub fn claimed(alloc: Global, ticket: u64, title: &Title, point: u64) -> Result<Value, Memory>
    ensures { IfOk result (λ v. view v ≡ (reply_beside (claim_entries (record { ticket = ticket; title = title.now })) point).value) }
{
    let table = &[("ticket", Plain::Number(ticket))];
    reply(alloc, "claim", titled(alloc, title, table)?, point)
}

/// No refresh job is queued.
pub fn no_claim(alloc: Global, point: u64) -> Result<Value, Memory>
    ensures { IfOk result (λ v. view v ≡ (reply_beside (nothing_entries (codes "claim")) point).value) }
{
    reply(alloc, "claim", Value::Null, point)
}

/// A title was read, which has this mark now.
pub fn next_read(
    alloc: Global,
    title: &Title,
    kind: Kind,
    mark: u64,
    point: u64,
) -> Result<Value, Memory>
    ensures { IfOk result (λ v. view v ≡ (reply_beside (read_shown title.now kind mark) point).value) }
{
    let table = &[
        ("kind", Plain::Text(kind_name(kind))),
        ("mark", Plain::Number(mark)),
    ];
    reply(alloc, "read", titled(alloc, title, table)?, point)
}

/// A refresh is done.
pub fn done(alloc: Global, point: u64) -> Result<Value, Memory>
    ensures { IfOk result (λ v. view v ≡ (reply_beside done_entries point).value) }
{
    let table = &[
        ("point", Plain::Number(point)),
        ("finish", Plain::Text("done")),
    ];
    object(alloc, table)
}

/// A refresh isn't done, since what was read of this title isn't so any more: the mark that was read, and the present
/// one.
pub fn stale(
    alloc: Global,
    title: &Title,
    kind: Kind,
    read: u64,
    now: u64,
    point: u64,
) -> Result<Value, Memory>
    ensures { IfOk result (λ v. view v ≡ (reply_beside (stale_entries (record {
      title = title.now;
      kind = kind;
      read = read;
      now = now;
    })) point).value) }
{
    let table = &[
        ("finish", Plain::Text("stale")),
        ("kind", Plain::Text(kind_name(kind))),
        ("now", Plain::Number(now)),
        ("point", Plain::Number(point)),
        ("read", Plain::Number(read)),
    ];
    titled(alloc, title, table)
}

/// A ticket of this page was given back.
pub fn given_back(alloc: Global, title: &Title, point: u64) -> Result<Value, Memory>
    ensures { IfOk result (λ v. view v ≡ (reply_beside (giveback_entries title.now) point).value) }
{
    let text = shown_text(alloc, title)?;
    reply(alloc, "giveback", Value::from(text), point)
}

/// A fan job of this title was served: to so many pages, of which so many were queued.
pub fn fanned(
    alloc: Global,
    title: &Title,
    served: u32,
    queued: u32,
    point: u64,
) -> Result<Value, Memory>
    ensures { IfOk result (λ v. view v ≡ (reply_beside (fan_entries (record {
      title = title.now;
      served = served;
      queued = queued;
    })) point).value) }
{
    let table = &[
        ("queued", Plain::Number(u64::from(queued))),
        ("served", Plain::Number(u64::from(served))),
    ];
    reply(alloc, "fan", titled(alloc, title, table)?, point)
}

/// No fan job stands.
pub fn no_fan(alloc: Global, point: u64) -> Result<Value, Memory>
    ensures { IfOk result (λ v. view v ≡ (reply_beside (nothing_entries (codes "fan")) point).value) }
{
    reply(alloc, "fan", Value::Null, point)
}

/// The wiki was opened anew: so many jobs and existing pages there are.
pub fn restarted(alloc: Global, jobs: u64, pages: u64, point: u64) -> Result<Value, Memory>
    ensures { IfOk result (λ v. view v ≡ (reply_beside (restart_shown jobs pages) point).value) }
{
    let table = &[
        ("jobs", Plain::Number(jobs)),
        ("pages", Plain::Number(pages)),
    ];
    reply_of(alloc, "restart", table, point)
}
