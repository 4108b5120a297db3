//! The forms of lines, by their first value.
ghost use Rattle.std.specs.Prelude.{◌≡◌, IfOk, map, option_map};
ghost use Rattle.serde_json.specs.View.{view};
ghost use Rattle.wk_feed_rules.specs.Reading.{values_say};
ghost use Rattle.wk_feed_lines.specs.Said.{line_of, said_by_name};
ghost use Rattle.wk_feed_lines.specs.Cells.{left_of, read_on};

use crate::cells::Cells;
use crate::events::{back_said, done_said, save_said};
use crate::line::{EventLine, FeedLine, FeedRow};
use crate::rows::{
    category_said, job_said, link_row, page_said, redirect_said, revision_said, site_said,
};
use serde_json::Value;
use std::alloc::Global;
use wk_memory::Memory;

/// What the line with this first value says.
fn said_by_name(
    alloc: Global,
    name: &str,
    cells: &mut Cells<'_>,
) -> Result<Option<FeedLine>, Memory>
    ensures { IfOk result (λ line. option_map line_of line ≡ read_on (said_by_name name.now) (left_of cells.old)) }
{
    match name {
        "page" => page_said(alloc, cells),
        "revision" => revision_said(alloc, cells),
        "pagelinks" => {
            let link = link_row(alloc, cells)?;
            Ok(cells.ended(FeedLine::Row(FeedRow::PageLink(link))))
        }
        "templatelinks" => {
            let link = link_row(alloc, cells)?;
            Ok(cells.ended(FeedLine::Row(FeedRow::TemplateLink(link))))
        }
        "existlinks" => {
            let link = link_row(alloc, cells)?;
            Ok(cells.ended(FeedLine::Row(FeedRow::ExistLink(link))))
        }
        "categorylinks" => category_said(alloc, cells),
        "redirect" => redirect_said(alloc, cells),
        "job" => job_said(alloc, cells),
        "site" => site_said(alloc, cells),
        "start" => Ok(cells.ended(FeedLine::Start)),
        "save" => save_said(alloc, cells),
        "claim" => Ok(cells.ended(FeedLine::Event(EventLine::Claim))),
        "done" => Ok(done_said(cells)),
        "back" => Ok(back_said(cells)),
        "fan" => Ok(cells.ended(FeedLine::Event(EventLine::Fan))),
        _ => Ok(None),
    }
}

/// What the line of these values says.
pub fn values_say(alloc: Global, values: &[Value]) -> Result<Option<FeedLine>, Memory>
    ensures { IfOk result (λ line. option_map line_of line ≡ values_say (map view values.now)) }
{
    let mut cells = Cells::new(values);
    let name = cells.words();
    said_by_name(alloc, name, &mut cells)
}
