//! Lines of events, behind their names.
ghost use Rattle.std.specs.Prelude.{◌≡◌, IfOk, option_map};
ghost use Rattle.wk_feed_rules.specs.Lines.{back, done};
ghost use Rattle.wk_feed_rules.specs.Reading.{ending, save_said, with_number};
ghost use Rattle.wk_feed_lines.specs.Said.{line_of};
ghost use Rattle.wk_feed_lines.specs.Cells.{left_of, read_on};

use crate::cells::Cells;
use crate::line::{EventLine, FeedLine};
use std::alloc::Global;
use wk_memory::Memory;

/// A save.
pub fn save_said(alloc: Global, cells: &mut Cells<'_>) -> Result<Option<FeedLine>, Memory>
    ensures { IfOk result (λ line. option_map line_of line ≡ read_on save_said (left_of cells.old)) }
{
    let title = cells.string(alloc)?;
    let text = cells.string_or_null(alloc)?;
    let moment = cells.number();
    let save = EventLine::Save {
        title,
        text,
        moment,
    };
    Ok(cells.ended(FeedLine::Event(save)))
}

/// A refresh that was done.
pub fn done_said(cells: &mut Cells<'_>) -> Option<FeedLine>
    ensures { option_map line_of result ≡ read_on (with_number (λ ticket. ending (done ticket))) (left_of cells.old) }
{
    let ticket = cells.number();
    cells.ended(FeedLine::Event(EventLine::Done(ticket)))
}

/// A refresh that was given back.
pub fn back_said(cells: &mut Cells<'_>) -> Option<FeedLine>
    ensures { option_map line_of result ≡ read_on (with_number (λ ticket. ending (back ticket))) (left_of cells.old) }
{
    let ticket = cells.number();
    cells.ended(FeedLine::Event(EventLine::Back(ticket)))
}
