//! Titles that are counted.
ghost use Rattle.std.specs.Prelude.{◌≡◌, ◌≤◌, ◌<◌, ◌^◌, OnOk, unwrap_or};
ghost use Rattle.std.specs.Map.{lookup};
ghost use Rattle.wk_text_rules.specs.Titles.{PageTitle, title_eq};
ghost use Rattle.wk_report_laws.specs.Tally.{tallied, tallied_all};

use indexmap::IndexMap;
use wk_memory::Memory;
use wk_title::Title;

/// Titles in the order in which they were first counted, each with how often it was.
pub type Tally = IndexMap<Title, u64>;

/// Counts the title once more.
fn count_title(tally: &mut Tally, title: &Title) -> Result<(), Memory>
    requires { unwrap_or (lookup (title_eq title.now) tally.old.entries) 0 < 2 ^ 63 }
    ensures { OnOk result (tally.new.entries ≡ tallied tally.old.entries title.now) }
{
    let count = tally.get(title).copied().unwrap_or(0);
    tally.insert(title.share()?, count + 1)?;
    Ok(())
}

/// Counts each of the titles once more, one after the other.
pub fn count_titles(tally: &mut Tally, titles: &[Title]) -> Result<(), Memory>
    requires { (title : PageTitle) → unwrap_or (lookup (title_eq title) tally.old.entries) 0 ≤ 2 ^ 32 }
    ensures { OnOk result (tally.new.entries ≡ tallied_all tally.old.entries titles.now) }
{
    'titles: for title in titles {
        count_title(tally, title)?;
    }
    Ok(())
}
