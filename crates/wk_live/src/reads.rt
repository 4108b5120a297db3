//! What the present world answers, and which reads of a draft it doesn't bear out any more.
ghost use Rattle.std.specs.Prelude.{◌≡◌, IfOk};
ghost use Rattle.std.specs.Option.{option_copied, option_map};
ghost use Rattle.wk_page_rules.specs.History.{text_of_revision};
ghost use Rattle.wk_view_rules.specs.Worlds.{answer_in, mark};
ghost use Rattle.wk_wiki_rules.specs.States.{world_of};
ghost use Rattle.wk_expand.specs.Answers.{answer_of};
ghost use Rattle.wk_live.specs.Stale.{first_stale_mark, with_present};

use crate::live::Live;
use wk_bytes::Text;
use wk_expand::{Answer, Kind, Read};
use wk_memory::Memory;
use wk_revs::Revs;
use wk_title::Title;

/// The text of the revision with this number, `None` exactly where there is no such revision or it is a deletion.
fn text_of_revision(revs: &Revs, number: u64) -> Option<&Text>
    ensures { option_copied result ≡ text_of_revision revs.now.history number }
{
    match revs.revision(number) {
        Some(revision) => revision.text(),
        None => None,
    }
}

impl Live {
    /// What the present world answers where the title is asked in this way. The text is shared.
    pub fn fetch(&self, title: &Title, kind: Kind) -> Result<Answer, Memory>
        ensures { IfOk result (λ answer. answer_of answer ≡ answer_in (world_of self.now.state) title.now kind) }
    {
        let revision = self.revs.current(title);
        let text = text_of_revision(&self.revs, revision);
        match kind {
            Kind::Exists => Ok(Answer::Exists(text.is_some())),
            Kind::View | Kind::Include => match text {
                Some(text) => Ok(Answer::Page(Some((revision, text.share()?)))),
                None => Ok(Answer::Page(None)),
            },
        }
    }

    /// The mark of what the present world answers: the number of the page's current revision, 0 where it is missing; of
    /// existence 1, or 0 where it is missing. Takes no memory.
    pub fn present_mark(&self, title: &Title, kind: Kind) -> u64
        ensures { result ≡ mark (answer_in (world_of self.now.state) title.now kind) }
    {
        let revision = self.revs.current(title);
        match text_of_revision(&self.revs, revision) {
            Some(_) => match kind {
                Kind::Exists => 1,
                Kind::View | Kind::Include => revision,
            },
            None => 0,
        }
    }

    /// The first of the reads whose mark isn't the present one, with the present one; `None` exactly where each is
    /// current. Takes no memory.
    pub fn first_stale<'a>(&self, reads: &'a [Read]) -> Option<(&'a Read, u64)>
        ensures { option_map (λ stale. with_present stale.0.now stale.1) result
            ≡ first_stale_mark (world_of self.now.state) reads.now }
    {
        for read in reads {
            let now = self.present_mark(&read.title, read.kind);
            if read.mark != now {
                return Some((read, now));
            }
        }
        None
    }
}
