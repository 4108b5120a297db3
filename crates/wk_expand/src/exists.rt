//! Whether pages exist (MediaWiki's Help:Extension:ParserFunctions, `#ifexist`).
ghost use Rattle.std.specs.Prelude.{◌≡◌, List, if◌then◌else◌};
ghost use Rattle.std.specs.List.{list_any};
ghost use Rattle.wk_text_rules.specs.Titles.{PageTitle, title_eq};
ghost use Rattle.wk_tree_rules.specs.Tree.{Part};
ghost use Rattle.wk_tree_rules.specs.Trees.{Item};
ghost use Rattle.wk_view_rules.specs.Expand.{by_existence, existence_output, function_output, operand};
ghost use Rattle.wk_view_rules.specs.Expansions.{Expansion, Output};
ghost use Rattle.wk_view_rules.specs.Frames.{Frame};
ghost use Rattle.wk_view_rules.specs.Worlds.{is_there};
ghost use Rattle.wk_view_rules.specs.declared.Func.TheVariants.{IfExist};
ghost use Rattle.wk_expand.specs.Answers.{answer_of};
ghost use Rattle.wk_expand.specs.Running.{Keeps, Leads};

use crate::answer::Answer;
use crate::reads::asked;
use crate::seen::Seen;
use crate::state::{Expander, Stop};
use crate::words::tested_title;
use wk_out::Out;
use wk_title::Title;
use wk_view_rules::Kind;

/// How many titles may be tested for existence (own).
const MOST_TESTS: u64 = 100;

/// Whether a title is among those that were tested.
fn is_tested(tested: &[Title], title: &Title) -> bool
    ensures { result ≡ list_any (title_eq title.now) tested.now }
{
    tested.iter().any(|other| *title == *other)
}

/// Whether the page is there, by an answer.
fn is_there(answer: &Answer) -> bool
    ensures { result ≡ is_there (answer_of answer.now) }
{
    match answer {
        Answer::Page(found) => found.is_some(),
        Answer::Exists(there) => *there,
    }
}

impl Expander {
    /// Whether a page exists, by an answer.
    fn existence(&mut self, seen: &Seen, title: &Title) -> Result<bool, Stop>
        ensures keeps { Keeps result self.old self.new }
        ensures leads { (inner : Frame → List Item → Expansion Output) (viewed : PageTitle) (frame : Frame)
            (parts : List Part)
            → Leads seen.now (by_existence inner viewed frame title.now parts) self.old
            (λ there. operand inner viewed frame (if there then 2 else 3) parts) result self.new }
    {
        let answer = self.answer(seen, title, Kind::Exists)?;
        Ok(is_there(&answer))
    }

    /// Whether a page exists; no where no more titles may be tested, and this one wasn't tested before.
    fn tested_existence(&mut self, seen: &Seen, title: &Title) -> Result<bool, Stop>
        ensures keeps { Keeps result self.old self.new }
        ensures leads { (inner : Frame → List Item → Expansion Output) (viewed : PageTitle) (frame : Frame)
            (parts : List Part)
            → Leads seen.now (existence_output inner viewed frame title.now parts) self.old
            (λ there. operand inner viewed frame (if there then 2 else 3) parts) result self.new }
    {
        if is_tested(&self.tested, title) {
            return self.existence(seen, title);
        }
        if MOST_TESTS <= self.counts.exists {
            return Ok(false);
        }
        let answer = asked(seen, title, Kind::Exists)?;
        self.tested.push(title.share()?)?;
        self.counts.exists += 1;
        self.reads.note(title, Kind::Exists, &answer)?;
        Ok(is_there(&answer))
    }

    /// Whether the page that an operand names exists; no with no title, and where no more titles may be tested.
    pub fn exists(&mut self, seen: &Seen, first: &Out) -> Result<bool, Stop>
        ensures keeps { Keeps result self.old self.new }
        ensures leads { (inner : Frame → List Item → Expansion Output) (viewed : PageTitle) (frame : Frame)
            (parts : List Part)
            → Leads seen.now (function_output inner viewed frame IfExist first.now parts) self.old
            (λ there. operand inner viewed frame (if there then 2 else 3) parts) result self.new }
    {
        match tested_title(self.alloc, first)? {
            Some(title) => self.tested_existence(seen, &title),
            None => Ok(false),
        }
    }
}
