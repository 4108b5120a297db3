//! Laws of drafts. Each is the contract of a function that does nothing but name the laws that it stands on: its clauses
//! are the law.
ghost use Rattle.std.specs.Prelude.{◌≡◌, ℕ, ◌+◌, ◌<◌, ◌≤◌, [], ◌∷◌, ◌++◌, List, None, Some, IsTrue};
ghost use Rattle.std.specs.List.{list_any};
ghost use Rattle.wk_text_rules.specs.Titles.{PageTitle};
ghost use Rattle.wk_view_rules.specs.Plans.{done, reads_of};
ghost use Rattle.wk_view_rules.specs.Worlds.{World, Answer, Read, of_world, of_seen, ask, is_read_of, Agrees};
ghost use Rattle.wk_view_rules.specs.declared.Kind.{Kind};
ghost use Rattle.wk_expand.specs.Answers.{read_with};
ghost use Rattle.wk_expand.specs.Drafts.{DraftShown, drafted};
ghost use Rattle.wk_expand.specs.Rounds.{IsSeenAfter};
ghost use Rattle.wk_expand.specs.Steps.{IsStep, given_text};
ghost use Rattle.wk_expand.specs.declared.drafts.Root.{Root};
ghost use Rattle.wk_expand.specs.declared.drafts.Root.TheVariants.{Given};
ghost use Rattle.wk_expand.specs.declared.drafts.Step.TheVariants.{Done, Needs};

use wk_view_laws::{
    done_by_the_reads_alone, needed_by_the_reads_alone, needs_are_unanswered, reads_are_answers,
    worlds_are_never_in_need,
};

/// What a step by the answers that were seen says of the worlds. A draft's reads were seen, and its output is what the
/// page, or the given text, expands to in each world that answers these reads in the same way. What is needed wasn't
/// seen, and it is read in each world that answers in the same way what was read before it, so in each world that agrees
/// with all that was seen.
pub fn steps_tell_of_worlds()
    ensures answered { (page : PageTitle) (root : Root) (seen : List Read) (d : DraftShown)
        → IsStep page root seen (Done d) → Agrees (of_seen seen) d.reads }
    ensures done { (page : PageTitle) (root : Root) (seen : List Read) (d : DraftShown)
        → IsStep page root seen (Done d) → (pages : World) → Agrees (of_world pages) d.reads
        → drafted (of_world pages) page (given_text root) ≡ done d.expanded d.reads }
    ensures unanswered { (page title : PageTitle) (root : Root) (seen : List Read) (kind : Kind)
        → IsStep page root seen (Needs title kind) → ask (of_seen seen) title kind ≡ None }
    ensures needed { (page title : PageTitle) (root : Root) (seen : List Read) (kind : Kind)
        → IsStep page root seen (Needs title kind) → (pages : World)
        → Agrees (of_world pages) (reads_of (drafted (of_seen seen) page (given_text root)))
        → IsTrue (list_any (is_read_of title kind) (reads_of (drafted (of_world pages) page (given_text root)))) }
    ensures needed_by_all { (page title : PageTitle) (root : Root) (seen : List Read) (kind : Kind)
        → IsStep page root seen (Needs title kind) → (pages : World) → Agrees (of_world pages) seen
        → IsTrue (list_any (is_read_of title kind) (reads_of (drafted (of_world pages) page (given_text root)))) }
{
    done_by_the_reads_alone();
    needed_by_the_reads_alone();
    needs_are_unanswered();
    reads_are_answers();
    worlds_are_never_in_need();
}

/// What answers all that was read still does with more behind it.
pub fn longer_seens_agree()
    ensures { (seen more reads : List Read) → Agrees (of_seen seen) reads → Agrees (of_seen (seen ++ more)) reads }
{}

/// What a step says stays true where more was seen. A draft is the same. What is needed is needed still where it still
/// wasn't seen; where it was, it is read.
pub fn steps_stay_true()
    ensures done { (page : PageTitle) (root : Root) (seen more : List Read) (d : DraftShown)
        → IsStep page root seen (Done d) → IsStep page root (seen ++ more) (Done d) }
    ensures needed { (page title : PageTitle) (root : Root) (seen more : List Read) (kind : Kind)
        → IsStep page root seen (Needs title kind) → ask (of_seen (seen ++ more)) title kind ≡ None
        → IsStep page root (seen ++ more) (Needs title kind) }
    ensures read { (page title : PageTitle) (root : Root) (seen more : List Read) (kind : Kind) (answer : Answer)
        → IsStep page root seen (Needs title kind) → ask (of_seen (seen ++ more)) title kind ≡ Some answer
        → IsTrue (list_any (is_read_of title kind)
        (reads_of (drafted (of_seen (seen ++ more)) page (given_text root)))) }
{}

/// Rounds in which `draft` needs a pair and `Seen::add` keeps its answer come to an end, whatever was seen at first and
/// whatever the answers are: there are at most 1,000,001 for a page, and 1,000,000 for a given text. A step that still
/// needs a pair comes before the last of them.
pub fn rounds_of_drafts_come_to_an_end()
    ensures first { (page : PageTitle) (root : Root) (seen : List Read) → IsSeenAfter page root seen 0 seen }
    ensures next { (page title : PageTitle) (root : Root) (first seen : List Read) (kind : Kind) (answer : Answer) (n : ℕ)
        → IsSeenAfter page root first n seen → IsStep page root seen (Needs title kind)
        → IsSeenAfter page root first (n + 1) (seen ++ read_with title kind answer ∷ []) }
    ensures rounds { (page : PageTitle) (root : Root) (first seen : List Read) (n : ℕ)
        → IsSeenAfter page root first n seen → n ≤ 1000001 }
    ensures text_rounds { (page : PageTitle) (text : List ℕ) (first seen : List Read) (n : ℕ)
        → IsSeenAfter page (Given text) first n seen → n ≤ 1000000 }
    ensures needs { (page title : PageTitle) (root : Root) (first seen : List Read) (kind : Kind) (n : ℕ)
        → IsSeenAfter page root first n seen → IsStep page root seen (Needs title kind) → n < 1000001 }
    ensures text_needs { (page title : PageTitle) (text : List ℕ) (first seen : List Read) (kind : Kind) (n : ℕ)
        → IsSeenAfter page (Given text) first n seen → IsStep page (Given text) seen (Needs title kind) → n < 1000000 }
{}
