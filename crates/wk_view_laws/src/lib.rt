//! Laws of what a page expands to. Each is the contract of a function that does nothing: its clauses are the law.
#![tactic(auto)]

ghost use Rattle.std.specs.Prelude.{◌≡◌, ◌≢◌, ◌||◌, false, is_some, ℕ, ◌<◌, ◌≤◌, List, [], length, None, Some};
ghost use Rattle.std.specs.List.{list_any};
ghost use Rattle.wk_text_rules.specs.Titles.{PageTitle};
ghost use Rattle.wk_page_rules.specs.PageRows.{no_rows, names};
ghost use Rattle.wk_page_rules.specs.declared.Reach.TheVariants.{Text, Both};
ghost use Rattle.wk_tree_rules.specs.Tree.{tree, nodes, Part};
ghost use Rattle.wk_tree_rules.specs.Trees.{Item};
ghost use Rattle.wk_tree_rules.specs.declared.Mode.TheVariants as mode;
ghost use Rattle.wk_view_rules.specs.Expand.{expand, included, inclusion};
ghost use Rattle.wk_view_rules.specs.Expansions.{Expansion, Output, Progress};
ghost use Rattle.wk_view_rules.specs.Frames.{Frame};
ghost use Rattle.wk_view_rules.specs.Plans.{Plan, and_then, done, need, run, reads_of, IsDone, NeedsOrReads};
ghost use Rattle.wk_view_rules.specs.Rows.{rows, titles_read};
ghost use Rattle.wk_view_rules.specs.Views.{Expanded, view, reads, shown_text};
ghost use Rattle.wk_view_rules.specs.Worlds.{World, PageText, Source, Answer, Read, Seen, of_world, of_seen, ask, is_read_of, Agrees, IsSeen};
ghost use Rattle.wk_view_rules.specs.declared.Kind.{Kind};
ghost use Rattle.wk_view_rules.specs.declared.Kind.TheVariants.{Include, Exists};
ghost use Rattle.wk_view_laws.specs.Changes.{DifferOnlyAt};
ghost use Rattle.wk_view_laws.specs.Inclusions.{MeetsRedirect, redirect_charged, redirect_noted};
ghost use Rattle.wk_view_laws.specs.Limits.{IsWithinLimits};
ghost use Rattle.wk_view_laws.specs.Plans.{goes_on};
ghost use Rattle.wk_view_laws.specs.Rounds.{rounds, text_rounds};
ghost use Rattle.wk_view_laws.specs.Titles.{RowsAreInOrder, RowsHavePageTitles};

/// An expansion that is done over one source is the same over each source that gives its reads the same answers.
/// Sources are worlds and lists of answers alike, so a draft made of answers of many moments is the expansion of
/// each world that agrees with its reads.
pub fn done_by_the_reads_alone()
    ensures view { (a b : Source) (page : PageTitle) (x : Expanded) (seen : List Read)
        → view a page ≡ done x seen → Agrees b seen → view b page ≡ done x seen }
    ensures text { (a b : Source) (page : PageTitle) (text : List ℕ) (x : Expanded) (seen : List Read)
        → shown_text a page text ≡ done x seen → Agrees b seen
        → shown_text b page text ≡ done x seen }
    ensures plan { (a b : Source) (p : Plan Expanded) (x : Expanded) (seen : List Read)
        → run a p [] ≡ done x seen → Agrees b seen → run b p [] ≡ done x seen }
{}

/// A need of one source is a need of each source that gives the reads before it the same answers, or that source
/// answers it, and then it is among the reads there.
pub fn needed_by_the_reads_alone()
    ensures view { (a b : Source) (page wanted : PageTitle) (kind : Kind) (seen : List Read)
        → view a page ≡ need wanted kind seen → Agrees b seen
        → NeedsOrReads wanted kind seen (view b page) }
    ensures text { (a b : Source) (page wanted : PageTitle) (text : List ℕ) (kind : Kind) (seen : List Read)
        → shown_text a page text ≡ need wanted kind seen → Agrees b seen
        → NeedsOrReads wanted kind seen (shown_text b page text) }
    ensures plan { (a b : Source) (p : Plan Expanded) (wanted : PageTitle) (kind : Kind) (seen : List Read)
        → run a p [] ≡ need wanted kind seen → Agrees b seen
        → NeedsOrReads wanted kind seen (run b p []) }
{}

/// So it is in the middle of an expansion too: of the items of a list, in any frame, where so many nodes more may be opened
/// and the expansion has come so far, behind reads that both sources answer alike. It has done the same over each source
/// that gives its reads the same answers; and it is in the same need, or that source answers the pair, and then it is among
/// the reads there.
pub fn expansions_by_the_reads_alone()
    ensures done { (a b : Source) (left : ℕ) (viewed : PageTitle) (frame : Frame) (items : List Item)
        (progress : Progress) (before : List Read) (x : Output × Progress) (seen : List Read)
        → Agrees a before → run a (expand left viewed frame items progress) before ≡ done x seen → Agrees b seen
        → run b (expand left viewed frame items progress) before ≡ done x seen }
    ensures needed { (a b : Source) (left : ℕ) (viewed wanted : PageTitle) (frame : Frame) (items : List Item)
        (progress : Progress) (before : List Read) (kind : Kind) (seen : List Read)
        → Agrees a before → run a (expand left viewed frame items progress) before ≡ need wanted kind seen → Agrees b seen
        → NeedsOrReads wanted kind seen (run b (expand left viewed frame items progress) before) }
{}

/// What a source needs it doesn't answer: of a list of answers, the pair isn't in the list.
pub fn needs_are_unanswered()
    ensures view { (a : Source) (page wanted : PageTitle) (kind : Kind) (seen : List Read)
        → view a page ≡ need wanted kind seen → ask a wanted kind ≡ None }
    ensures text { (a : Source) (page wanted : PageTitle) (text : List ℕ) (kind : Kind) (seen : List Read)
        → shown_text a page text ≡ need wanted kind seen → ask a wanted kind ≡ None }
{}

/// A need that another source answers leads on there: over a source that gives the reads before it the same answers more
/// is read. A need comes before the last read that an expansion can have.
pub fn answered_needs_lead_on()
    ensures plan { (a b : Source) (p : Plan Expanded) (wanted : PageTitle) (kind : Kind) (seen : List Read) (answer : Answer)
        → run a p [] ≡ need wanted kind seen → Agrees b seen → ask b wanted kind ≡ Some answer
        → length seen < length (reads_of (run b p [])) }
    ensures view { (a : Source) (page wanted : PageTitle) (kind : Kind) (seen : List Read)
        → view a page ≡ need wanted kind seen → length seen < 1000001 }
    ensures text { (a : Source) (page wanted : PageTitle) (text : List ℕ) (kind : Kind) (seen : List Read)
        → shown_text a page text ≡ need wanted kind seen → length seen < 1000000 }
{}

/// An expansion that begins with nothing seen, and is given the answer that it needs in each round, is done after at most
/// 1,000,001 rounds for a page and 1,000,000 for a given text, whatever the answers are.
pub fn rounds_come_to_an_end()
    ensures view { (answers : ℕ → PageTitle → Kind → Answer) (page : PageTitle)
        → IsDone (view (of_seen (rounds answers page 1000001)) page) }
    ensures text { (answers : ℕ → PageTitle → Kind → Answer) (page : PageTitle) (text : List ℕ)
        → IsDone (shown_text (of_seen (text_rounds answers page text 1000000)) page text) }
{}

/// A plan behind another is met where the first one ended: with its value and its reads.
pub fn plans_go_on()
    ensures { (a : Source) (first : Plan (Output × Progress))
        (next : Output × Progress → Plan (Output × Progress)) (before : List Read)
        → run a (and_then first next) before ≡ goes_on a next (run a first before) }
{}

/// The reads of an expansion hold the source's own answers, whether it is done or in need.
pub fn reads_are_answers()
    ensures view { (a : Source) (page : PageTitle) → Agrees a (reads a page) }
    ensures text { (a : Source) (page : PageTitle) (text : List ℕ)
        → Agrees a (reads_of (shown_text a page text)) }
{}

/// The reads of an expansion are answers that were seen: each pair of title and kind once, and each answer in its
/// kind's form.
pub fn reads_are_seen()
    ensures world { (pages : World) (page : PageTitle) → IsSeen (reads (of_world pages) page) }
    ensures seen { (seen : Seen) (page : PageTitle) → IsSeen seen
        → IsSeen (reads (of_seen seen) page) }
    ensures text_in_a_world { (pages : World) (page : PageTitle) (text : List ℕ)
        → IsSeen (reads_of (shown_text (of_world pages) page text)) }
    ensures text_by_what_was_seen { (seen : Seen) (page : PageTitle) (text : List ℕ) → IsSeen seen
        → IsSeen (reads_of (shown_text (of_seen seen) page text)) }
{}

/// A world answers all that is asked, so an expansion over it is done.
pub fn worlds_are_never_in_need()
    ensures view { (pages : World) (page : PageTitle) → IsDone (view (of_world pages) page) }
    ensures text { (pages : World) (page : PageTitle) (text : List ℕ)
        → IsDone (shown_text (of_world pages) page text) }
{}

/// A page has the same rows in worlds that agree with its reads.
pub fn rows_by_the_reads_alone()
    ensures same { (v w : World) (page : PageTitle)
        → Agrees (of_world w) (reads (of_world v) page) → rows w page ≡ rows v page }
    ensures view { (v w : World) (page : PageTitle)
        → Agrees (of_world w) (reads (of_world v) page)
        → view (of_world w) page ≡ view (of_world v) page }
{}

/// A page that is missing has no rows.
pub fn missing_pages_have_no_rows()
    ensures { (pages : World) (page : PageTitle) → pages page ≡ None → rows pages page ≡ no_rows }
{}

/// An expansion reads at most as many titles as it may cost nodes, and a view its own page besides.
pub fn reads_are_a_million_and_one_at_most()
    ensures view { (a : Source) (page : PageTitle) → length (reads a page) ≤ 1000001 }
    ensures text { (a : Source) (page : PageTitle) (text : List ℕ)
        → length (reads_of (shown_text a page text)) ≤ 1000000 }
{}

/// An inclusion of a redirect reads the title and its target, and goes on with the target's own text, whatever that
/// is. Where it has no further part and the text holds no node it reads nothing else, so never where the target's own
/// target leads.
pub fn redirects_are_followed_once()
    ensures goes_on { (pages : World) (inner : Frame → List Item → Expansion Output)
        (viewed : PageTitle) (frame : Frame) (title target : PageTitle)
        (text target_text : PageText) (parts : List Part) (progress : Progress) (before : List Read)
        → MeetsRedirect pages frame progress title target text target_text
        → run (of_world pages) (inclusion inner viewed frame title parts progress) before
        ≡ run (of_world pages)
        (included inner viewed frame title target target_text.text parts (redirect_charged text progress))
        (redirect_noted title target text target_text before) }
    ensures reads { (pages : World) (left : ℕ) (viewed : PageTitle) (frame : Frame)
        (title target : PageTitle) (text target_text : PageText) (progress : Progress) (before : List Read)
        → MeetsRedirect pages frame progress title target text target_text
        → nodes (tree mode.Include target_text.text) ≡ []
        → reads_of (run (of_world pages) (inclusion (expand left viewed) viewed frame title [] progress) before)
        ≡ redirect_noted title target text target_text before }
{}

/// A page's rows name exactly the titles that are read to be included, and with existence also those that are read to
/// be tested. The read of the page's own text names nothing.
pub fn rows_name_what_is_read()
    ensures text { (pages : World) (page title : PageTitle)
        → names (rows pages page) title Text
        ≡ list_any (is_read_of title Include) (reads (of_world pages) page) }
    ensures both { (pages : World) (page title : PageTitle)
        → names (rows pages page) title Both
        ≡ (list_any (is_read_of title Include) (reads (of_world pages) page)
        || list_any (is_read_of title Exists) (reads (of_world pages) page)) }
{}

/// Where another title's page changes that a page's rows don't name, the page's rows stay. Where it only gets
/// another text, it is enough that they don't name it as an included title.
pub fn unnamed_titles_change_no_rows()
    ensures any_change { (v w : World) (page title : PageTitle) → DifferOnlyAt title v w
        → page ≢ title → names (rows v page) title Both ≡ false → rows w page ≡ rows v page }
    ensures other_text { (v w : World) (page title : PageTitle) → DifferOnlyAt title v w
        → page ≢ title → is_some (w title) ≡ is_some (v title)
        → names (rows v page) title Text ≡ false → rows w page ≡ rows v page }
{}

/// The counters of an expansion never pass its limits.
pub fn counters_stay_within_limits()
    ensures view { (a : Source) (page : PageTitle) (x : Expanded) (seen : List Read)
        → view a page ≡ done x seen → IsWithinLimits x.counters }
    ensures text { (a : Source) (page : PageTitle) (text : List ℕ) (x : Expanded) (seen : List Read)
        → shown_text a page text ≡ done x seen → IsWithinLimits x.counters }
{}

/// Each list of a page's rows is in title order, and has no title twice.
pub fn rows_are_in_order()
    ensures { (pages : World) (page : PageTitle) → RowsAreInOrder (rows pages page) }
{}

/// Each title in a page's rows is one that a text names and that a page can have; those of its members are in the
/// namespace of categories.
pub fn rows_have_page_titles()
    ensures { (pages : World) (page : PageTitle) → RowsHavePageTitles (rows pages page) }
{}

/// The counter of existence tests is the number of titles that were read with kind Exists.
pub fn tests_are_counted()
    ensures view { (a : Source) (page : PageTitle) (x : Expanded) (seen : List Read)
        → view a page ≡ done x seen → x.counters.exists ≡ length (titles_read Exists seen) }
    ensures text { (a : Source) (page : PageTitle) (text : List ℕ) (x : Expanded) (seen : List Read)
        → shown_text a page text ≡ done x seen
        → x.counters.exists ≡ length (titles_read Exists seen) }
{}
