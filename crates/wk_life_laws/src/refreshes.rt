//! What was read for a page's rows, and the present world.
ghost use Rattle.std.specs.Prelude.{◌≡◌, false, ℕ, All, IsTrue, is_some, List, None, Some};
ghost use Rattle.wk_text_rules.specs.Titles.{PageTitle};
ghost use Rattle.wk_page_rules.specs.History.{Page, page_exists, text_of_revision};
ghost use Rattle.wk_view_rules.specs.Plans.{done};
ghost use Rattle.wk_view_rules.specs.Rows.{rows};
ghost use Rattle.wk_view_rules.specs.Views.{Expanded, reads, view};
ghost use Rattle.wk_view_rules.specs.Worlds.{Agrees, IsHonest, Read, Source, World, answer_in, fits_kind, of_world};
ghost use Rattle.wk_view_rules.specs.declared.Kind.{Kind};
ghost use Rattle.wk_wiki_rules.specs.Jobs.{page_held_by};
ghost use Rattle.wk_wiki_rules.specs.States.{State, page_at, stored_at, world_of};
ghost use Rattle.wk_wiki_rules.specs.Events.{Done, step_by};
ghost use Rattle.wk_wiki_laws.specs.WellFormed.{IsWellFormed};
ghost use Rattle.wk_wiki_rules.specs.Staleness.{first_stale, is_stale};

/// Where each text that was read is the text of its revision, each answer has its kind's form and each mark is the present
/// one, the present world answers all that was read in the same way. So a draft of other moments is what its page expands to
/// now, its rows are those that the page has now, and they are stored once the refresh is done.
pub fn present_marks_are_present_answers()
    ensures agrees { (state : State) (seen : List Read)
        → IsHonest (text_of_revision state.history) seen → All (λ (r : Read). IsTrue (fits_kind r.kind r.answer)) seen
        → first_stale (world_of state) seen ≡ None → Agrees (of_world (world_of state)) seen }
    ensures drafted { (state : State) (a : Source) (page : PageTitle) (x : Expanded) (seen : List Read)
        → view a page ≡ done x seen
        → IsHonest (text_of_revision state.history) seen → All (λ (r : Read). IsTrue (fits_kind r.kind r.answer)) seen
        → first_stale (world_of state) seen ≡ None → view (of_world (world_of state)) page ≡ done x seen }
    ensures rows { (state : State) (pages : World) (page : PageTitle)
        → IsHonest (text_of_revision state.history) (reads (of_world pages) page)
        → first_stale (world_of state) (reads (of_world pages) page) ≡ None → rows (world_of state) page ≡ rows pages page }
    ensures stored { (most : ℕ) (state next : State) (journal ticket number : ℕ) (page : Page) (pages : World)
        → IsWellFormed state → page_held_by state.jobs ticket ≡ Some number → page_at state.history number ≡ Some page
        → IsHonest (text_of_revision state.history) (reads (of_world pages) page.title)
        → first_stale (world_of state) (reads (of_world pages) page.title) ≡ None
        → step_by most state journal (Done ticket) ≡ Some next → stored_at next number ≡ rows pages page.title }
{}

/// Only so: where a world answers all that was read in the same way, each mark is the present one.
pub fn present_answers_have_present_marks()
    ensures none_stale { (pages : World) (seen : List Read) → Agrees (of_world pages) seen → first_stale pages seen ≡ None }
    ensures current { (pages : World) (title : PageTitle) (kind : Kind)
        → is_stale pages (record { title = title; kind = kind; answer = answer_in pages title kind }) ≡ false }
{}

/// What the present world answers is honest and has its kind's form; so are the reads of what is drafted of it.
pub fn present_answers_are_honest()
    ensures honest { (state : State) (seen : List Read)
        → Agrees (of_world (world_of state)) seen → IsHonest (text_of_revision state.history) seen }
    ensures formed { (pages : World) (seen : List Read)
        → Agrees (of_world pages) seen → All (λ (r : Read). IsTrue (fits_kind r.kind r.answer)) seen }
    ensures drafted { (state : State) (page : PageTitle)
        → IsHonest (text_of_revision state.history) (reads (of_world (world_of state)) page) }
{}

/// A page exists exactly where the world of its state has it.
pub fn a_page_exists_where_the_world_has_it()
    ensures { (state : State) (title : PageTitle)
        → IsWellFormed state → page_exists state.history title ≡ is_some (world_of state title) }
{}
