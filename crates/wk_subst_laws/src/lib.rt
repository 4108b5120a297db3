//! Laws of substitution. Each is the contract of a function that does nothing: its clauses are the law.
#![tactic(auto)]

ghost use Rattle.std.specs.Prelude.{◌≡◌, ◌+◌, ◌*◌, ◌<◌, ◌≤◌, ℕ, List, [], length, All, None, Some};
ghost use Rattle.wk_text_rules.specs.Titles.{PageTitle};
ghost use Rattle.wk_tree_rules.specs.Trees.{Item, items_source};
ghost use Rattle.wk_view_rules.specs.Expansions.{Progress};
ghost use Rattle.wk_view_rules.specs.Plans.{Plan, done, need, run, reads_of, IsDone, NeedsOrReads};
ghost use Rattle.wk_view_rules.specs.Worlds.{World, Source, Answer, Read, Seen, of_world, of_seen, ask, Agrees, IsSeen};
ghost use Rattle.wk_view_rules.specs.declared.Kind.{Kind};
ghost use Rattle.wk_view_rules.specs.declared.Kind.TheVariants.{Include};
ghost use Rattle.wk_view_laws.specs.Titles.{IsPageTitle};
ghost use Rattle.wk_subst_rules.specs.Places.{Place};
ghost use Rattle.wk_subst_rules.specs.Substitution.{substituted, substituted_items};
ghost use Rattle.wk_subst_laws.specs.Limits.{IsWithinBudget};
ghost use Rattle.wk_subst_laws.specs.Rounds.{rounds_by, saved_rounds};

/// A plan of any result that is done over one source is the same over each source that gives its reads the same answers; and a
/// need of one source is a need of the other one, or is answered there, and then it is among the reads. A plan that is given the
/// answer that it needs in each round is done after as many rounds as each of its needs comes before.
pub fn plans_of_any_result<A>()
    ensures done { (a b : Source) (p : Plan A) (x : A) (seen : List Read)
        → run a p [] ≡ done x seen → Agrees b seen → run b p [] ≡ done x seen }
    ensures needed { (a b : Source) (p : Plan A) (wanted : PageTitle) (kind : Kind) (seen : List Read)
        → run a p [] ≡ need wanted kind seen → Agrees b seen → NeedsOrReads wanted kind seen (run b p []) }
    ensures rounds { (answers : ℕ → PageTitle → Kind → Answer) (p : Plan A) (most : ℕ)
        → ((seen : Seen) (title : PageTitle) (kind : Kind) (after : List Read) → run (of_seen seen) p [] ≡ need title kind after → length after < most)
        → IsDone (run (of_seen (rounds_by answers p most)) p []) }
{}

/// A substitution that is done over one source is the same over each source that gives its reads the same answers. Sources are
/// worlds and lists of answers alike, so a text that was made of answers of many moments is what the text becomes in each world
/// that agrees with its reads.
pub fn done_by_the_reads_alone()
    ensures text { (a b : Source) (text x : List ℕ) (seen : List Read)
        → substituted a text ≡ done x seen → Agrees b seen → substituted b text ≡ done x seen }
    ensures world { (v w : World) (text : List ℕ)
        → Agrees (of_world w) (reads_of (substituted (of_world v) text)) → substituted (of_world w) text ≡ substituted (of_world v) text }
    ensures items { (a b : Source) (left : ℕ) (place : Place) (items : List Item) (progress : Progress) (before : List Read)
        (x : List ℕ × Progress) (seen : List Read)
        → Agrees a before → run a (substituted_items left place items progress) before ≡ done x seen → Agrees b seen
        → run b (substituted_items left place items progress) before ≡ done x seen }
{}

/// A need of one source is a need of each source that gives the reads before it the same answers, or that source answers it,
/// and then it is among the reads there.
pub fn needed_by_the_reads_alone()
    ensures text { (a b : Source) (text : List ℕ) (wanted : PageTitle) (kind : Kind) (seen : List Read)
        → substituted a text ≡ need wanted kind seen → Agrees b seen → NeedsOrReads wanted kind seen (substituted b text) }
    ensures items { (a b : Source) (left : ℕ) (place : Place) (items : List Item) (progress : Progress) (before : List Read)
        (wanted : PageTitle) (kind : Kind) (seen : List Read)
        → Agrees a before → run a (substituted_items left place items progress) before ≡ need wanted kind seen → Agrees b seen
        → NeedsOrReads wanted kind seen (run b (substituted_items left place items progress) before) }
{}

/// What is needed is the text of a page that can be, and the source doesn't answer it; it comes before the last read that a
/// substitution can have.
pub fn needs_are_of_pages()
    ensures kind { (a : Source) (text : List ℕ) (wanted : PageTitle) (kind : Kind) (seen : List Read)
        → substituted a text ≡ need wanted kind seen → kind ≡ Include }
    ensures title { (a : Source) (text : List ℕ) (wanted : PageTitle) (kind : Kind) (seen : List Read)
        → substituted a text ≡ need wanted kind seen → IsPageTitle wanted }
    ensures unanswered { (a : Source) (text : List ℕ) (wanted : PageTitle) (kind : Kind) (seen : List Read)
        → substituted a text ≡ need wanted kind seen → ask a wanted kind ≡ None }
    ensures early { (a : Source) (text : List ℕ) (wanted : PageTitle) (kind : Kind) (seen : List Read)
        → substituted a text ≡ need wanted kind seen → length seen < 1000000 }
{}

/// A need that another source answers leads on there: over a source that gives the reads before it the same answers more is
/// read.
pub fn answered_needs_lead_on()
    ensures { (a b : Source) (text : List ℕ) (wanted : PageTitle) (kind : Kind) (seen : List Read) (answer : Answer)
        → substituted a text ≡ need wanted kind seen → Agrees b seen → ask b wanted kind ≡ Some answer
        → length seen < length (reads_of (substituted b text)) }
{}

/// A substitution that begins with nothing seen, and is given the answer that it needs in each round, is done after at most
/// 1,000,000 rounds, whatever the answers are.
pub fn rounds_come_to_an_end()
    ensures { (answers : ℕ → PageTitle → Kind → Answer) (text : List ℕ)
        → IsDone (substituted (of_seen (saved_rounds answers text 1000000)) text) }
{}

/// The reads of a substitution hold the source's own answers, whether it is done or in need; each pair of title and kind is
/// among them once, with an answer in its kind's form.
pub fn reads_are_answers()
    ensures own { (a : Source) (text : List ℕ) → Agrees a (reads_of (substituted a text)) }
    ensures world { (pages : World) (text : List ℕ) → IsSeen (reads_of (substituted (of_world pages) text)) }
    ensures seen { (seen : Seen) (text : List ℕ) → IsSeen seen → IsSeen (reads_of (substituted (of_seen seen) text)) }
    ensures most { (a : Source) (text : List ℕ) → length (reads_of (substituted a text)) ≤ 1000000 }
{}

/// A world answers all that is asked, so a substitution over it is done.
pub fn worlds_are_never_in_need()
    ensures { (pages : World) (text : List ℕ) → IsDone (substituted (of_world pages) text) }
{}

/// A text becomes at most as long as it was, and as the results of calls may be in all.
pub fn results_are_bounded()
    ensures { (a : Source) (text x : List ℕ) (seen : List Read)
        → substituted a text ≡ done x seen → length x ≤ length text + 2097152 }
{}

/// In the middle of a substitution, in whichever place: what the items of a list become is paid for, each byte more than their
/// source by what calls gave, or by a node, which pays for 64. The limits are kept. So a list becomes at most 66,097,152 bytes
/// longer than its source, before what a call gives is looked at for its bytes.
pub fn texts_are_paid_for()
    ensures paid { (a : Source) (left : ℕ) (place : Place) (items : List Item) (progress : Progress) (before : List Read)
        (x : List ℕ × Progress) (seen : List Read)
        → IsWithinBudget progress → run a (substituted_items left place items progress) before ≡ done x seen
        → length x.0 + (64 * progress.counters.nodes + progress.counters.include)
        ≤ length (items_source items) + (64 * x.1.counters.nodes + x.1.counters.include) }
    ensures within { (a : Source) (left : ℕ) (place : Place) (items : List Item) (progress : Progress) (before : List Read)
        (x : List ℕ × Progress) (seen : List Read)
        → IsWithinBudget progress → run a (substituted_items left place items progress) before ≡ done x seen → IsWithinBudget x.1 }
    ensures most { (a : Source) (left : ℕ) (place : Place) (items : List Item) (progress : Progress) (before : List Read)
        (x : List ℕ × Progress) (seen : List Read)
        → IsWithinBudget progress → run a (substituted_items left place items progress) before ≡ done x seen
        → length x.0 ≤ length (items_source items) + 66097152 }
{}
