//! Worked examples of reports, as theorems: each is computed from the definition.
//! Nothing stands on this crate, and nothing here runs.
#![tactic(auto)]

ghost use Rattle.std.specs.Prelude.{◌≡◌, codes, ◌∷◌, [], Some};
ghost use Rattle.wk_wiki_rules.specs.Steps.{fan_pages};
ghost use Rattle.wk_wiki_rules.specs.Lives.{replay_by};
ghost use Rattle.wk_wiki_rules.specs.Soundness.{IsSound};
ghost use Rattle.wk_wiki_rules.specs.States.{no_state, world_of};
ghost use Rattle.wk_report_rules.specs.declared.Report.TheVariants.{Wanted, Orphaned, Uncategorized, DoubleRedirects, MostTemplates};
ghost use Rattle.wk_report_rules.specs.Pages.{expanded_pages};
ghost use Rattle.wk_report_rules.specs.Reports.{report_lines};
ghost use Rattle.wk_report_rules.specs.Texts.{report_text};
ghost use Rattle.wk_report_examples.specs.Wikis.{life, lived, circular, deleted, deleted_refreshed, filed, linked, page_a, page_d, printed, redirected, refreshed, talk, talked_of, template, twice, written};

/// A links to the missing pages B and C, and D to C and A: C is wanted by two pages, and only D is orphaned.
pub fn links_to_missing_pages()
    ensures wanted { printed Wanted linked 50 ≡ codes "2 C\n1 B\nlines 2\n" }
    ensures orphaned { printed Orphaned linked 50 ≡ codes "0 D\nlines 1\n" }
    ensures uncategorized { printed Uncategorized linked 50 ≡ codes "0 A\n0 D\nlines 2\n" }
    ensures no_template { printed MostTemplates linked 50 ≡ codes "lines 0\n" }
{}

/// At most so many lines are printed, the first ones in their order, and counted.
pub fn first_lines()
    ensures one { printed Wanted linked 1 ≡ codes "2 C\nlines 1\n" }
    ensures none { printed Wanted linked 0 ≡ codes "lines 0\n" }
{}

/// Titles with one count stand in title order: by the number of the namespace, and then by the key.
pub fn ties()
    ensures { printed Wanted (refreshed (written page_a (codes "[[Talk:B]][[Z]][[Y]]") ∷ [])) 50 ≡ codes "1 Y\n1 Z\n1 Talk:B\nlines 3\n" }
{}

/// X redirects to Y, and Y to Z: X is a double redirect. A redirect to itself is one too.
pub fn redirects_to_redirects()
    ensures chain { printed DoubleRedirects redirected 50 ≡ codes "0 X -> Y -> Z\nlines 1\n" }
    ensures itself { printed DoubleRedirects circular 50 ≡ codes "0 X -> X -> X\nlines 1\n" }
    ensures none { printed DoubleRedirects linked 50 ≡ codes "lines 0\n" }
{}

/// A redirect is neither orphaned nor uncategorized.
pub fn redirects_are_no_articles()
    ensures orphaned { printed Orphaned redirected 50 ≡ codes "lines 0\n" }
    ensures uncategorized { printed Uncategorized redirected 50 ≡ codes "lines 0\n" }
{}

/// A title whose existence is tested counts as one that is linked to, so it is wanted where it is missing.
pub fn tested_titles()
    ensures missing { printed Wanted (refreshed (written page_a (codes "{{#ifexist:Q|a|b}}") ∷ [])) 50 ≡ codes "1 Q\nlines 1\n" }
    ensures there { printed Wanted (refreshed (written page_a (codes "{{#ifexist:D|a|b}}") ∷ written page_d [] ∷ [])) 50 ≡ codes "lines 0\n" }
{}

/// A page's link to itself doesn't save it from being orphaned; an inclusion by a talk page does, and a talk page is never orphaned.
pub fn who_saves_from_orphaned()
    ensures itself { printed Orphaned talked_of 50 ≡ codes "0 A\nlines 1\n" }
    ensures talk_link { printed Orphaned (refreshed (written page_a [] ∷ written (talk (codes "A")) (codes "[[A]]") ∷ [])) 50 ≡ codes "lines 0\n" }
{}

/// The pages in no category.
pub fn pages_without_category()
    ensures { printed Uncategorized filed 50 ≡ codes "0 D\nlines 1\n" }
{}

/// The rows of a deleted page count until it is refreshed; it is itself neither orphaned nor uncategorized.
pub fn deleted_pages()
    ensures wanted { printed Wanted deleted 50 ≡ codes "1 B\nlines 1\n" }
    ensures orphaned { printed Orphaned deleted 50 ≡ codes "lines 0\n" }
    ensures refreshed { printed Wanted deleted_refreshed 50 ≡ codes "lines 0\n" }
    ensures orphaned_then { printed Orphaned deleted_refreshed 50 ≡ codes "0 A\nlines 1\n" }
    ensures uncategorized { printed Uncategorized deleted 50 ≡ codes "0 A\nlines 1\n" }
{}

/// A page that has a title twice counts once, in its rows and in its text.
pub fn titles_that_stand_twice()
    ensures rows { printed Wanted twice 50 ≡ codes "1 B\nlines 1\n" }
    ensures text { printed MostTemplates (refreshed (written page_a (codes "{{T}}{{T}}{{U}}") ∷ written page_d (codes "{{T}}") ∷ [])) 50 ≡ codes "2 Template:T\n1 Template:U\nlines 2\n" }
{}

/// Of a wiki without pages each report has no line.
pub fn no_pages()
    ensures wanted { printed Wanted no_state 50 ≡ codes "lines 0\n" }
    ensures orphaned { printed Orphaned no_state 50 ≡ codes "lines 0\n" }
    ensures uncategorized { printed Uncategorized no_state 50 ≡ codes "lines 0\n" }
    ensures double_redirects { printed DoubleRedirects no_state 50 ≡ codes "lines 0\n" }
    ensures most_templates { printed MostTemplates no_state 50 ≡ codes "lines 0\n" }
{}

/// A wiki that two saves and their refreshes lead to is sound and has no job left, so its reports are those of new expansions.
pub fn a_refreshed_wiki()
    ensures replayed { replay_by fan_pages no_state life ≡ Some lived }
    ensures sound { IsSound lived }
    ensures no_refresh { lived.jobs.refreshes ≡ [] }
    ensures no_fan { lived.jobs.fans ≡ [] }
    ensures stored { printed Wanted lived 50 ≡ codes "2 C\n1 B\nlines 2\n" }
    ensures expanded { report_text (report_lines Wanted (world_of lived) (expanded_pages lived) 50) ≡ codes "2 C\n1 B\nlines 2\n" }
{}
