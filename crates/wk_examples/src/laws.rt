//! Worlds and reads that meet the premises of the laws of views.
ghost use Rattle.std.specs.Prelude.{◌≡◌, ◌≢◌, codes, ◌∷◌, [], pos, true, false, is_some, Some};
ghost use Rattle.wk_text_rules.specs.Titles.{PageTitle};
ghost use Rattle.wk_page_rules.specs.PageRows.{names};
ghost use Rattle.wk_page_rules.specs.declared.Reach.TheVariants.{Text, Both};
ghost use Rattle.wk_tree_rules.specs.Tree.{tree};
ghost use Rattle.wk_tree_rules.specs.declared.Mode.TheVariants as mode;
ghost use Rattle.wk_view_rules.specs.Expand.{expand};
ghost use Rattle.wk_view_rules.specs.Expansions.{most_open, no_progress};
ghost use Rattle.wk_view_rules.specs.Plans.{need, run};
ghost use Rattle.wk_view_rules.specs.Rows.{rows};
ghost use Rattle.wk_view_rules.specs.Views.{reads, view};
ghost use Rattle.wk_view_rules.specs.Worlds.{Agrees, IsSeen, of_seen, of_world, page};
ghost use Rattle.wk_view_rules.specs.declared.Kind.TheVariants.{View, Include};
ghost use Rattle.wk_view_laws.specs.Changes.{DifferOnlyAt};
ghost use Rattle.wk_view_laws.specs.Inclusions.{MeetsRedirect};
ghost use Rattle.wk_examples.specs.Pages.{changed, page_p, pages, titled, world_before};

/// A world in which another page has another text agrees with a page's reads, and its rows don't name that page.
pub fn a_page_that_is_not_read()
    ensures agrees { Agrees (of_world (changed (titled (pos 0) (codes "B")) (codes "c") world_before))
        (reads (of_world world_before) page_p) }
    ensures differs { DifferOnlyAt (titled (pos 0) (codes "B")) world_before
        (changed (titled (pos 0) (codes "B")) (codes "c") world_before) }
    ensures unnamed { names (rows world_before page_p) (titled (pos 0) (codes "B")) Both ≡ false }
{}

/// A page whose existence is tested is named with existence, and not as text.
pub fn a_page_that_is_tested()
    ensures unnamed { names (rows world_before page_p) (titled (pos 0) (codes "Q")) Text ≡ false }
    ensures named { names (rows world_before page_p) (titled (pos 0) (codes "Q")) Both ≡ true }
{}

/// A need, with a world that agrees with the reads before it; and the same need of what stands behind the first read.
pub fn a_need()
    ensures needed { view
        (of_seen
        (record { title = page_p; kind = View; answer = page (world_before page_p) } ∷ [])) page_p
        ≡ need (titled (pos 10) (codes "A")) Include
        (record { title = page_p; kind = View; answer = page (world_before page_p) } ∷ []) }
    ensures middle { run
        (of_seen
        (record { title = page_p; kind = View; answer = page (world_before page_p) } ∷ []))
        (expand most_open page_p [] (tree mode.View (codes "{{A}}{{#ifexist:Q|y}}")) no_progress)
        (record { title = page_p; kind = View; answer = page (world_before page_p) } ∷ [])
        ≡ need (titled (pos 10) (codes "A")) Include
        (record { title = page_p; kind = View; answer = page (world_before page_p) } ∷ []) }
    ensures answered { Agrees
        (of_seen
        (record { title = page_p; kind = View; answer = page (world_before page_p) } ∷ []))
        (record { title = page_p; kind = View; answer = page (world_before page_p) } ∷ []) }
    ensures agrees { Agrees (of_world world_before)
        (record { title = page_p; kind = View; answer = page (world_before page_p) } ∷ []) }
    ensures seen { IsSeen
        (record { title = page_p; kind = View; answer = page (world_before page_p) } ∷ []) }
{}

/// A redirect to a redirect, at the root.
pub fn a_redirect()
    ensures met { MeetsRedirect
        (pages
        ((codes "Template:R", codes "#redirect [[Template:S]]")
        ∷ (codes "Template:S", codes "#redirect [[Template:R]]") ∷ [])) [] no_progress
        (titled (pos 10) (codes "R")) (titled (pos 10) (codes "S"))
        (record { revision = 1; text = codes "#redirect [[Template:S]]" })
        (record { revision = 2; text = codes "#redirect [[Template:R]]" }) }
{}
