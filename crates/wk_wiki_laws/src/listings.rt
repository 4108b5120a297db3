//! Listings, and the names of a page between the two halves of a change.
ghost use Rattle.std.specs.Prelude.{◌≡◌, ◌||◌, ◌+◌, ℕ, option_map, slice_get};
ghost use Rattle.std.specs.List.{list_any};
ghost use Rattle.wk_text_rules.specs.Titles.{PageTitle, title_eq};
ghost use Rattle.wk_page_rules.specs.History.{History};
ghost use Rattle.wk_page_rules.specs.PageRows.{PageRows, names};
ghost use Rattle.wk_page_rules.specs.declared.Reach.{Reach};
ghost use Rattle.wk_wiki_rules.specs.Links.{links_to};
ghost use Rattle.wk_wiki_rules.specs.Names.{admitted, AreAmong};
ghost use Rattle.wk_wiki_rules.specs.Revisions.{newest_below, page_revisions_below};

/// Between the two halves of a change a page is found by its old names and by its new ones, and by no other.
pub fn a_page_is_found_by_both()
    ensures named { (old new : PageRows) (title : PageTitle) (reach : Reach)
        → names (admitted old new) title reach ≡ (names old title reach || names new title reach) }
    ensures linked { (old new : PageRows) (title : PageTitle)
        → links_to (admitted old new) title ≡ (links_to old title || links_to new title) }
    ensures member { (old new : PageRows) (category : PageTitle)
        → list_any (λ member. title_eq member.category category) (admitted old new).members
        ≡ (list_any (λ member. title_eq member.category category) old.members
        || list_any (λ member. title_eq member.category category) new.members) }
{}

/// The new rows are among those of both, so the second half leaves no name out.
pub fn new_rows_are_among_both()
    ensures { (old new : PageRows) → AreAmong new (admitted old new) }
{}

/// The newest revision of a page below a number is the first of the listing of its revisions.
pub fn the_newest_revision_is_listed_first()
    ensures { (h : History) (page below most : ℕ)
        → newest_below h page below
        ≡ option_map (λ revision. revision.0) (slice_get (page_revisions_below h page below (most + 1)) 0) }
{}
