//! Worked examples of listings: pages and revisions, links, members of a category, and names in two halves.
ghost use Rattle.std.specs.Prelude.{◌≡◌, codes, true, false, map, ◌∷◌, [], Some, None};
ghost use Rattle.wk_page_rules.specs.PageRows.{names, no_rows};
ghost use Rattle.wk_page_rules.specs.declared.Reach.TheVariants.{Text};
ghost use Rattle.wk_table_rules.specs.Rows.{category_title};
ghost use Rattle.wk_wiki_rules.specs.Links.{linking_pages};
ghost use Rattle.wk_wiki_rules.specs.Members.{category_members, members_behind};
ghost use Rattle.wk_wiki_rules.specs.Names.{admitted};
ghost use Rattle.wk_wiki_rules.specs.Revisions.{count_existing, changes_below, newest_below, page_revisions_below};
ghost use Rattle.wk_examples.specs.Listings.{in_x};
ghost use Rattle.wk_examples.specs.Queues.{includes};
ghost use Rattle.wk_examples.specs.Stores.{title_a, title_t};
ghost use Rattle.wk_examples.specs.Wikis.{members_3, tested_6, users_9};

/// Q was saved and deleted: it has two revisions, and doesn't exist.
pub fn pages_and_revisions()
    ensures existing { count_existing tested_6.history ≡ 1 }
    ensures newest { newest_below tested_6.history 2 4 ≡ Some 3 }
    ensures before { newest_below tested_6.history 2 3 ≡ Some 2 }
    ensures none_before { newest_below tested_6.history 2 2 ≡ None }
    ensures changes { map (λ change. change.0) (changes_below tested_6.history 4 2) ≡ 3 ∷ 2 ∷ [] }
    ensures of_page { map (λ change. change.0) (page_revisions_below tested_6.history 2 4 10) ≡ 3 ∷ 2 ∷ [] }
{}

/// Three pages link to a template that is missing.
pub fn links_to_a_title()
    ensures all { linking_pages users_9.stored title_t 0 10 ≡ 1 ∷ 2 ∷ 3 ∷ [] }
    ensures above_one { linking_pages users_9.stored title_t 1 1 ≡ 2 ∷ [] }
    ensures none { linking_pages users_9.stored title_a 0 10 ≡ [] }
{}

/// Members stand in the order of their sort keys, and of their pages where these are equal.
pub fn members_in_order()
    ensures one { category_members members_3.stored (category_title (codes "X")) ≡ record { sortkey = codes "P"; page = 1; prefix = [] } ∷ [] }
    ensures order { map (λ member. member.page) (category_members (in_x (codes "b") ∷ in_x (codes "a") ∷ in_x (codes "b") ∷ no_rows ∷ []) (category_title (codes "X"))) ≡ 2 ∷ 1 ∷ 3 ∷ [] }
    ensures behind { map (λ member. member.page) (members_behind (in_x (codes "b") ∷ in_x (codes "a") ∷ in_x (codes "b") ∷ []) (category_title (codes "X")) 1 1) ≡ 1 ∷ [] }
{}

/// Between the halves of a change a page is found by its old names and by its new ones.
pub fn names_in_two_halves()
    ensures old_name { names (admitted (includes title_t) (includes title_a)) title_t Text ≡ true }
    ensures new_name { names (admitted (includes title_t) (includes title_a)) title_a Text ≡ true }
    ensures once { admitted (includes title_t) (includes title_t) ≡ includes title_t }
{}
