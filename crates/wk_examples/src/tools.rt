//! What is generated, saved one after the other, and printed of a check.
ghost use Rattle.std.specs.Prelude.{◌≡◌, codes, map, unwrap_or, ◌∷◌, [], Some, None};
ghost use Rattle.wk_page_rules.specs.Verdict.{wiki_full};
ghost use Rattle.wk_page_rules.specs.declared.Limit.TheVariants.{Pages};
ghost use Rattle.wk_wiki_rules.specs.States.{no_state};
ghost use Rattle.wk_wiki_rules.specs.Events.{Save};
ghost use Rattle.wk_wiki_rules.specs.Lives.{opened};
ghost use Rattle.wk_tool_rules.specs.Checks.{check_text, gen_text};
ghost use Rattle.wk_tool_rules.specs.Generator.{draw, next_seed, generated, plain_save};
ghost use Rattle.wk_tool_rules.specs.Saving.{saves_made};
ghost use Rattle.wk_examples.specs.Scripts.{one_page, linking_tables};
ghost use Rattle.wk_examples.specs.Stores.{title_a};
ghost use Rattle.wk_examples.specs.Wikis.{old_tables, opened_2};

/// What the number 1 becomes by a draw, and what is drawn.
pub fn draws()
    ensures becomes { next_seed 1 ≡ 1015568748 }
    ensures below_a_hundred { draw 100 1 ≡ 96 }
{}

/// What is generated for two pages, with the number 1.
pub fn two_pages()
    ensures titles { map (λ edit. edit.title) (generated 2 1) ≡ codes "Template:Infobox" ∷ codes "Template:Note" ∷ codes "Page 1" ∷ codes "Page 2" ∷ [] }
    ensures texts { map (λ edit. unwrap_or edit.body []) (generated 2 1) ≡ codes "<noinclude>{{Infobox|name=Example}}</noinclude><includeonly>'''{{{name|{{PAGENAME}}}}}'''{{#if:{{{f1|}}}|; f1: {{{f1}}}}}{{#if:{{{f2|}}}|; f2: {{{f2}}}}}{{#if:{{{f3|}}}|; f3: {{{f3}}}}}{{#if:{{{f4|}}}|; f4: {{{f4}}}}}{{#if:{{{f5|}}}|; f5: {{{f5}}}}}{{#if:{{{f6|}}}|; f6: {{{f6}}}}}{{#if:{{{f7|}}}|; f7: {{{f7}}}}}{{#if:{{{f8|}}}|; f8: {{{f8}}}}}{{#if:{{{f9|}}}|; f9: {{{f9}}}}}{{#if:{{{f10|}}}|; f10: {{{f10}}}}}{{#if:{{{f11|}}}|; f11: {{{f11}}}}}[[Category:Boxes]]</includeonly>" ∷ codes "<includeonly>[[Category:Notes]]</includeonly>{{#if:{{{1|}}}|({{{1}}})}}" ∷ codes "{{Infobox|name=Page 1|f4=v12|f9=v13|f11=v49}} [[Page 2]] {{Note|0}}[[Category:C4]]" ∷ codes "{{Infobox|name=Page 2|f2=v29|f3=v50|f4=v98|f5=v50|f9=v94|f10=v98|f11=v66}} [[Page 1]] {{Note|7}}[[Category:C0]]" ∷ [] }
{}

/// Saves up to the first that is refused, with a save that changes nothing among them.
pub fn saves_one_after_the_other()
    ensures events { (saves_made one_page no_state 0 (plain_save (codes "a") (codes "x") ∷ plain_save (codes "A") (codes "x ") ∷ plain_save (codes "A") (codes "y") ∷ plain_save (codes "B") [] ∷ plain_save (codes "A") [] ∷ []) (5 ∷ 6 ∷ 7 ∷ [])).events ≡ Save title_a (Some (codes "x")) 5 ∷ Save title_a (Some (codes "y")) 7 ∷ [] }
    ensures refused { (saves_made one_page no_state 0 (plain_save (codes "A") (codes "x") ∷ plain_save (codes "B") [] ∷ []) []).refused ≡ Some (wiki_full Pages) }
    ensures all_made { (saves_made one_page no_state 0 (plain_save (codes "A") (codes "x") ∷ []) []).refused ≡ None }
{}

/// What is printed of a store with a link row too many, and of one of version 1 before and behind its refresh.
pub fn checks()
    ensures nothing { check_text no_state ≡ codes "pages 0 differ 0\n" }
    ensures link_row { check_text (opened linking_tables) ≡ codes "differ A\npages 1 differ 1\n" }
    ensures first_version { check_text (opened old_tables) ≡ codes "differ A\npages 1 differ 1\n" }
    ensures refreshed { check_text opened_2 ≡ codes "pages 1 differ 0\n" }
    ensures generated { gen_text opened_2 ≡ codes "pages 1 revisions 1 jobs 0 differ 0\n" }
{}
