//! Worked examples of substitution, as theorems: each is computed from the definition. Worlds are written as `specs/Pages.antt`
//! says.
//! Nothing stands on this crate, and nothing here runs.
#![tactic(auto)]

ghost use Rattle.std.specs.Prelude.{◌≡◌, codes, ◌∷◌, [], ◌++◌, pos, replicate};
ghost use Rattle.wk_view_rules.specs.Plans.{need};
ghost use Rattle.wk_view_rules.specs.Worlds.{of_seen};
ghost use Rattle.wk_view_rules.specs.declared.Kind.TheVariants.{Include};
ghost use Rattle.wk_subst_rules.specs.Substitution.{substituted};
ghost use Rattle.wk_subst_examples.specs.Pages.{asked, deep, endless, greeting, in_templates, long_and_short, pages, saved, shape, with_bytes_left, with_nodes_left};

/// A template that is called by `subst:` is put in, with its arguments; all else stays.
pub fn templates_are_put_in()
    ensures argument { saved greeting (codes "{{subst:G|Ann}}") ≡ codes "Hi Ann {{B}}" }
    ensures within_a_template { saved greeting (codes "{{A|{{subst:G}}}}") ≡ codes "{{A|Hi you {{B}}}}" }
    ensures within_an_argument { saved greeting (codes "{{{a|{{subst:N}}=b}}}") ≡ codes "{{{a|x=b}}}" }
    ensures missing { saved greeting (codes "{{subst:None}}") ≡ codes "{{subst:None}}" }
    ensures missing_is_asked { asked greeting (codes "{{subst:None}}") ≡ codes "Template:None" ∷ [] }
    ensures other_namespace { saved (pages ((codes "P", codes "p") ∷ [])) (codes "{{subst::P}}") ≡ codes "p" }
    ensures unseen { substituted (of_seen []) (codes "a{{subst:G}}") ≡ need (record { ns = pos 10; key = codes "G" }) Include [] }
{}

/// Sealed text, comments, and what isn't read where the text is viewed stay as they are.
pub fn what_is_not_read()
    ensures sealed { saved greeting (codes "<nowiki>{{subst:G}}</nowiki>") ≡ codes "<nowiki>{{subst:G}}</nowiki>" }
    ensures comment { saved greeting (codes "<!--{{subst:G}}-->") ≡ codes "<!--{{subst:G}}-->" }
    ensures included { saved greeting (codes "<includeonly>{{subst:N}}</includeonly>") ≡ codes "<includeonly>{{subst:N}}</includeonly>" }
    ensures viewed { saved greeting (codes "<noinclude>{{subst:N}}</noinclude>") ≡ codes "<noinclude>x</noinclude>" }
    ensures unclosed { saved greeting (codes "{{subst:G|{{subst:N}}") ≡ codes "{{subst:G|x" }
    ensures nothing_asked { asked greeting (codes "<nowiki>{{subst:G}}</nowiki><!--{{subst:G}}-->{{subst:G}") ≡ [] }
{}

/// How a call may be spelled.
pub fn spellings()
    ensures case_and_blanks { saved greeting (codes "{{ SUBST: G |Ann}}") ≡ codes "Hi Ann {{B}}" }
    ensures newline { saved greeting (codes "{{\nsubst:g\n|Ann}}") ≡ codes "Hi Ann {{B}}" }
    ensures blank_before_the_colon { saved greeting (codes "{{subst :G}}") ≡ codes "{{subst :G}}" }
    ensures twice { asked greeting (codes "{{subst:subst:G}}") ≡ codes "Template:Subst:G" ∷ [] }
    ensures comment_before { saved greeting (codes "{{<!--c-->subst:G}}") ≡ codes "{{<!--c-->subst:G}}" }
    ensures comment_behind { saved greeting (codes "{{subst:G<!--c-->}}") ≡ codes "{{subst:G<!--c-->}}" }
    ensures node_in_the_title { saved greeting (codes "{{subst:{{subst:N}}}}") ≡ codes "{{subst:x}}" }
    ensures no_title { saved greeting (codes "{{subst:|{{subst:N}}}}") ≡ codes "{{subst:|{{subst:N}}}}" }
    ensures fragment { saved greeting (codes "{{subst:N#f}}") ≡ codes "x" }
    ensures negative { saved greeting (codes "{{subst:Special:N}}") ≡ codes "{{subst:Special:N}}" }
    ensures negative_is_not_asked { asked greeting (codes "{{subst:Special:N}}{{subst:Media:N}}") ≡ [] }
{}

/// Values are transformed before they are bound, in the order in which they stand, behind the page that is called.
pub fn operands()
    ensures call { saved greeting (codes "{{subst:G|{{subst:N}}}}") ≡ codes "Hi x {{B}}" }
    ensures order { asked greeting (codes "{{subst:G|{{subst:N}}}}") ≡ codes "Template:G" ∷ codes "Template:N" ∷ [] }
    ensures the_call_itself { saved greeting (codes "{{subst:G|{{subst:G}}}}") ≡ codes "Hi {{subst:G}} {{B}}" }
    ensures beside { saved greeting (codes "{{subst:N}}{{subst:N}}") ≡ codes "xx" }
    ensures asked_once { asked greeting (codes "{{subst:N}}{{subst:N}}") ≡ codes "Template:N" ∷ [] }
    ensures missing_page_has_no_operands { asked greeting (codes "{{subst:None|{{subst:N}}}}") ≡ codes "Template:None" ∷ [] }
    ensures argument { saved greeting (codes "{{subst:G|{{{a}}}}}") ≡ codes "Hi {{{a}}} {{B}}" }
    ensures comment { saved greeting (codes "{{subst:G|a<!--c-->}}") ≡ codes "Hi a<!--c--> {{B}}" }
    ensures untrimmed { saved greeting (codes "{{subst:G| a }}") ≡ codes "Hi  a  {{B}}" }
    ensures trimmed { saved greeting (codes "{{subst:G|1= a }}") ≡ codes "Hi a {{B}}" }
    ensures later { saved greeting (codes "{{subst:G|a|1=b}}") ≡ codes "Hi b {{B}}" }
    ensures equals { saved (shape (codes "{{{a}}}")) (codes "{{subst:T|a=b=c}}") ≡ codes "b=c" }
{}

/// Names are sources: nothing in them is expanded, comments count, and a sealed part binds nothing.
pub fn names()
    ensures not_bound { saved (shape (codes "{{{a}}}{{{a|d}}}")) (codes "{{subst:T|b=c}}") ≡ codes "{{{a}}}d" }
    ensures empty_name { saved (shape (codes "{{{}}}")) (codes "{{subst:T|=c}}") ≡ codes "c" }
    ensures comment { saved greeting (codes "{{subst:G|1<!--c-->=Ann}}") ≡ codes "Hi you {{B}}" }
    ensures same_comment { saved (shape (codes "{{{ 1<!--c--> }}}")) (codes "{{subst:T|1<!--c-->=Ann}}") ≡ codes "Ann" }
    ensures sealed { saved greeting (codes "{{subst:G|<nowiki>1</nowiki>=Ann}}") ≡ codes "Hi you {{B}}" }
    ensures sealed_twice { saved (shape (codes "{{{<nowiki/>|d}}}")) (codes "{{subst:T|<nowiki/>=a}}") ≡ codes "d" }
    ensures sealed_but_transformed { asked greeting (codes "{{subst:G|<nowiki/>={{subst:N}}}}") ≡ codes "Template:G" ∷ codes "Template:N" ∷ [] }
    ensures node_in_a_name { asked greeting (codes "{{subst:G|{{subst:N}}=Ann}}") ≡ codes "Template:G" ∷ [] }
    ensures node_as_a_name { saved (shape (codes "{{{{{{a}}}}}}")) (codes "{{subst:T|{{{a}}}=v}}") ≡ codes "v" }
{}

/// What a page gives where it is put in.
pub fn texts_of_pages()
    ensures sealed { saved (shape (codes "<nowiki>{{{1}}}</nowiki>")) (codes "{{subst:T|a}}") ≡ codes "<nowiki>{{{1}}}</nowiki>" }
    ensures not_included { saved (shape (codes "a<noinclude>b</noinclude><!--c-->")) (codes "{{subst:T}}") ≡ codes "a" }
    ensures included_alone { saved (shape (codes "<includeonly>{{{1}}}</includeonly>")) (codes "{{subst:T|a}}") ≡ codes "a" }
    ensures selected { saved (shape (codes "a<onlyinclude>b</onlyinclude>c")) (codes "{{subst:T}}") ≡ codes "b" }
    ensures other_template { saved (shape (codes "{{B| k = {{{1}}}<!--c-->|}}")) (codes "{{subst:T|a}}") ≡ codes "{{B| k = a|}}" }
    ensures default_with_a_bar { saved (shape (codes "{{{a|b|c}}}")) (codes "{{subst:T}}") ≡ codes "b" }
    ensures default_with_equals { saved (shape (codes "{{{a| b = {{{1}}} }}}")) (codes "{{subst:T|x}}") ≡ codes " b = x " }
    ensures source { saved (shape (codes "{{{ a<!--c--> }}}")) (codes "{{subst:T}}") ≡ codes "{{{ a<!--c--> }}}" }
    ensures call { saved (pages ((codes "Template:T", codes "{{subst:N|{{{1}}}}}") ∷ (codes "Template:N", codes "<{{{1}}}>") ∷ [])) (codes "{{subst:T|a}}") ≡ codes "<a>" }
    ensures made_title { saved (pages ((codes "Template:T", codes "{{subst:{{{1}}}}}") ∷ (codes "Template:N", codes "x") ∷ [])) (codes "{{subst:T|N}}") ≡ codes "{{subst:N}}" }
    ensures redirect { saved (pages ((codes "Template:T", codes "#REDIRECT [[Template:N]]") ∷ (codes "Template:N", codes "x") ∷ [])) (codes "{{subst:T}}") ≡ codes "#REDIRECT [[Template:N]]" }
    ensures redirect_is_not_asked { asked (pages ((codes "Template:T", codes "#REDIRECT [[Template:N]]") ∷ [])) (codes "{{subst:T}}") ≡ codes "Template:T" ∷ [] }
{}

/// A call of a title that it stands within stays as it is written.
pub fn calls_within_themselves()
    ensures one { saved (shape (codes "a{{subst:T}}b")) (codes "{{subst:T}}") ≡ codes "a{{subst:T}}b" }
    ensures two { saved (pages ((codes "Template:T", codes "({{subst:N}})") ∷ (codes "Template:N", codes "[{{subst:t}}]") ∷ [])) (codes "{{subst:T}}") ≡ codes "([{{subst:t}}])" }
    ensures nothing_more_is_asked { asked (shape (codes "{{subst:T}}")) (codes "{{subst:T}}") ≡ codes "Template:T" ∷ [] }
{}

/// Forty calls may stand within each other, and the next one stays.
pub fn forty_calls()
    ensures { saved endless (codes "{{subst:A}}") ≡ codes "{{subst:A" ++ (replicate 40 97 ++ codes "}}") }
{}

/// Two hundred nodes may be open within each other, in the text that is saved and in the pages that are put in together: the
/// 201st stays as it is written. Here 100 are open in the text, the call of D among them, 99 or 100 in D with the call of N, and
/// the one more is in N.
pub fn open_nodes()
    ensures in_two_pages { saved (deep 99 (codes "x")) (in_templates 99 (codes "{{subst:D}}")) ≡ in_templates 99 (in_templates 99 (codes "x")) }
    ensures two_hundred { saved (deep 98 (codes "{{subst:M}}")) (in_templates 99 (codes "{{subst:D}}")) ≡ in_templates 99 (in_templates 98 (codes "y")) }
    ensures one_more { saved (deep 99 (codes "{{subst:M}}")) (in_templates 99 (codes "{{subst:D}}")) ≡ in_templates 99 (in_templates 99 (codes "{{subst:M}}")) }
{}

/// Where the budget ends a node stays as it is written, and so do all later ones.
pub fn budgets()
    ensures enough { with_nodes_left 5 greeting (codes "{{subst:G|Ann}}") ≡ (codes "Hi Ann {{B}}", (999998, 12)) }
    ensures just_enough { with_nodes_left 3 greeting (codes "{{subst:G|Ann}}") ≡ (codes "Hi Ann {{B}}", (1000000, 12)) }
    ensures ends_in_the_page { with_nodes_left 2 greeting (codes "{{subst:G|{{subst:N}}}}") ≡ (codes "Hi {{{1|you}}} {{B}}", (1000000, 21)) }
    ensures spent { with_nodes_left 0 greeting (codes "{{subst:N}}{{a|{{subst:N}}}}") ≡ (codes "{{subst:N}}{{a|{{subst:N}}}}", (1000000, 0)) }
    ensures shared { with_nodes_left 1 greeting (codes "{{subst:N}}{{subst:N}}") ≡ (codes "x{{subst:N}}", (1000000, 1)) }
    ensures page { with_nodes_left 2 (shape (replicate 128 97)) (codes "{{subst:T}}{{subst:T}}") ≡ (codes "{{subst:T}}{{subst:T}}", (1000000, 0)) }
    ensures spent_by_a_page { with_nodes_left 2 long_and_short (codes "{{subst:T}}{{subst:N}}") ≡ (codes "{{subst:T}}{{subst:N}}", (1000000, 0)) }
    ensures page_just_paid { with_nodes_left 3 (shape (replicate 128 97)) (codes "{{subst:T}}") ≡ (replicate 128 97, (1000000, 128)) }
    ensures argument { with_nodes_left 3 (shape (codes "{{{1}}}{{{1|}}}")) (codes "{{subst:T|" ++ (replicate 64 97 ++ codes "}}")) ≡ (replicate 64 97 ++ codes "{{{1|}}}", (1000000, 72)) }
{}

/// Where calls would give more bytes in all than they may, a call stays as it is written, and what it would have given doesn't
/// count. What is put in within a page counts for itself, and once more within that page.
pub fn sums()
    ensures just_enough { with_bytes_left 1 greeting (codes "{{subst:N}}{{subst:N}}") ≡ (codes "x{{subst:N}}", (2, 2097152)) }
    ensures too_many { with_bytes_left 11 greeting (codes "{{subst:G|Ann}}{{subst:N}}") ≡ (codes "{{subst:G|Ann}}x", (4, 2097142)) }
    ensures inner { with_bytes_left 4 (pages ((codes "Template:T", codes "{{subst:N}}") ∷ (codes "Template:N", codes "ab") ∷ [])) (codes "{{subst:T}}") ≡ (codes "ab", (2, 2097152)) }
    ensures inner_too_many { with_bytes_left 3 (pages ((codes "Template:T", codes "{{subst:N}}") ∷ (codes "Template:N", codes "ab") ∷ [])) (codes "{{subst:T}}") ≡ (codes "{{subst:T}}", (2, 2097151)) }
{}
