//! What texts and pages expand to, and what is read. Worlds are written as `specs/Pages.antt` says.
ghost use Rattle.std.specs.Prelude.{◌≡◌, codes, ◌∷◌, [], ◌++◌, pos, Some, length, replicate};
ghost use Rattle.wk_view_rules.specs.declared.Kind.TheVariants.{View, Include, Exists};
ghost use Rattle.wk_text_rules.specs.Marked.{all_plain};
ghost use Rattle.wk_view_rules.specs.Expansions.{argument_within_limit, charged, give, inclusion_within_limit, no_progress, with_argument, with_include, with_nodes};
ghost use Rattle.wk_view_rules.specs.Plans.{done, gives, need};
ghost use Rattle.wk_view_rules.specs.Texts.{argument_error, link_text, node_error};
ghost use Rattle.wk_view_rules.specs.Views.{view, shown_text};
ghost use Rattle.wk_view_rules.specs.Worlds.{of_seen, page};
ghost use Rattle.wk_examples.specs.Pages.{given, given_counters, given_reads, viewed, viewed_reads, pages, only, api, titled, chain_of_templates, a_hundred_and_one, existence_tests, in_arguments, times};

/// Arguments that nothing binds, and templates without pages.
pub fn nothing_there()
    ensures argument { given (pages []) (codes "{{{{x}}}}") ≡ codes "{{{{x}}}}" }
    ensures argument_in_a_name { given (pages []) (codes "{{{{{x|B}}}}}")
        ≡ codes "[[:Template:B]]" }
    ensures argument_at_the_top { given (pages []) (codes "{{{n}}}") ≡ codes "{{{n}}}" }
    ensures default_whole { given (pages []) (codes "{{{n| a = b |c}}}") ≡ codes " a = b " }
    ensures default_in_a_default { given (pages []) (codes "{{{a|{{{b|{{{c|d}}}}}}}}}")
        ≡ codes "d" }
    ensures crossing_marks { given (pages []) (codes "{{A [[ }} ]]") ≡ codes "{{A [[ }} ]]" }
    ensures reads { given_reads (pages []) (codes "{{B}}{{b}}{{:C}}{{B#d}}")
        ≡ (Include, codes "Template:B", 0) ∷ (Include, codes "C", 0) ∷ [] }
    ensures missing_page { viewed (pages []) api ≡ [] }
    ensures missing_page_reads { viewed_reads (pages []) api ≡ (View, codes "API", 0) ∷ [] }
{}

/// Titles that aren't legal in a call, and those in which no page can be.
pub fn names_that_call_nothing()
    ensures brace { given (pages []) (codes "{{a{|x}}") ≡ codes "{{a{|x}}" }
    ensures other_function { given (pages []) (codes "{{#expr:1}}") ≡ codes "{{#expr:1}}" }
    ensures special { given (pages []) (codes "{{Special:X}}") ≡ codes "[[:Special:X]]" }
    ensures special_reads { given_reads (pages []) (codes "{{Special:X}}{{Media:X}}") ≡ [] }
    ensures written_with_its_parts { given (pages []) (codes "{{ a{ <!--c-->| {{{b|d}}} = e |f}}")
        ≡ codes "{{ a{ | d = e |f}}" }
    ensures sealed_byte { given (pages []) (codes "{{A<nowiki/>|{{{b|c}}}}}")
        ≡ codes "{{A<nowiki/>|c}}" }
    ensures empty_name { given (pages []) (codes "{{|{{{b|c}}}}}") ≡ codes "{{|c}}" }
    ensures parts_are_read { given_reads (pages []) (codes "{{<nowiki/>|{{B}}={{C}}}}")
        ≡ (Include, codes "Template:B", 0) ∷ (Include, codes "Template:C", 0) ∷ [] }
{}

/// Comments, and text that is sealed.
pub fn comments_and_sealed_text()
    ensures line_comment { given (pages []) (codes "a\n <!-- c --> \nb") ≡ codes "a\nb" }
    ensures comment { given (pages []) (codes "a <!--c--> b") ≡ codes "a  b" }
    ensures sealed { given (pages []) (codes "<nowiki>{{A}}</nowiki>")
        ≡ codes "<nowiki>{{A}}</nowiki>" }
    ensures open_sealed { given (pages []) (codes "<nowiki>{{A}}")
        ≡ codes "<nowiki>[[:Template:A]]" }
    ensures sealed_isnt_blank { given (pages []) (codes "{{#if:<nowiki/>|y|n}}") ≡ codes "y" }
    ensures sealed_isnt_equal { given (pages [])
        (codes "{{#ifeq:<nowiki>a</nowiki>|<nowiki>a</nowiki>|s|d}}") ≡ codes "d" }
{}

/// How arguments are bound: by number, by name, the later of two, and not with a sealed byte in the name.
pub fn bindings()
    ensures brackets_and_equals { given (only (codes "Template:A") (codes "1={{{1}}};k={{{k}}}"))
        (codes "{{A|[[p|q]]|k=v=w}}") ≡ codes "1=[[p|q]];k=v=w" }
    ensures blank_ends { given (only (codes "Template:A") (codes "({{{1}}})({{{k}}})"))
        (codes "{{A| a | k = b }}") ≡ codes "( a )(b)" }
    ensures number_as_a_name { given (only (codes "Template:A") (codes "{{{1}}},{{{2}}}"))
        (codes "{{A|2=x|a|y}}") ≡ codes "a,y" }
    ensures later_name { given (only (codes "Template:A") (codes "{{{k}}}{{{1}}}"))
        (codes "{{A|k=a|b|k=c|1=d}}") ≡ codes "cd" }
    ensures no_leading_zero { given (only (codes "Template:A") (codes "{{{01}}}{{{1}}}"))
        (codes "{{A|x}}") ≡ codes "{{{01}}}x" }
    ensures empty_name { given (only (codes "Template:A") (codes "{{{}}}{{{ }}}"))
        (codes "{{A|=x}}") ≡ codes "xx" }
    ensures sealed_name { given (only (codes "Template:A") (codes "{{{k<nowiki/>|d}}}"))
        (codes "{{A|k<nowiki/>=x}}") ≡ codes "d" }
    ensures empty_value { given (only (codes "Template:A") (codes "({{{k|d}}}{{{1|e}}})"))
        (codes "{{A|k=|}}") ≡ codes "()" }
    ensures name_from_an_argument { given (only (codes "Template:A") (codes "{{{k}}}"))
        (codes "{{A|{{{x|k}}}=v}}") ≡ codes "v" }
    ensures names_are_read_first { given_reads (only (codes "Template:A") (codes "{{{k}}}"))
        (codes "{{A|k={{B}}|{{C}}=c|{{D}}}}")
        ≡ (Include, codes "Template:A", 1) ∷ (Include, codes "Template:C", 0)
        ∷ (Include, codes "Template:B", 0) ∷ [] }
{}

/// Values are expanded in the frame of the caller, through each level.
pub fn frames()
    ensures three_levels { given
        (pages
        ((codes "Template:A", codes "{{B|{{{1}}}b}}")
        ∷ (codes "Template:B", codes "{{C|{{{1}}}c}}") ∷ (codes "Template:C", codes "{{{1}}}")
        ∷ [])) (codes "{{A|a}}") ≡ codes "abc" }
    ensures unbound_in_the_caller { given
        (pages
        ((codes "Template:A", codes "{{B|{{{2}}}}}")
        ∷ (codes "Template:B", codes "{{{1}}}{{{2}}}") ∷ [])) (codes "{{A|a}}")
        ≡ codes "{{{2}}}{{{2}}}" }
    ensures not_in_the_callee { given
        (pages
        ((codes "Template:A", codes "{{B|{{{k|d}}}|k=v}}")
        ∷ (codes "Template:B", codes "{{{1}}}{{{k}}}") ∷ [])) (codes "{{A}}") ≡ codes "dv" }
    ensures the_viewed_page { viewed
        (pages
        ((codes "Talk:P q", codes "{{A|{{PAGENAME}}}}")
        ∷ (codes "Template:A", codes "{{{1}}}/{{PAGENAME}}/{{FULLPAGENAME}}/{{NAMESPACE}}") ∷ []))
        (titled (pos 1) (codes "P_q")) ≡ codes "P q/P q/Talk:P q/Talk" }
{}

/// Inclusion: what is selected, loops, and how deep.
pub fn inclusions()
    ensures selected { given
        (only (codes "Template:X")
        (codes "x<onlyinclude>y</onlyinclude>z<noinclude>n</noinclude>")) (codes "{{X}}")
        ≡ codes "y" }
    ensures viewed_itself { viewed
        (only (codes "Template:X")
        (codes "x<onlyinclude>y</onlyinclude>z<noinclude>n</noinclude>"))
        (titled (pos 10) (codes "X")) ≡ codes "xyzn" }
    ensures in_a_loop { given (only (codes "Template:L") (codes "a{{L}}")) (codes "{{L}}")
        ≡ codes "a<span class=\"error\">Template loop detected: Template:L</span>" }
    ensures loop_viewed { viewed (only (codes "Template:L") (codes "a{{L}}"))
        (titled (pos 10) (codes "L"))
        ≡ codes "aa<span class=\"error\">Template loop detected: Template:L</span>" }
    ensures no_loop_in_an_argument { given (only (codes "Template:A") (codes "[{{{1}}}]"))
        (codes "{{A|{{A|x}}}}") ≡ codes "[[x]]" }
    ensures forty_deep { given chain_of_templates (codes "{{T2}}") ≡ codes "x" }
    ensures forty_one_deep { given chain_of_templates (codes "{{T1}}")
        ≡ codes "<span class=\"error\">Template depth limit exceeded: Template:T41</span>" }
    ensures text_made_isnt_searched { given (only (codes "Template:A") (codes "{{{{{1}}}"))
        (codes "{{A|x}}B}}") ≡ codes "{{xB}}" }
{}

/// Variables, and the bar among parts.
pub fn variables()
    ensures bar { given (only (codes "Template:A") (codes "({{{1}}})({{{2|d}}})"))
        (codes "{{A|a{{!}}b}}") ≡ codes "(a|b)(d)" }
    ensures with_a_part { given (pages []) (codes "{{!|}}{{PAGENAME|}}")
        ≡ codes "[[:Template:!]][[:Template:PAGENAME]]" }
    ensures other_case { given (pages []) (codes "{{pagename}}{{ PAGENAME }}")
        ≡ codes "[[:Template:Pagename]]API" }
    ensures main_namespace { given (pages []) (codes "({{NAMESPACE}})({{FULLPAGENAME}})")
        ≡ codes "()(API)" }
    ensures sealed { given (pages []) (codes "{{PAGENAME<nowiki/>}}")
        ≡ codes "{{PAGENAME<nowiki/>}}" }
    ensures nothing_is_read { given_reads (pages [])
        (codes "{{!}}{{PAGENAME}}{{FULLPAGENAME}}{{NAMESPACE}}") ≡ [] }
{}

/// `#if`, `#ifeq` and `#iferror`.
pub fn conditions()
    ensures blank { given (pages []) (codes "{{#if: |t|e}}") ≡ codes "e" }
    ensures not_blank { given (pages []) (codes "{{#IF:x| t = u | e }}") ≡ codes "t = u" }
    ensures no_operand { given (pages []) (codes "({{#if:x}})({{#if:}})({{#if:|t}})")
        ≡ codes "()()()" }
    ensures equal_numbers { given (pages []) (codes "{{#ifeq:+001.0|1e0|s|d}}") ≡ codes "s" }
    ensures equal_to_nothing { given (pages []) (codes "{{#ifeq:|||d}}{{#ifeq:a|A|s|d}}")
        ≡ codes "d" }
    ensures no_error { given (pages []) (codes "{{#iferror:a}}") ≡ codes "a" }
    ensures no_error_with_an_operand { given (pages [])
        (codes "{{#iferror: a |b}}({{#iferror:a|b|}}){{#iferror:a|b|c}}") ≡ codes "a()c" }
    ensures error { given (only (codes "Template:L") (codes "{{L}}"))
        (codes "({{#iferror:{{L}}}})({{#iferror:{{L}}|b|c}})") ≡ codes "()(b)" }
    ensures error_in_sealed_text { given (pages [])
        (codes "{{#iferror:<nowiki>class=\"error\"</nowiki>|b|c}}{{#iferror:class=\"error\"|b|c}}")
        ≡ codes "cb" }
    ensures only_what_is_named { given_reads (pages [])
        (codes "{{#if:|{{B}}|{{C}}}}{{#ifeq:{{A}}|{{A}}|{{D}}|{{E}}|{{F}}}}")
        ≡ (Include, codes "Template:C", 0) ∷ (Include, codes "Template:A", 0)
        ∷ (Include, codes "Template:D", 0) ∷ [] }
{}

/// `#switch`: matches, default items, and what stands last.
pub fn switches()
    ensures falls_through { given (pages []) (codes "{{#switch:b|a|b|c=X|Y}}") ≡ codes "X" }
    ensures default_in_the_middle { given (pages []) (codes "{{#switch:d|a=1|#default=2|b=3}}")
        ≡ codes "2" }
    ensures default_first_and_bare_last { given (pages []) (codes "{{#switch:d|#default=2|z}}")
        ≡ codes "z" }
    ensures default_last { given (pages []) (codes "{{#switch:d|a=1|#DEFAULT= 2 }}") ≡ codes "2" }
    ensures bare_default { given (pages []) (codes "{{#switch:d|#default|a=1|b=2}}") ≡ codes "1" }
    ensures bare_default_last { given (pages []) (codes "{{#switch:d|a=1|#default}}")
        ≡ codes "#default" }
    ensures bare_default_as_the_subject { given (pages [])
        (codes "{{#switch:#default|#default|a=1|b=2}}") ≡ codes "1" }
    ensures last_default_counts { given (pages [])
        (codes "{{#switch:d|#default=1|#default=2|a=3}}") ≡ codes "2" }
    ensures default_after_a_match { given (pages []) (codes "{{#switch:a|#default=1|a=2}}")
        ≡ codes "2" }
    ensures matched_last { given (pages []) (codes "{{#switch:b|b}}") ≡ codes "b" }
    ensures no_item { given (pages []) (codes "({{#switch:b}})({{#switch:b|a=1}})") ≡ codes "()()" }
    ensures empty_subject { given (pages []) (codes "{{#switch:|a=1|=2}}") ≡ codes "2" }
    ensures numbers { given (pages []) (codes "{{#switch:1.0|01|x=y}}") ≡ codes "y" }
    ensures equals_in_a_value { given (pages []) (codes "{{#switch:a|a= b = c }}") ≡ codes "b = c" }
    ensures bare_items_behind_a_match { given_reads (pages [])
        (codes "{{#switch:b|b|{{C}}|{{D}}={{E}}|{{F}}}}")
        ≡ (Include, codes "Template:C", 0) ∷ (Include, codes "Template:E", 0) ∷ [] }
{}

/// `#ifexist`: what it gives, what is read, and which tests count.
pub fn existence()
    ensures there { given (only (codes "Q") (codes "")) (codes "{{#ifexist:Q|y|n}}") ≡ codes "y" }
    ensures missing { given (pages []) (codes "{{#ifexist:Q|y|n}}") ≡ codes "n" }
    ensures missing_reads { viewed_reads (only (codes "P") (codes "{{#ifexist:Q|y|n}}"))
        (titled (pos 0) (codes "P")) ≡ (View, codes "P", 1) ∷ (Exists, codes "Q", 0) ∷ [] }
    ensures not_read { given_reads (pages [])
        (codes "{{#ifexist:Special:X|y|n}}{{#ifexist:Media:X|y|n}}{{#ifexist:|y|n}}{{#ifexist:a<nowiki/>|y|n}}")
        ≡ [] }
    ensures counted_once { given_counters (pages [])
        (codes "{{#ifexist:Q|y|n}}{{#ifexist:q#x|y|n}}{{#ifexist:R|y|n}}")
        ≡ record { nodes = 3; include = 0; argument = 0; exists = 2 } }
    ensures other_kind_is_counted { given_counters (pages []) (codes "{{:Q}}{{#ifexist:Q|y|n}}")
        ≡ record { nodes = 2; include = 0; argument = 0; exists = 1 } }
    ensures both_kinds { given_reads (only (codes "Q") (codes ""))
        (codes "{{#ifexist:Q|y|n}}{{:Q}}{{#ifexist:Q|y|n}}")
        ≡ (Exists, codes "Q", 1) ∷ (Include, codes "Q", 1) ∷ [] }
{}

/// A hundred titles are tested, and a title that was tested is answered after that too.
pub fn a_hundred_tests()
    ensures text { given a_hundred_and_one (existence_tests 101 ++ codes "{{#ifexist:A1|y|n}}")
        ≡ replicate 100 121 ++ codes "ny" }
    ensures reads { length
        (given_reads a_hundred_and_one (existence_tests 101 ++ codes "{{#ifexist:A1|y|n}}")) ≡ 100 }
{}

/// What just reaches a limit passes, and what would go above it doesn't: a million nodes, and 2,097,152 bytes.
pub fn limits_are_reached_and_not_passed()
    ensures last_node { charged 1 (give []) (with_nodes 999999 no_progress)
        ≡ gives ([], with_nodes 1000000 no_progress) }
    ensures no_node_left { charged 1 (give []) (with_nodes 1000000 no_progress)
        ≡ gives (node_error, with_nodes 1000000 no_progress) }
    ensures too_few_nodes_left { charged 2 (give []) (with_nodes 999999 no_progress)
        ≡ gives (node_error, with_nodes 1000000 no_progress) }
    ensures last_byte_of_arguments { argument_within_limit (all_plain (codes "a"))
        (with_argument 2097151 no_progress)
        ≡ gives (all_plain (codes "a"), with_argument 2097152 no_progress) }
    ensures too_many_bytes_of_arguments { argument_within_limit (all_plain (codes "ab"))
        (with_argument 2097151 no_progress)
        ≡ gives (argument_error, with_argument 2097151 no_progress) }
    ensures last_byte_of_inclusions { inclusion_within_limit api (all_plain (codes "a"))
        (with_include 2097151 no_progress)
        ≡ gives (all_plain (codes "a"), with_include 2097152 no_progress) }
    ensures too_many_bytes_of_inclusions { inclusion_within_limit api (all_plain (codes "ab"))
        (with_include 2097151 no_progress)
        ≡ gives (link_text api, with_include 2097151 no_progress) }
{}

/// A template as it is used: a box with names, conditions and a switch.
pub fn a_box()
    ensures filled { given
        (only (codes "Template:Box")
        (codes "{{#if:{{{n|}}}|Name: {{{n}}}|}}{{#switch:{{{k}}}|a|b=AB|#default=other}}<noinclude>doc</noinclude>"))
        (codes "{{Box\n| n = Ann \n| k = b\n}}") ≡ codes "Name: AnnAB" }
    ensures nothing_filled { given
        (only (codes "Template:Box")
        (codes "{{#if:{{{n|}}}|Name: {{{n}}}|}}{{#switch:{{{k}}}|a|b=AB|#default=other}}<noinclude>doc</noinclude>"))
        (codes "{{Box}}") ≡ codes "other" }
{}

/// An inclusion follows one redirect and no second one.
pub fn redirects()
    ensures followed { viewed
        (pages
        ((codes "Template:T", codes "t") ∷ (codes "Template:R", codes "#REDIRECT [[Template:T]]")
        ∷ (codes "P", codes "{{R}}") ∷ [])) (titled (pos 0) (codes "P")) ≡ codes "t" }
    ensures followed_reads { viewed_reads
        (pages
        ((codes "Template:T", codes "t") ∷ (codes "Template:R", codes "#REDIRECT [[Template:T]]")
        ∷ (codes "P", codes "{{R}}") ∷ [])) (titled (pos 0) (codes "P"))
        ≡ (View, codes "P", 3) ∷ (Include, codes "Template:R", 2)
        ∷ (Include, codes "Template:T", 1) ∷ [] }
    ensures viewed_itself { viewed
        (pages
        ((codes "Template:T", codes "t") ∷ (codes "Template:R", codes "#REDIRECT [[Template:T]]")
        ∷ [])) (titled (pos 10) (codes "R")) ≡ codes "#REDIRECT [[Template:T]]" }
    ensures to_itself { given (only (codes "Template:S") (codes "#redirect[[Template:S]]"))
        (codes "{{S}}") ≡ codes "#redirect[[Template:S]]" }
    ensures to_nothing { given (only (codes "Template:M") (codes "#REDIRECT [[Template:Gone]]"))
        (codes "{{M}}") ≡ codes "[[:Template:M]]" }
    ensures to_nothing_reads { given_reads
        (only (codes "Template:M") (codes "#REDIRECT [[Template:Gone]]")) (codes "{{M}}")
        ≡ (Include, codes "Template:M", 1) ∷ (Include, codes "Template:Gone", 0) ∷ [] }
    ensures in_a_loop { given
        (pages
        ((codes "Template:W", codes "w{{V}}")
        ∷ (codes "Template:V", codes "#REDIRECT [[Template:W]]") ∷ [])) (codes "{{W}}")
        ≡ codes "w<span class=\"error\">Template loop detected: Template:W</span>" }
    ensures no_second { given
        (pages
        ((codes "Template:W", codes "w{{V}}")
        ∷ (codes "Template:V", codes "#REDIRECT [[Template:W]]")
        ∷ (codes "Template:V2", codes "#REDIRECT [[Template:V]]") ∷ [])) (codes "{{V2}}")
        ≡ codes "#REDIRECT [[Template:W]]" }
    ensures arguments { given
        (pages
        ((codes "Template:T", codes "({{{1}}})")
        ∷ (codes "Template:R", codes "#REDIRECT [[Template:T]]") ∷ [])) (codes "{{R|x}}")
        ≡ codes "(x)" }
{}

/// Over answers that were seen, what is wanted next.
pub fn needs()
    ensures the_page { view (of_seen []) api ≡ need api View [] }
    ensures a_template { view
        (of_seen
        (record {
          title = api;
          kind = View;
          answer = page (Some (record { revision = 7; text = codes "a{{T}}" }));
        } ∷ [])) api
        ≡ need (titled (pos 10) (codes "T")) Include
        (record {
          title = api;
          kind = View;
          answer = page (Some (record { revision = 7; text = codes "a{{T}}" }));
        } ∷ []) }
    ensures existence_first { shown_text (of_seen []) api (codes "{{#ifexist:Q|{{B}}}}{{C}}")
        ≡ need (titled (pos 0) (codes "Q")) Exists [] }
{}

/// What nodes, inclusions and arguments cost.
pub fn costs()
    ensures each_node { given_counters (pages []) (codes "{{{a|{{{b}}}}}} {{!}}")
        ≡ record { nodes = 3; include = 0; argument = 0; exists = 0 } }
    ensures inclusion { given_counters (only (codes "Template:A") (replicate 130 120))
        (codes "{{A}}") ≡ record { nodes = 3; include = 130; argument = 0; exists = 0 } }
    ensures argument { given_counters (only (codes "Template:A") (codes "{{{k}}}"))
        (codes "{{A|k= " ++ replicate 63 120 ++ codes "}}")
        ≡ record { nodes = 3; include = 63; argument = 63; exists = 0 } }
    ensures redirect { given_counters
        (pages
        ((codes "Template:R", codes "#redirect [[Template:T]]") ∷ (codes "Template:T", codes "t")
        ∷ [])) (codes "{{R}}") ≡ record { nodes = 2; include = 1; argument = 0; exists = 0 } }
{}

/// Nodes within each other: two hundred are open, and no more than a hundred nodes of one text.
pub fn nodes_within_each_other()
    ensures two_hundred_open { given
        (pages
        ((codes "Template:B", in_arguments 99 (codes "{{C}}"))
        ∷ (codes "Template:C", codes "{{{x|y}}}") ∷ [])) (in_arguments 99 (codes "{{B}}"))
        ≡ codes "<span class=\"error\">Expansion depth limit exceeded</span>" }
    ensures one_fewer_open { given
        (pages
        ((codes "Template:B", in_arguments 98 (codes "{{C}}"))
        ∷ (codes "Template:C", codes "{{{x|y}}}") ∷ [])) (in_arguments 99 (codes "{{B}}"))
        ≡ codes "y" }
    ensures height { given (pages []) (in_arguments 150 (codes "y"))
        ≡ times 50 (codes "{{{x|") ++ codes "y" ++ times 150 (codes "}") }
{}
