//! What tree a text has. Trees are written as `specs/Spelled.antt` says.
ghost use Rattle.std.specs.Prelude.{◌≡◌, codes, length, ℕ, List, ◌∷◌, []};
ghost use Rattle.wk_tree_rules.specs.declared.Mode.TheVariants.{View, Include};
ghost use Rattle.wk_tree_rules.specs.Tree.{nodes, tree};
ghost use Rattle.wk_examples.specs.Spelled.{deep, node_spans, spelled_items, spelled_tree};

/// Runs of two to nine braces.
pub fn runs_of_braces()
    ensures two { spelled_tree View (codes "{{x}}") ≡ codes "T(x)" }
    ensures three { spelled_tree View (codes "{{{x}}}") ≡ codes "A(x)" }
    ensures four { spelled_tree View (codes "{{{{x}}}}") ≡ codes "{A(x)}" }
    ensures five { spelled_tree View (codes "{{{{{x|B}}}}}") ≡ codes "T(A(x|B))" }
    ensures six { spelled_tree View (codes "{{{{{{x}}}}}}") ≡ codes "A(A(x))" }
    ensures seven { spelled_tree View (codes "{{{{{{{x}}}}}}}") ≡ codes "{A(A(x))}" }
    ensures eight { spelled_tree View (codes "{{{{{{{{x}}}}}}}}") ≡ codes "T(A(A(x)))" }
    ensures nine { spelled_tree View (codes "{{{{{{{{{x}}}}}}}}}") ≡ codes "A(A(A(x)))" }
{}

/// What is left of a run stays a run, or a plain byte where it is one mark.
pub fn uneven_runs()
    ensures longer_opening { spelled_tree View (codes "{{{{{x}}") ≡ codes "{{{T(x)" }
    ensures longer_closing { spelled_tree View (codes "{{x}}}}}") ≡ codes "T(x)}}}" }
    ensures shared_opening { spelled_tree View (codes "{{{{a}}b}}") ≡ codes "T(T(a)b)" }
    ensures shared_closing { spelled_tree View (codes "{{a{{b}}}}") ≡ codes "T(aT(b))" }
    ensures three_and_two { spelled_tree View (codes "{{{x}} }") ≡ codes "{T(x) }" }
    ensures two_and_three { spelled_tree View (codes "{{x}}}") ≡ codes "T(x)}" }
{}

/// A closing run looks at the nearest opening run alone, whichever it is.
pub fn crossing()
    ensures brackets_open { spelled_tree View (codes "{{A [[ }} ]]") ≡ codes "{{A [[ }} ]]" }
    ensures braces_open { spelled_tree View (codes "[[a {{b ]] c}}") ≡ codes "[[a T(b ]] c)" }
    ensures brackets_within { spelled_tree View (codes "{{A|[[p|q]]|k=v=w}}") ≡ codes "T(A|[[p|q]]|k:=v=w)" }
    ensures node_within_brackets { spelled_tree View (codes "{{A|[[p|{{B|c}}]]}}") ≡ codes "T(A|[[p|T(B|c)]])" }
    ensures equals_within_brackets { spelled_tree View (codes "{{A|[[p=q]]=r}}") ≡ codes "T(A|[[p=q]]:=r)" }
    ensures three_brackets { spelled_tree View (codes "{{A|[[[p|q]]]}}") ≡ codes "T(A|[[[p|q]]])" }
    ensures four_brackets { spelled_tree View (codes "{{A|[[[[p|q]]r|s]]}}") ≡ codes "T(A|[[[[p|q]]r|s]])" }
{}

/// Bars and equals signs of a node's own content part it; those of a node within don't, nor those outside.
pub fn parts()
    ensures title_with_equals { spelled_tree View (codes "{{a=b|c}}") ≡ codes "T(a=b|c)" }
    ensures empty_parts { spelled_tree View (codes "{{|=|}}") ≡ codes "T(|:=|)" }
    ensures later_equals { spelled_tree View (codes "{{A|x=y=z|=|b}}") ≡ codes "T(A|x:=y=z|:=|b)" }
    ensures nodes_in_names { spelled_tree View (codes "{{A|{{B|c=d}}=e}}") ≡ codes "T(A|T(B|c:=d):=e)" }
    ensures outside { spelled_tree View (codes "a|b=c") ≡ codes "a|b=c" }
    ensures unmatched { spelled_tree View (codes "{{a{|x}}") ≡ codes "T(a{|x)" }
    ensures function { spelled_tree View (codes "{{#if:<nowiki/>|y|n}}") ≡ codes "T(#if:S(<nowiki/>)|y|n)" }
    ensures open_nowiki { spelled_tree View (codes "<nowiki>{{A}}") ≡ codes "<nowiki>T(A)" }
{}

/// What gives nothing stays in its place; the mode selects what is read.
pub fn comments_and_modes()
    ensures comment { spelled_tree View (codes "{{A<!--|-->|b}}") ≡ codes "T(AN(<!--|-->)|b)" }
    ensures viewed { spelled_tree View (codes "x<onlyinclude>y</onlyinclude>z<noinclude>n</noinclude>") ≡ codes "xN(<onlyinclude>)yN(</onlyinclude>)zN(<noinclude>)nN(</noinclude>)" }
    ensures included { spelled_tree Include (codes "x<onlyinclude>y</onlyinclude>z<noinclude>n</noinclude>") ≡ codes "y" }
    ensures marks_in_a_comment { spelled_tree View (codes "{{A<!--}}-->") ≡ codes "{{AN(<!--}}-->)" }
{}

/// Nodes go into one another to a height of 100. The marks of the next one are plain, and so is its bar.
pub fn heights()
    ensures hundred { length (nodes (tree View (deep 100))) ≡ 100 }
    ensures hundred_and_two { spelled_items 1 (tree View (deep 102)) ≡ codes "{{{x|{{{x|A(TOO DEEP|TOO DEEP)}}}}}}" }
{}

/// Where nodes start and how long they are, each before those that stand in it.
pub fn spans()
    ensures within { node_spans View (codes "{{{{{x|B}}}}} {{A|{{b}}=c}}") ≡ (0, 13) ∷ (2, 9) ∷ (14, 13) ∷ (18, 5) ∷ [] }
    ensures left_over { node_spans View (codes "a{{{{x}}}}}") ≡ (2, 7) ∷ [] }
{}
