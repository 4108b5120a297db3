//! What atoms a text has. Atoms are written as `specs/Spelled.antt` says.
ghost use Rattle.std.specs.Prelude.{◌≡◌, codes, ℕ, List, ◌∷◌, []};
ghost use Rattle.wk_tree_rules.specs.declared.Mode.TheVariants.{View, Include};
ghost use Rattle.wk_examples.specs.Spelled.{spelled_atoms, atom_starts};

/// Comments, closed and open, and lines of comments, which go with their newline.
pub fn comments()
    ensures line { spelled_atoms View (codes "a\n <!-- c --> \nb") ≡ codes "a\nL( <!-- c --> \n)b" }
    ensures within_a_line { spelled_atoms View (codes "a <!--c--> b") ≡ codes "a C(<!--c-->) b" }
    ensures two_lines { spelled_atoms View (codes "a\n<!--b-->\t<!--c-->\n<!--d-->\ne") ≡ codes "a\nL(<!--b-->\t<!--c-->\n)L(<!--d-->\n)e" }
    ensures none_at_the_start { spelled_atoms View (codes "<!--a-->\nb") ≡ codes "C(<!--a-->)\nb" }
    ensures open_comment { spelled_atoms View (codes "a\n <!--b\nc") ≡ codes "a\n C(<!--b\nc)" }
    ensures overlapping_marks { spelled_atoms View (codes "a<!--->b") ≡ codes "aC(<!--->b)" }
{}

/// Sealed and ignored elements: letter case, tags closed in themselves, and what ends them.
pub fn elements()
    ensures sealed { spelled_atoms View (codes "<nowiki>{{A}}</nowiki>{{") ≡ codes "S(<nowiki>{{A}}</nowiki>)O({{)" }
    ensures closed_in_itself { spelled_atoms View (codes "<nowiki/>|<pre a=/>|") ≡ codes "S(<nowiki/>)B(|)S(<pre a=/>)B(|)" }
    ensures other_case { spelled_atoms View (codes "<NoWiki\n>|</NOWIKI \r>|") ≡ codes "S(<NoWiki\n>|</NOWIKI \r>)B(|)" }
    ensures no_tag { spelled_atoms View (codes "<nowikix>|<nowiki|") ≡ codes "<nowikix>B(|)<nowikiB(|)" }
    ensures no_end_tag { spelled_atoms View (codes "<nowiki>|</nowiki/>|</nowiki\r>") ≡ codes "<nowiki>B(|)</nowiki/>B(|)</nowiki\r>" }
    ensures ignored { spelled_atoms View (codes "a<includeonly>|</includeonly>b<includeonly>|") ≡ codes "aI(<includeonly>|</includeonly>)bI(<includeonly>|)" }
    ensures ignored_for_inclusion { spelled_atoms Include (codes "<noinclude/>|<noinclude >=</noInclude >|") ≡ codes "I(<noinclude/>)B(|)I(<noinclude >=</noInclude >)B(|)" }
{}

/// Tags of which the mode shows the content.
pub fn tags()
    ensures viewed { spelled_atoms View (codes "<noinclude>a</noinclude x><onlyinclude/>") ≡ codes "T(<noinclude>)aT(</noinclude x>)T(<onlyinclude/>)" }
    ensures included { spelled_atoms Include (codes "<includeonly>a</includeonly><onlyinclude>") ≡ codes "T(<includeonly>)aT(</includeonly>)<onlyinclude>" }
    ensures stray_end { spelled_atoms View (codes "</includeonly>") ≡ codes "</includeonly>" }
{}

/// Marks are longest runs of two or more; a single one is a byte. Every atom starts where the one before ends.
pub fn runs()
    ensures marks { spelled_atoms View (codes "{{{[[[[a=|b]}}}}") ≡ codes "O({{{)O([[[[)aQ(=)B(|)b]E(}}}})" }
    ensures starts { atom_starts View (codes "{{{[[[[a=|b]}}}}") ≡ 0 ∷ 3 ∷ 7 ∷ 8 ∷ 9 ∷ 10 ∷ 11 ∷ 12 ∷ [] }
{}
