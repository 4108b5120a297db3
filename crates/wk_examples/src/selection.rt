//! What of a text is read for inclusion.
ghost use Rattle.std.specs.Prelude.{◌≡◌, codes};
ghost use Rattle.wk_tree_rules.specs.declared.Mode.TheVariants.{View, Include};
ghost use Rattle.wk_tree_rules.specs.Selection.{selection};

/// The parts between the tags are joined, each up to the nearest end tag. An empty part counts.
pub fn parts()
    ensures one { selection Include (codes "x<onlyinclude>y</onlyinclude>z<noinclude>n</noinclude>") ≡ Some (codes "y") }
    ensures two { selection Include (codes "a<onlyinclude>b</onlyinclude>c<onlyinclude>d</onlyinclude>e") ≡ Some (codes "bd") }
    ensures nested { selection Include (codes "a<onlyinclude>b<onlyinclude>c</onlyinclude>d</onlyinclude>e") ≡ Some (codes "b<onlyinclude>c") }
    ensures empty { selection Include (codes "a<onlyinclude></onlyinclude>b") ≡ Some (codes "") }
    ensures in_a_comment { selection Include (codes "<!--<onlyinclude>-->a</onlyinclude>") ≡ Some (codes "-->a") }
{}

/// The whole text is read where it is viewed, and where no part is closed; the tags are spelled exactly.
pub fn whole_text()
    ensures viewed { selection View (codes "x<onlyinclude>y</onlyinclude>") ≡ None }
    ensures unclosed { selection Include (codes "a<onlyinclude>b") ≡ None }
    ensures other_case { selection Include (codes "<Onlyinclude>b</Onlyinclude>") ≡ None }
    ensures with_a_space { selection Include (codes "<onlyinclude >b</onlyinclude>") ≡ None }
{}
