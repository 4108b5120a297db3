//! Which links an output has.
ghost use Rattle.std.specs.Prelude.{◌≡◌, codes, ◌∷◌, [], ◌++◌, pos};
ghost use Rattle.wk_text_rules.specs.Marked.{all_plain, all_sealed};
ghost use Rattle.wk_text_rules.specs.Occurrences.{occurrences, page, member, nothing};

/// Pages, members of categories, and what no table keeps.
pub fn kinds()
    ensures categories { occurrences (all_plain (codes "[[Category:X|k]][[Category:x]][[:Category:X]] [[b]]")) ≡ record { start = 0; end = 16; link = member (record { ns = pos 14; key = codes "X" }) (codes "k") } ∷ record { start = 16; end = 30; link = member (record { ns = pos 14; key = codes "X" }) (codes "") } ∷ record { start = 30; end = 45; link = page (record { ns = pos 14; key = codes "X" }) } ∷ record { start = 46; end = 51; link = page (record { ns = pos 0; key = codes "B" }) } ∷ [] }
    ensures no_title { occurrences (all_plain (codes "[[]][[a%41]][[Special:X]][[File:x.png]][[:Image:x.png]]")) ≡ record { start = 0; end = 4; link = nothing } ∷ record { start = 4; end = 12; link = nothing } ∷ record { start = 12; end = 25; link = nothing } ∷ record { start = 25; end = 39; link = nothing } ∷ record { start = 39; end = 55; link = page (record { ns = pos 6; key = codes "X.png" }) } ∷ [] }
    ensures colon_behind_an_underscore { occurrences (all_plain (codes "[[_:Category:X]]")) ≡ record { start = 0; end = 16; link = member (record { ns = pos 14; key = codes "X" }) (codes "") } ∷ [] }
    ensures newline_in_a_label { occurrences (all_plain (codes "[[Category:X| a\nb ]]")) ≡ record { start = 0; end = 20; link = member (record { ns = pos 14; key = codes "X" }) (codes " ab ") } ∷ [] }
{}

/// Where an occurrence begins and ends.
pub fn brackets()
    ensures three_closing { occurrences (all_plain (codes "[[x|a]]]")) ≡ record { start = 0; end = 7; link = page (record { ns = pos 0; key = codes "X" }) } ∷ [] }
    ensures three_opening { occurrences (all_plain (codes "[[[x]]]")) ≡ record { start = 1; end = 6; link = page (record { ns = pos 0; key = codes "X" }) } ∷ [] }
    ensures opening_in_a_label { occurrences (all_plain (codes "[[x|[[y]]")) ≡ record { start = 4; end = 9; link = page (record { ns = pos 0; key = codes "Y" }) } ∷ [] }
    ensures bar_in_a_label { occurrences (all_plain (codes "[[x|a|b]]")) ≡ record { start = 0; end = 9; link = page (record { ns = pos 0; key = codes "X" }) } ∷ [] }
    ensures bracket_in_a_target { occurrences (all_plain (codes "[[x]y]]")) ≡ [] }
    ensures newline_in_a_target { occurrences (all_plain (codes "[[x\ny]]")) ≡ [] }
    ensures unclosed { occurrences (all_plain (codes "[[x|a]")) ≡ [] }
{}

/// A sealed byte stands in a label, and in no mark and no target.
pub fn sealed_bytes()
    ensures in_a_label { occurrences (all_plain (codes "[[x|") ++ all_sealed (codes "]]") ++ all_plain (codes "]]")) ≡ record { start = 0; end = 8; link = page (record { ns = pos 0; key = codes "X" }) } ∷ [] }
    ensures in_a_target { occurrences (all_plain (codes "[[x") ++ all_sealed (codes "y") ++ all_plain (codes "]]")) ≡ [] }
    ensures in_a_mark { occurrences (all_plain (codes "[[x]") ++ all_sealed (codes "]")) ≡ [] }
{}
