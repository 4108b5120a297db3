//! Which title a text names, and how a title is shown.
ghost use Rattle.std.specs.Prelude.{◌≡◌, pos, negsuc, codes, replicate, ◌∷◌, [], Some, None};
ghost use Rattle.wk_text_rules.specs.Titles.{normal, shown};

/// Namespaces by their names, second names and defaults.
pub fn namespaces()
    ensures spaces_and_fragment { normal (codes " talk : foo  bar#x") (pos 0) ≡ Some (record { ns = pos 1; key = codes "Foo_bar" }) }
    ensures leading_colon { normal (codes ":Category:x") (pos 0) ≡ Some (record { ns = pos 14; key = codes "X" }) }
    ensures second_name { normal (codes "Image:a.png") (pos 0) ≡ Some (record { ns = pos 6; key = codes "A.png" }) }
    ensures underscore_in_a_name { normal (codes "User_talk:x") (pos 0) ≡ Some (record { ns = pos 3; key = codes "X" }) }
    ensures once_only { normal (codes "Talk:File:x") (pos 0) ≡ Some (record { ns = pos 1; key = codes "File:x" }) }
    ensures default_namespace { normal (codes "x") (pos 10) ≡ Some (record { ns = pos 10; key = codes "X" }) }
    ensures colon_for_main { normal (codes ":x") (pos 10) ≡ Some (record { ns = pos 0; key = codes "X" }) }
    ensures any_case { normal (codes " : _ user  TALK _: x") (pos 10) ≡ Some (record { ns = pos 3; key = codes "X" }) }
    ensures special { normal (codes "Special:X") (pos 0) ≡ Some (record { ns = negsuc 0; key = codes "X" }) }
    ensures media { normal (codes "media:x") (pos 0) ≡ Some (record { ns = negsuc 1; key = codes "X" }) }
    ensures no_colon { normal (codes "Talk") (pos 0) ≡ Some (record { ns = pos 0; key = codes "Talk" }) }
{}

/// Keys that may stand in a title.
pub fn legal_keys()
    ensures dots_within { normal (codes "a/..b") (pos 0) ≡ Some (record { ns = pos 0; key = codes "A/..b" }) }
    ensures half_a_percent_code { normal (codes "a%4") (pos 0) ≡ Some (record { ns = pos 0; key = codes "A%4" }) }
    ensures no_reference { normal (codes "&;") (pos 0) ≡ Some (record { ns = pos 0; key = codes "&;" }) }
    ensures two_tildes { normal (codes "a~~") (pos 0) ≡ Some (record { ns = pos 0; key = codes "A~~" }) }
    ensures longest { normal (replicate 255 97) (pos 0) ≡ Some (record { ns = pos 0; key = 65 ∷ replicate 254 97 }) }
{}

/// Texts that name no title.
pub fn illegal_keys()
    ensures empty { normal (codes "") (pos 0) ≡ None }
    ensures namespace_alone { normal (codes "Template:") (pos 0) ≡ None }
    ensures percent_code { normal (codes "a%41") (pos 0) ≡ None }
    ensures dot_part { normal (codes "a/../b") (pos 0) ≡ None }
    ensures reference { normal (codes "a&amp;b") (pos 0) ≡ None }
    ensures second_colon { normal (codes "::a") (pos 0) ≡ None }
    ensures tildes { normal (codes "a~~~b") (pos 0) ≡ None }
    ensures bracket { normal (codes "a[b") (pos 0) ≡ None }
    ensures dot { normal (codes ".") (pos 0) ≡ None }
    ensures last_dot { normal (codes "a/.") (pos 0) ≡ None }
    ensures first_dots { normal (codes "../a") (pos 0) ≡ None }
    ensures fragment_alone { normal (codes "#a") (pos 0) ≡ None }
    ensures underscores_alone { normal (codes " _ ") (pos 0) ≡ None }
    ensures colon_behind_a_namespace { normal (codes "Talk::a") (pos 0) ≡ None }
    ensures too_long { normal (replicate 256 97) (pos 0) ≡ None }
    ensures control { normal (97 ∷ 127 ∷ []) (pos 0) ≡ None }
{}

/// The shown forms of titles.
pub fn shown_forms()
    ensures talk { shown (record { ns = pos 1; key = codes "Foo_bar" }) ≡ codes "Talk:Foo bar" }
    ensures main { shown (record { ns = pos 0; key = codes "A_b" }) ≡ codes "A b" }
{}

/// A capital letter with a mark over it, by its first letter and the mark.
pub fn composed()
    ensures { normal (105 ∷ 0xCC ∷ 0x87 ∷ []) (pos 0) ≡ Some (record { ns = pos 0; key = 0xC4 ∷ 0xB0 ∷ [] }) }
{}
