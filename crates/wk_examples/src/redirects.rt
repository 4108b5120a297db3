//! Where a redirect leads.
ghost use Rattle.std.specs.Prelude.{◌≡◌, codes, Some, None, pos};
ghost use Rattle.wk_tree_rules.specs.Redirects.{redirect_target};

/// What may stand before, between and behind.
pub fn targets()
    ensures capitals { redirect_target (codes "#REDIRECT [[Template:T]]") ≡ Some (record { ns = pos 10; key = codes "T" }) }
    ensures close { redirect_target (codes "#redirect[[Template:S]]") ≡ Some (record { ns = pos 10; key = codes "S" }) }
    ensures blanks_and_a_colon { redirect_target (codes "\n #Redirect \t: \r[[b]] more") ≡ Some (record { ns = pos 0; key = codes "B" }) }
    ensures label { redirect_target (codes "#redirect [[b|c]]]]") ≡ Some (record { ns = pos 0; key = codes "B" }) }
    ensures empty_label { redirect_target (codes "#redirect [[b|]]") ≡ Some (record { ns = pos 0; key = codes "B" }) }
{}

/// What is no redirect.
pub fn none()
    ensures two_colons { redirect_target (codes "#redirect ::[[b]]") ≡ None }
    ensures comment_before { redirect_target (codes "<!---->#redirect [[b]]") ≡ None }
    ensures newline_in_a_label { redirect_target (codes "#redirect [[b|c\n]]") ≡ None }
    ensures no_title { redirect_target (codes "#redirect [[]]") ≡ None }
    ensures negative_namespace { redirect_target (codes "#redirect [[Special:X]]") ≡ None }
    ensures text_before { redirect_target (codes "a #redirect [[b]]") ≡ None }
    ensures unclosed { redirect_target (codes "#redirect [[b]") ≡ None }
{}
