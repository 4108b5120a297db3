//! Laws of how delimiters are matched.
ghost use Rattle.std.specs.Prelude.{◌≡◌, ℕ, List, None};
ghost use Rattle.wk_tree_laws.specs.OnePass.{nothing_seen, passed, pieces_seen};
ghost use Rattle.wk_tree_rules.specs.Reduction.{pieces_of, leftmost_closing, reduced};
ghost use Rattle.wk_tree_rules.specs.declared.Mode.{Mode};

/// Rewriting as often as there are closing delimiters leaves no closing run.
pub fn no_closing_run_is_left()
    ensures { (mode : Mode) (text : List ℕ) → leftmost_closing (reduced (pieces_of mode text)) ≡ None }
{}

/// The rewriting of the whole list ends as one pass from the left does, which meets each closing run before it looks
/// further.
pub fn one_pass_from_the_left_is_enough()
    ensures { (mode : Mode) (text : List ℕ) → reduced (pieces_of mode text) ≡ pieces_seen (passed nothing_seen (pieces_of mode text)) }
{}
