//! Laws of what of a text is read.
ghost use Rattle.std.specs.Prelude.{ℕ, List, IsUtf8};
ghost use Rattle.wk_tree_rules.specs.Selection.{selected};
ghost use Rattle.wk_tree_rules.specs.declared.Mode.{Mode};

/// What is selected of a text of UTF-8 is UTF-8.
pub fn what_is_selected_of_utf8_is_utf8()
    ensures { (mode : Mode) (text : List ℕ) → IsUtf8 text → IsUtf8 (selected mode text) }
{}
