//! Laws of atoms.
ghost use Rattle.std.specs.Prelude.{◌≡◌, ℕ, List, flat_map};
ghost use Rattle.wk_tree_laws.specs.Places.{AreSpansAt};
ghost use Rattle.wk_tree_rules.specs.Atoms.{Atom, atoms};
ghost use Rattle.wk_tree_rules.specs.declared.Mode.{Mode};

/// The atoms of a text cover it: their sources joined are the text.
pub fn atoms_cover_the_text()
    ensures { (mode : Mode) (text : List ℕ) → flat_map (λ (a : Atom). a.source) (atoms mode text) ≡ text }
{}

/// Each atom has a byte, and starts where the one before it ends; the first starts at the start of the text.
pub fn atoms_stand_in_a_row()
    ensures { (mode : Mode) (text : List ℕ) → AreSpansAt 0 (atoms mode text) }
{}
