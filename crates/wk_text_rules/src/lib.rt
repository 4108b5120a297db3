//! The rules of texts, as definitions: blank bytes, decimal numbers, script lines and page titles.
//! Nothing here runs. The contracts of the crates above cite `specs/`.
#![tactic(auto)]

ghost use Rattle.std.specs.Prelude.{◌≡◌, ℕ, List};
ghost use Rattle.unicode_normalization.specs.Forms.{nfc};
ghost use Rattle.wk_text_rules.specs.Titles.{to_nfc};

/// The definition's shortcut for texts of ASCII gives Normalization Form C itself.
pub fn to_nfc_is_nfc()
    ensures { (cs : List ℕ) → to_nfc cs ≡ nfc cs }
{}
