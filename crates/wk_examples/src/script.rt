//! What the bytes of a script are cut into, and which are numbers.
ghost use Rattle.std.specs.Prelude.{◌≡◌, codes, ◌∷◌, [], Some, None};
ghost use Rattle.wk_text_rules.specs.Lines.{lines};
ghost use Rattle.wk_text_rules.specs.Decimal.{decimal_number};

/// Lines of at most three bytes: a carriage return before a newline goes and counts, and one at the end stays.
pub fn cut_lines()
    ensures long { lines 3 (codes "abc\r\nabcd\n\n\r\nx\r") ≡ None ∷ None ∷ Some (codes "") ∷ Some (codes "") ∷ Some (codes "x\r") ∷ [] }
    ensures nothing { lines 3 (codes "") ≡ [] }
    ensures short { lines 3 (codes "ab\r\nabc") ≡ Some (codes "ab") ∷ Some (codes "abc") ∷ [] }
{}

/// Decimal numbers have no sign and no leading zero, and are below 2^64.
pub fn decimal_numbers()
    ensures zero { decimal_number (codes "0") ≡ Some 0 }
    ensures two_zeros { decimal_number (codes "00") ≡ None }
    ensures nothing { decimal_number (codes "") ≡ None }
    ensures sign { decimal_number (codes "+1") ≡ None }
    ensures greatest { decimal_number (codes "18446744073709551615") ≡ Some 18446744073709551615 }
    ensures too_great { decimal_number (codes "18446744073709551616") ≡ None }
{}
