//! When two texts are equal to the functions.
ghost use Rattle.std.specs.Prelude.{◌≡◌, codes, true, false, ◌++◌};
ghost use Rattle.wk_text_rules.specs.Marked.{all_plain, all_sealed};
ghost use Rattle.wk_text_rules.specs.Numerals.{same_text, same_output};

/// Numerals of one value, written in other ways.
pub fn equal_numbers()
    ensures sign_and_zeros { same_text (codes "+001.0") (codes "1e0") ≡ true }
    ensures zero_has_no_sign { same_text (codes "-0") (codes "0") ≡ true }
    ensures point_first { same_text (codes ".50") (codes "0.5") ≡ true }
    ensures exponent_down { same_text (codes "1e-2") (codes "0.01") ≡ true }
    ensures exponent_up { same_text (codes "12.5E+1") (codes "125") ≡ true }
    ensures great_exponents { same_text (codes "1e9999") (codes "10e9998") ≡ true }
    ensures exact { same_text (codes "0.1000000000000000000000000000001") (codes "0.1") ≡ false }
    ensures signs { same_text (codes "-1") (codes "1") ≡ false }
{}

/// Texts that are no numerals are compared byte by byte.
pub fn no_numerals()
    ensures point_last { same_text (codes "1.") (codes "1") ≡ false }
    ensures exponent_alone { same_text (codes "e1") (codes "E1") ≡ false }
    ensures no_digits_in_the_exponent { same_text (codes "1e") (codes "1") ≡ false }
    ensures exponent_too_great { same_text (codes "1e10000") (codes "10e9999") ≡ false }
    ensures two_points { same_text (codes "1.0.0") (codes "1") ≡ false }
    ensures blank { same_text (codes "1 ") (codes "1") ≡ false }
    ensures same_bytes { same_text (codes "1.") (codes "1.") ≡ true }
    ensures empty { same_text (codes "") (codes "0") ≡ false }
{}

/// A sealed byte is equal to nothing, itself among it.
pub fn sealed_bytes()
    ensures sealed { same_output (all_sealed (codes "a")) (all_sealed (codes "a")) ≡ false }
    ensures plain { same_output (all_plain (codes "1.0")) (all_plain (codes "1")) ≡ true }
    ensures mixed { same_output (all_plain (codes "a") ++ all_sealed (codes "b")) (all_plain (codes "ab")) ≡ false }
{}
