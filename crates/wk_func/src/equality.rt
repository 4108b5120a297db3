//! When two outputs are equal.
ghost use Rattle.std.specs.Prelude.{◌≡◌};
ghost use Rattle.wk_text_rules.specs.Numerals.{same_output};

use wk_decimal::same;
use wk_out::Out;

/// Whether two outputs are equal, as `#ifeq` and `#switch` compare them (MediaWiki's Help:Extension:ParserFunctions):
/// neither holds a sealed byte (own), and both are numerals of one value or their bytes are the same. Takes no memory.
pub fn equal(a: &Out, b: &Out) -> bool
    ensures { result ≡ same_output a.now b.now }
{
    let Some(a) = a.plain_text() else {
        return false;
    };
    let Some(b) = b.plain_text() else {
        return false;
    };
    same(a.as_bytes(), b.as_bytes())
}
