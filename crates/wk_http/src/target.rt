//! Bytes that end within the target of a request, which aren't judged yet.
ghost use Rattle.std.specs.Prelude.{◌≡◌, ◌≢◌, List, ◌∷◌, ◌++◌, All, IsTrue, ◌↔◌, IfSome, IfNone};
ghost use Rattle.httparse.specs.Ascii.{space};
ghost use Rattle.httparse.specs.Grammar.{LineEnd, print_end, print_blank};
ghost use Rattle.wk_wire_rules.specs.Messages.{EndsWithinTarget};
ghost use Rattle.wk_http.specs.Target.{BeginsNoEmptyLine};

use httparse::is_token;

/// What follows an empty line at the front, where there is one.
fn after_empty_line(bytes: &[u8]) -> Option<&[u8]>
    ensures found { IfSome result (λ rest. (end : LineEnd) × (bytes.now ≡ print_end end ++ rest.now)) }
    ensures none { IfNone result (BeginsNoEmptyLine bytes.now) }
{
    match bytes {
        [b'\n', rest @ ..] => Some(rest),
        [b'\r', b'\n', rest @ ..] => Some(rest),
        _ => None,
    }
}

/// What follows all empty lines at the front.
fn after_empty_lines(bytes: &[u8]) -> &[u8]
    ensures blank { (blank : List LineEnd) × (bytes.now ≡ print_blank blank ++ result.now) }
    ensures none { BeginsNoEmptyLine result.now }
{
    let mut left = bytes;
    while let Some(rest) = after_empty_line(left) {
        left = rest;
    }
    left
}

/// The bytes before the first space and those behind it, where there is one.
fn split_at_space(bytes: &[u8]) -> Option<(&[u8], &[u8])>
    ensures found { IfSome result (λ parts. (bytes.now ≡ parts.0.now ++ space ∷ parts.1.now) × All (λ b. b ≢ space) parts.0.now) }
    ensures none { IfNone result (All (λ b. b ≢ space) bytes.now) }
{
    let Some(at) = bytes.iter().position(|byte| *byte == b' ') else {
        return None;
    };
    Some((&bytes[..at], &bytes[at + 1..]))
}

fn has_no_space(bytes: &[u8]) -> bool
    ensures { IsTrue result ↔ All (λ b. b ≢ space) bytes.now }
{
    bytes.iter().all(|byte| *byte != b' ')
}

/// Whether a method and one space came, and no space yet behind them.
pub(crate) fn ends_within_target(bytes: &[u8]) -> bool
    ensures { IsTrue result ↔ EndsWithinTarget bytes.now }
{
    match split_at_space(after_empty_lines(bytes)) {
        Some((method, target)) => is_token(method) && has_no_space(target),
        None => false,
    }
}
