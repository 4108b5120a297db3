//! The namespace that a text asks for.
ghost use Rattle.std.specs.Prelude.{◌≡◌, false, MatchOption, position};
ghost use Rattle.std.specs.List.{list_any};
ghost use Rattle.wk_text_rules.specs.Titles.{is_colon, after_leading_colon, after_namespace};
ghost use Rattle.wk_title.specs.Colons.{IsSplitAtColon};

use crate::characters::{without_leading_underscores, without_trailing_underscores};
use crate::namespace::namespace_called;

/// A leading colon asks for main, in the place of the default.
pub fn after_leading_colon(ns: i8, cs: &[char]) -> (i8, &[char])
    ensures { (result.0, result.1.now) ≡ after_leading_colon (ns, cs.now) }
{
    match cs {
        [':', rest @ ..] => (0, without_leading_underscores(rest)),
        _ => (ns, cs),
    }
}

/// A namespace's name before the first colon is that namespace (own: this is done once).
pub fn after_namespace(ns: i8, cs: &[char]) -> (i8, &[char])
    ensures { (result.0, result.1.now) ≡ after_namespace (ns, cs.now) }
{
    let Some((before, after)) = split_at_colon(cs) else {
        return (ns, cs);
    };
    match namespace_called(without_trailing_underscores(before)) {
        Some(found) => (found, without_leading_underscores(after)),
        None => (ns, cs),
    }
}

fn first_colon(cs: &[char]) -> Option<usize>
    ensures { result ≡ position is_colon cs.now }
{
    cs.iter().position(|c| *c == ':')
}

/// What stands before the first colon, and what after it.
fn split_at_colon(cs: &[char]) -> Option<(&[char], &[char])>
    ensures { MatchOption result (list_any is_colon cs.now ≡ false) (λ parts. IsSplitAtColon cs.now parts.0.now parts.1.now) }
{
    match first_colon(cs) {
        Some(colon) => Some((&cs[..colon], &cs[colon + 1..])),
        None => None,
    }
}
