//! The brackets of a link in the bytes of an output.
ghost use Rattle.std.specs.Prelude.{◌≡◌, ◌+◌, ◌≤◌, ◌<◌, ℕ, drop, length, slice_index, IfSome, IfNone};
ghost use Rattle.std.specs.List.{prefix_len};
ghost use Rattle.wk_text_rules.specs.Targets.{is_target_byte};
ghost use Rattle.wk_links.specs.Pairs.{pair_at, IsNearestLabelEnd, HasNoLabelEnd};
ghost use Rattle.wk_links.specs.Brackets.{IsBracketsAt, HasNoBrackets};

use wk_title::target_len;

/// The most bytes of a label (own).
const MOST_LABEL: usize = 2_097_152;

/// The places of a link's brackets: of the first byte, behind the target, and behind the label, if there is one.
#[derive(Clone, Copy)]
pub struct Brackets {
    pub start: usize,
    pub target_end: usize,
    pub label_end: Option<usize>,
}

impl Brackets {
    ghost use Rattle.std.specs.Prelude.{◌≡◌, ◌^◌, ◌+◌, ◌<◌};
    ghost use Rattle.wk_links.specs.Brackets.{end_of};

    /// The place behind the last byte.
    pub fn end(&self) -> usize
        requires { end_of self.now < 2 ^ 64 }
        ensures { result ≡ end_of self.now }
    {
        self.label_end.unwrap_or(self.target_end) + 2
    }
}

/// Whether two bytes of this value stand at a place.
fn is_pair(seen: &[u8], at: usize, byte: u8) -> bool
    requires place { at ≤ length seen.now }
    requires byte { 0 < byte }
    ensures { result ≡ pair_at byte seen.now at }
{
    seen.len() - at >= 2 && seen[at] == byte && seen[at + 1] == byte
}

/// The place behind the target that begins at a place. No link can begin within a target, so no byte is read for two.
fn target_end(seen: &[u8], from: usize) -> usize
    requires { from ≤ length seen.now }
    ensures value { result ≡ from + prefix_len is_target_byte (drop from seen.now) }
    ensures within { result ≤ length seen.now }
{
    from + target_len(&seen[from..])
}

/// The place behind the label that begins at a place, where the nearest `]]` is nearer than any `[[`. It reads up to the
/// nearer of the two, where the next link can begin, so that no byte is read for two labels.
fn label_end(seen: &[u8], from: usize) -> Option<usize>
    requires { from ≤ length seen.now }
    ensures found { IfSome result (IsNearestLabelEnd seen.now from) }
    ensures none { IfNone result (HasNoLabelEnd seen.now from) }
{
    for at in from..seen.len() {
        if is_pair(seen, at, b']') {
            return Some(at);
        }
        if is_pair(seen, at, b'[') {
            return None;
        }
    }
    None
}

/// The brackets that begin at a place, if any do: `[[`, a target, and `]]`, or a bar, a label and `]]`.
pub fn brackets_at(seen: &[u8], start: usize) -> Option<Brackets>
    requires { start ≤ length seen.now }
    ensures found { IfSome result (IsBracketsAt seen.now start) }
    ensures none { IfNone result (HasNoBrackets seen.now start) }
{
    if !is_pair(seen, start, b'[') {
        return None;
    }
    let target_end = target_end(seen, start + 2);
    if is_pair(seen, target_end, b']') {
        return Some(Brackets {
            start,
            target_end,
            label_end: None,
        });
    }
    if target_end == seen.len() || seen[target_end] != b'|' {
        return None;
    }
    let Some(label_end) = label_end(seen, target_end + 1) else {
        return None;
    };
    if label_end - (target_end + 1) > MOST_LABEL {
        return None;
    }
    Some(Brackets {
        start,
        target_end,
        label_end: Some(label_end),
    })
}
