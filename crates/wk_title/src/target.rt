//! What a link or a redirect may hold as its target.
ghost use Rattle.std.specs.Prelude.{◌≡◌, ◌≤◌, length};
ghost use Rattle.std.specs.List.{prefix_len};
ghost use Rattle.wk_text_rules.specs.Targets.{is_target_byte};

/// A byte other than the brackets, braces, the bar, the angle brackets and the newline.
fn is_target_byte(byte: u8) -> bool
    ensures { result ≡ is_target_byte byte }
{
    !matches!(byte, b'\n' | b'[' | b']' | b'|' | b'{' | b'}' | b'<' | b'>')
}

/// The number of bytes of the target at the front of a text: of those before the first bracket, brace, bar, angle
/// bracket or newline. Takes no memory.
pub fn target_len(inside: &[u8]) -> usize
    ensures value { result ≡ prefix_len is_target_byte inside.now }
    ensures within { result ≤ length inside.now }
{
    let mut len = 0;
    while len < inside.len() && is_target_byte(inside[len]) {
        len += 1;
    }
    len
}
