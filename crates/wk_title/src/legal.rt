//! What a key can't be (MediaWiki's Manual:Page title; the rule of at most 255 bytes in every namespace is own).
ghost use Rattle.std.specs.Prelude.{◌≡◌, ◌==◌, ◌≤◌, ◌&&◌, nat_lt, nat_le, [], ◌∷◌, length, encode_utf8_all};
ghost use Rattle.std.specs.List.{list_any, prefix_len, starts_with};
ghost use Rattle.wk_text_rules.specs.Titles.{holds, is_forbidden, begins_with_tildes, begins_with_percent_code, is_reference_character, begins_with_character_reference, has_dot_part, is_legal_key};
ghost use Rattle.wk_title.specs.Legal.{begins_with_forbidden_text, is_dot_part};

pub const MOST_BYTES: usize = 255;

/// `< > [ ] | { }`, a control character of ASCII, or U+FFFD.
fn is_forbidden(c: char) -> bool
    ensures { result ≡ is_forbidden c }
{
    matches!(
        c,
        '<' | '>' | '[' | ']' | '|' | '{' | '}' | '\0'..='\x1F' | '\x7F' | '\u{FFFD}'
    )
}

fn begins_with_tildes(cs: &[char]) -> bool
    ensures { result ≡ begins_with_tildes cs.now }
{
    matches!(cs, ['~', '~', '~', ..])
}

/// `%` and two hexadecimal digits.
fn begins_with_percent_code(cs: &[char]) -> bool
    ensures { result ≡ begins_with_percent_code cs.now }
{
    match cs {
        ['%', high, low, ..] => high.is_ascii_hexdigit() && low.is_ascii_hexdigit(),
        _ => false,
    }
}

fn is_reference_character(c: char) -> bool
    ensures { result ≡ is_reference_character c }
{
    c.is_ascii_alphanumeric() || c == '#'
}

fn reference_length(cs: &[char]) -> usize
    ensures { result ≡ prefix_len is_reference_character cs.now }
{
    let mut end = 0;
    while end < cs.len() && is_reference_character(cs[end]) {
        end += 1;
    }
    end
}

/// `&`, one or more ASCII letters, digits and `#`, and `;` (own).
fn begins_with_character_reference(cs: &[char]) -> bool
    ensures { result ≡ begins_with_character_reference cs.now }
{
    let ['&', rest @ ..] = cs else {
        return false;
    };
    let end = reference_length(rest);
    0 < end && end < rest.len() && rest[end] == ';'
}

fn begins_with_forbidden_text(cs: &[char]) -> bool
    ensures { result ≡ begins_with_forbidden_text cs.now }
{
    begins_with_tildes(cs) || begins_with_percent_code(cs) || begins_with_character_reference(cs)
}

fn holds_forbidden_text(mut cs: &[char]) -> bool
    ensures { result ≡ holds begins_with_forbidden_text cs.entry.now }
{
    while let [_, rest @ ..] = cs {
        if begins_with_forbidden_text(cs) {
            return true;
        }
        cs = rest;
    }
    false
}

fn is_dot_part(part: &[char]) -> bool
    ensures { result ≡ is_dot_part part.now }
{
    matches!(part, ['.'] | ['.', '.'])
}

/// `.` or `..` as a part between slashes, the first and the last part too.
fn has_dot_part(cs: &[char]) -> bool
    ensures { result ≡ has_dot_part cs.now }
{
    cs.split(|c| *c == '/').any(is_dot_part)
}

fn byte_length(cs: &[char]) -> usize
    requires { length cs.now ≤ 255 }
    ensures { result ≡ length (encode_utf8_all cs.now) }
{
    cs.iter().map(|c| c.len_utf8()).sum()
}

#[tactic(auto, using(crate::proofs::Keys::too_many_bytes))]
fn has_few_bytes(cs: &[char]) -> bool
    ensures { result ≡ nat_le (length (encode_utf8_all cs.now)) 255 }
{
    cs.len() <= MOST_BYTES && byte_length(cs) <= MOST_BYTES
}

/// Whether the characters are some, and have at most 255 bytes in UTF-8.
fn has_key_length(cs: &[char]) -> bool
    ensures { result ≡ (nat_lt 0 (length cs.now) && nat_le (length (encode_utf8_all cs.now)) 255) }
{
    !cs.is_empty() && has_few_bytes(cs)
}

fn begins_with_colon(cs: &[char]) -> bool
    ensures { result ≡ starts_with (λ a b. a == b) cs.now (58 ∷ []) }
{
    matches!(cs, [':', ..])
}

fn holds_forbidden_character(cs: &[char]) -> bool
    ensures { result ≡ list_any is_forbidden cs.now }
{
    cs.iter().any(|c| is_forbidden(*c))
}

/// Whether the key may stand in a title.
#[tactic(auto, using(crate::proofs::Keys::is_legal_key_by_tests))]
pub fn is_legal_key(cs: &[char]) -> bool
    ensures { result ≡ is_legal_key cs.now }
{
    if !has_key_length(cs) || begins_with_colon(cs) {
        return false;
    }
    if holds_forbidden_character(cs) || holds_forbidden_text(cs) {
        return false;
    }
    !has_dot_part(cs)
}
