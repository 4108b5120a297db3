//! Titles of texts of ASCII, which most are: one pass over the bytes, and no memory but that of the key.
ghost use Rattle.std.specs.Prelude.{◌≡◌, ◌==◌, ◌+◌, ◌-◌, ◌≤◌, ◌<◌, ◌||◌, ◌++◌, ◌∷◌, [], true, false, ◌&&◌, nat_lt, nat_le, length, take, drop, Some, None, IfOk};
ghost use Rattle.std.specs.Char.{is_ascii};
ghost use Rattle.std.specs.List.{list_all, list_any, starts_with};
ghost use Rattle.wk_text_rules.specs.Titles.{is_colon, capitalized, after_leading_colon, after_namespace, is_legal_key, is_namespace, normal};
ghost use Rattle.wk_title.specs.Ascii.{gap, is_plain, is_sound, IsSqueezed, IsAsciiKey};

use crate::legal::{MOST_BYTES, is_legal_key};
use crate::parts::{after_leading_colon, after_namespace};
use crate::title::{Title, TitleRefusal};
use std::alloc::Global;
use wk_bytes::Text;

/// Room for a key of 255 bytes behind the name of a namespace. Texts of more bytes are normalized by their characters.
const ROOM: usize = 288;

/// The words of a text, squeezed.
#[derive(Clone, Copy)]
struct Words {
    /// How many bytes they have.
    len: usize,
    /// Whether one is a colon.
    has_colon: bool,
    /// Whether one isn't plain, so that the rules of what a key can't be have to be asked.
    is_dubious: bool,
}

/// Where a key stands, with what is known of it.
#[derive(Clone, Copy)]
struct AsciiKey {
    ns: i8,
    start: usize,
    end: usize,
    is_dubious: bool,
}

/// Whether all bytes are ASCII. It looks at each, so that the compiler may take many at a time.
fn is_ascii(bytes: &[u8]) -> bool
    ensures { result ≡ list_all is_ascii bytes.now }
{
    let mut highest = 0;
    for byte in bytes {
        if highest < *byte {
            highest = *byte;
        }
    }
    highest < 128
}

/// A byte of ASCII that stands in a key for itself: none that a rule looks for, nor a space.
fn is_plain(byte: u8) -> bool
    ensures { result ≡ is_plain byte }
{
    byte.is_ascii_alphabetic()
        || matches!(
            byte,
            b'!' | b'"' | b'$' | b'\''..=b'-' | b'/'..=b'9' | b';' | b'=' | b'?' | b'@' | b'\\' | b'^' | b'`'
        )
}

fn is_space(byte: u8) -> bool
    ensures { result ≡ (byte == 32 || byte == 95) }
{
    byte == b' ' || byte == b'_'
}

/// Adds a byte to the words, behind an underscore where it begins a further word. The new length.
fn put(into: &mut [u8; ROOM], len: usize, is_further: bool, byte: u8) -> usize
    requires fits { len < 288 }
    requires both_fit { is_further ≡ true → len + 1 < 288 }
    ensures words { take result into.new ≡ take len into.old ++ gap is_further ++ byte ∷ [] }
    ensures some { 0 < result }
    ensures one { is_further ≡ false → result ≡ len + 1 }
    ensures two { result ≤ len + 2 }
{
    if is_further {
        into[len] = b'_';
        into[len + 1] = byte;
        return len + 2;
    }
    into[len] = byte;
    len + 1
}

/// The words of what stands before the first `#`.
fn squeezed(text: &[u8], into: &mut [u8; ROOM]) -> Words
    requires { length text.now ≤ 288 }
    ensures words { IsSqueezed text.now (take result.len into.new) result.has_colon result.is_dubious }
    ensures within { result.len ≤ 288 }
{
    let mut len = 0;
    let mut is_further = false;
    let mut has_colon = false;
    let mut is_dubious = false;
    for byte in text {
        if is_plain(*byte) {
            len = put(into, len, is_further, *byte);
            is_further = false;
        } else if is_space(*byte) {
            is_further = 0 < len;
        } else if *byte == b'#' {
            return Words {
                len,
                has_colon,
                is_dubious,
            };
        } else {
            len = put(into, len, is_further, *byte);
            is_further = false;
            if *byte == b':' {
                has_colon = true;
            } else {
                is_dubious = true;
            }
        }
    }
    Words {
        len,
        has_colon,
        is_dubious,
    }
}

/// The bytes as characters.
fn widen(bytes: &[u8], into: &mut [char; ROOM])
    requires { length bytes.now ≤ 288 }
    ensures { take (length bytes.now) into.new ≡ bytes.now }
{
    for i in 0..bytes.len() {
        into[i] = char::from(bytes[i]);
    }
}

/// The namespace that words with a colon ask for, and where the key begins in them.
fn key_start(words: &[u8], default_ns: i8) -> (i8, usize)
    requires { length words.now ≤ 288 }
    ensures placed { (result.0, drop result.1 words.now) ≡ after_namespace (after_leading_colon (default_ns, words.now)) }
    ensures within { result.1 ≤ length words.now }
{
    let mut wide = ['\0'; ROOM];
    widen(words, &mut wide);
    let (asked, rest) = after_leading_colon(default_ns, &wide[..words.len()]);
    let (ns, rest) = after_namespace(asked, rest);
    (ns, words.len() - rest.len())
}

/// The same of any words.
fn placed(words: &[u8], has_colon: bool, default_ns: i8) -> (i8, usize)
    requires short { length words.now ≤ 288 }
    requires colon { list_any is_colon words.now ≡ has_colon }
    ensures placed { (result.0, drop result.1 words.now) ≡ after_namespace (after_leading_colon (default_ns, words.now)) }
    ensures within { result.1 ≤ length words.now }
{
    if has_colon {
        return key_start(words, default_ns);
    }
    (default_ns, 0)
}

fn capitalize(key: &mut [u8])
    ensures { key.new ≡ capitalized key.old }
{
    if let Some(first) = key.first_mut() {
        first.make_ascii_uppercase();
    }
}

/// The key that a short text of ASCII leaves.
fn ascii_key(text: &[u8], default_ns: i8, into: &mut [u8; ROOM]) -> AsciiKey
    requires short { length text.now ≤ 288 }
    requires ascii { list_all is_ascii text.now ≡ true }
    ensures key { IsAsciiKey text.now default_ns result.ns (take (result.end - result.start) (drop result.start into.new)) result.is_dubious }
    ensures in_order { result.start ≤ result.end }
    ensures within { result.end ≤ 288 }
{
    let words = squeezed(text, into);
    let (ns, start) = placed(&into[..words.len], words.has_colon, default_ns);
    capitalize(&mut into[start..words.len]);
    AsciiKey {
        ns,
        start,
        end: words.len,
        is_dubious: words.is_dubious,
    }
}

/// Whether the bytes are some, and at most 255.
fn has_key_length(key: &[u8]) -> bool
    ensures { result ≡ (nat_lt 0 (length key.now) && nat_le (length key.now) 255) }
{
    !key.is_empty() && key.len() <= MOST_BYTES
}

fn begins_with_colon(key: &[u8]) -> bool
    ensures { result ≡ starts_with (λ a b. a == b) key.now (58 ∷ []) }
{
    matches!(key, [b':', ..])
}

/// Whether a key that holds nothing for another rule may stand in a title.
#[tactic(auto, using(crate::proofs::AsciiTitles::is_legal_key_of_sound))]
fn is_legal_sound(key: &[u8]) -> bool
    requires { list_all is_sound key.now ≡ true }
    ensures { result ≡ is_legal_key key.now }
{
    has_key_length(key) && !begins_with_colon(key)
}

/// Whether the key may stand in a title.
fn is_legal(key: &[u8], is_dubious: bool) -> bool
    requires short { length key.now ≤ 288 }
    requires sound { is_dubious ≡ false → list_all is_sound key.now ≡ true }
    ensures { result ≡ is_legal_key key.now }
{
    if is_dubious {
        let mut wide = ['\0'; ROOM];
        widen(key, &mut wide);
        return is_legal_key(&wide[..key.len()]);
    }
    is_legal_sound(key)
}

/// Whether the text is of ASCII and short, so that `ascii_title` takes it.
pub fn is_short_ascii(text: &[u8]) -> bool
    ensures { result ≡ (nat_le (length text.now) 288 && list_all is_ascii text.now) }
{
    text.len() <= ROOM && is_ascii(text)
}

/// The title that a short text of ASCII names.
pub fn ascii_title(alloc: Global, text: &str, default_ns: i8) -> Result<Title, TitleRefusal>
    requires namespace { is_namespace default_ns ≡ true }
    requires short { length text.now ≤ 288 }
    requires ascii { list_all is_ascii text.now ≡ true }
    ensures ok { IfOk result (λ title. normal text.now default_ns ≡ Some title) }
    ensures illegal { result ≡ Err TitleRefusal.Illegal → normal text.now default_ns ≡ None }
{
    let mut room = [0; ROOM];
    let found = ascii_key(text.as_bytes(), default_ns, &mut room);
    let key = &room[found.start..found.end];
    if !is_legal(key, found.is_dubious) {
        return Err(TitleRefusal::Illegal);
    }
    // SAFETY: the bytes are ASCII.
    let key = Text::new(alloc, unsafe { str::from_utf8_unchecked(key) })?;
    Ok(Title::new(found.ns, key))
}
