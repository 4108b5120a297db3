//! The namespaces and their names (MediaWiki's Help:Namespaces).
ghost use Rattle.std.specs.Prelude.{◌≡◌, ◌==◌, if◌then◌else◌, map};
ghost use Rattle.std.specs.Char.{to_ascii_lowercase};
ghost use Rattle.wk_text_rules.specs.Titles.{is_namespace, namespace_name, namespace_called, underscored, same_but_case};
ghost use Rattle.wk_title.specs.Names.{name_in, called_in};

/// The number of the namespace Template.
pub const TEMPLATE: i8 = 10;

/// The number of the namespace Category.
pub const CATEGORY: i8 = 14;

/// Each namespace that has a name, as it is shown; main, number 0, has none.
const NAMED: [(i8, &str); 17] = [
    (-2, "Media"),
    (-1, "Special"),
    (1, "Talk"),
    (2, "User"),
    (3, "User talk"),
    (4, "Project"),
    (5, "Project talk"),
    (6, "File"),
    (7, "File talk"),
    (8, "MediaWiki"),
    (9, "MediaWiki talk"),
    (10, "Template"),
    (11, "Template talk"),
    (12, "Help"),
    (13, "Help talk"),
    (14, "Category"),
    (15, "Category talk"),
];

/// Second names, under which a namespace is found and never shown.
const ALIASES: [(i8, &str); 2] = [(6, "Image"), (7, "Image talk")];

fn name_in(mut table: &[(i8, &'static str)], ns: i8) -> &'static str
    ensures { result.now ≡ name_in (map (λ e. (e.0, e.1.now)) table.entry.now) ns }
{
    while let [entry, rest @ ..] = table {
        if entry.0 == ns {
            return entry.1;
        }
        table = rest;
    }
    ""
}

/// The name of a namespace as it is shown, empty for main and for a number that no namespace has. Takes no memory.
pub fn namespace_name(ns: i8) -> &'static str
    ensures { result.now ≡ namespace_name ns }
{
    name_in(&NAMED, ns)
}

/// Whether a namespace has this number: -2 to 15. Takes no memory.
pub fn is_namespace(ns: i8) -> bool
    ensures { result ≡ is_namespace ns }
{
    matches!(ns, -2..=15)
}

fn is_letter_of(byte: u8, c: char) -> bool
    ensures { result ≡ (to_ascii_lowercase (if byte == 32 then 95 else byte) == to_ascii_lowercase c) }
{
    let letter = if byte == b' ' { b'_' } else { byte };
    char::from(letter).eq_ignore_ascii_case(&c)
}

/// Whether the characters are the name, with underscores for its spaces and in any case.
fn is_name(name: &str, written: &[char]) -> bool
    ensures { result ≡ same_but_case (underscored name.now) written.now }
{
    let name = name.as_bytes();
    if name.len() != written.len() {
        return false;
    }
    for i in 0..name.len() {
        if !is_letter_of(name[i], written[i]) {
            return false;
        }
    }
    true
}

fn called_in(mut table: &[(i8, &str)], written: &[char]) -> Option<i8>
    ensures { result ≡ called_in (map (λ e. (e.0, e.1.now)) table.entry.now) written.now }
{
    while let [entry, rest @ ..] = table {
        if is_name(entry.1, written) {
            return Some(entry.0);
        }
        table = rest;
    }
    None
}

/// The namespace with this name or second name, written with underscores and in any case.
pub fn namespace_called(written: &[char]) -> Option<i8>
    ensures { result ≡ namespace_called written.now }
{
    match called_in(&NAMED, written) {
        Some(ns) => Some(ns),
        None => called_in(&ALIASES, written),
    }
}
