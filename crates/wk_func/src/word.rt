//! Which variable, function or page a title part calls.
ghost use Rattle.std.specs.Prelude.{◌≡◌, ◌+◌, ◌++◌, length, find, bytes_eq, codes, option_map};
ghost use Rattle.std.specs.Char.{eq_ignore_ascii_case};
ghost use Rattle.std.specs.List.{starts_with};
ghost use Rattle.wk_text_rules.specs.Marked.{all_plain};
ghost use Rattle.wk_text_rules.specs.Titles.{same_but_case};
ghost use Rattle.wk_view_rules.specs.Words.{functions, variable_called, function_called, variables, word};
ghost use Rattle.wk_func.specs.PlainStart.{plain_start};

use wk_out::Out;
use wk_view_rules::{Func, Var, Word};

fn variable_named(name: &str) -> Option<Var>
    ensures { result ≡ option_map (λ entry. entry.1) (find (λ entry. bytes_eq entry.0 name.now) variables) }
{
    match name {
        "!" => Some(Var::Bar),
        "PAGENAME" => Some(Var::PageName),
        "FULLPAGENAME" => Some(Var::FullPageName),
        "NAMESPACE" => Some(Var::Namespace),
        _ => None,
    }
}

fn variable_called(title: &Out) -> Option<Var>
    ensures { result ≡ variable_called title.now }
{
    variable_named(title.plain_text()?)
}

/// The bytes before the first sealed one.
fn plain_start(title: &Out) -> &str
    ensures { result.now ≡ plain_start title.now }
{
    let mut runs = title.runs();
    let Some((text, sealed)) = runs.next() else {
        return "";
    };
    if sealed { "" } else { text }
}

/// Whether the texts are the same but for the case of ASCII letters.
pub fn is_same_but_case(a: &[u8], b: &[u8]) -> bool
    ensures { result ≡ same_but_case a.now b.now }
{
    a.eq_ignore_ascii_case(b)
}

/// Whether the text begins with the word, in any case of its letters.
fn begins_with(text: &[u8], word: &[u8]) -> bool
    ensures { result ≡ starts_with eq_ignore_ascii_case text.now word.now }
{
    word.len() <= text.len() && is_same_but_case(word, &text[..word.len()])
}

/// The function whose name and a colon the text begins with, and the place behind the colon.
fn function_named(text: &[u8]) -> Option<(Func, usize)>
    ensures { result ≡ option_map (λ entry. (entry.1, length entry.0 + 1))
        (find (λ entry. starts_with eq_ignore_ascii_case text.now (entry.0 ++ codes ":")) functions) }
{
    if text.is_empty() || text[0] != b'#' {
        return None;
    }
    if begins_with(text, b"#if:") {
        Some((Func::If, 4))
    } else if begins_with(text, b"#ifeq:") {
        Some((Func::IfEq, 6))
    } else if begins_with(text, b"#ifexist:") {
        Some((Func::IfExist, 9))
    } else if begins_with(text, b"#iferror:") {
        Some((Func::IfError, 9))
    } else if begins_with(text, b"#switch:") {
        Some((Func::Switch, 8))
    } else {
        None
    }
}

fn function_called(title: &Out) -> Option<(Func, usize)>
    ensures { result ≡ function_called title.now }
{
    function_named(plain_start(title).as_bytes())
}

/// What a trimmed title part calls (MediaWiki's Help:Magic words and Help:Extension:ParserFunctions): a variable, where
/// `alone` says that the node has no further part and the title is plain and exactly the name; else a function, where
/// plain bytes up to the first colon are its name in any case, with the place behind the colon; else a page. Takes no
/// memory.
pub fn find(title: &Out, alone: bool) -> Word
    ensures { result ≡ word title.now alone }
{
    if alone {
        if let Some(variable) = variable_called(title) {
            return Word::Variable(variable);
        }
    }
    match function_called(title) {
        Some((function, operand)) => Word::Function(function, operand),
        None => Word::Page,
    }
}

/// The variable that a plain text calls.
fn plain_variable(text: &str) -> Option<Var>
    ensures { result ≡ variable_called (all_plain text.now) }
{
    variable_named(text)
}

/// The function that a plain text calls.
fn plain_function(text: &str) -> Option<(Func, usize)>
    ensures { result ≡ function_called (all_plain text.now) }
{
    function_named(text.as_bytes())
}

/// The same for a title part whose bytes are all plain. Takes no memory.
pub fn find_plain(title: &str, alone: bool) -> Word
    ensures { result ≡ word (all_plain title.now) alone }
{
    if alone {
        if let Some(variable) = plain_variable(title) {
            return Word::Variable(variable);
        }
    }
    match plain_function(title) {
        Some((function, operand)) => Word::Function(function, operand),
        None => Word::Page,
    }
}
