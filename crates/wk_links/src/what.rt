//! What a link's brackets link to.
ghost use Rattle.std.specs.Prelude.{◌≡◌, ◌+◌, ◌==◌, false, ◌≤◌, ◌^◌, ◌<◌, ℕ, not, filter, IfOk, option_map, codes, length, string_bytes, pos};
ghost use Rattle.std.specs.List.{starts_with};
ghost use Rattle.std.specs.Option.{ForSome, option_copied};
ghost use Rattle.wk_text_rules.specs.Blank.{trimmed};
ghost use Rattle.wk_text_rules.specs.Marked.{all_plain};
ghost use Rattle.wk_text_rules.specs.Occurrences.{link_by, link_of, prefix_from};
ghost use Rattle.wk_text_rules.specs.Titles.{is_virtual};
ghost use Rattle.wk_links.specs.Found.{link_in};
ghost use Rattle.wk_links.specs.Newlines.{without_newlines};

use crate::found::What;
use std::alloc::Global;
use wk_bytes::{Text, trim};
use wk_memory::Memory;
use wk_title::{CATEGORY, Title, page_named};

/// The number of the namespace File.
const FILE: i8 = 6;

/// Whether a colon stands before the target, by which a link to a category or a file is one to its page.
fn has_leading_colon(target: &str) -> bool
    ensures { result ≡ starts_with (λ a b. a == b) (trimmed target.now) (codes ":") }
{
    matches!(trim(target.as_bytes()), [b':', ..])
}

/// A label without its newlines.
fn without_newlines(alloc: Global, label: &str) -> Result<String, Memory>
    ensures { IfOk result (λ text. string_bytes text ≡ without_newlines label.now) }
{
    let mut text = String::with_capacity(alloc, label.len())?;
    let mut rest = label;
    while let Some((line, behind)) = rest.split_once('\n') {
        text.push_str(line)?;
        rest = behind;
    }
    text.push_str(rest)?;
    Ok(text)
}

fn label_prefix(alloc: Global, label: &str) -> Result<Text, Memory>
    requires { length label.now < 2 ^ 32 }
    ensures { IfOk result (λ text. text ≡ without_newlines label.now) }
{
    let text = without_newlines(alloc, label)?;
    Text::new(alloc, text.as_str())
}

/// The sort key prefix that a label gives: the label without its newlines, or nothing without a label (own).
fn prefix(alloc: Global, label: Option<&str>) -> Result<Text, Memory>
    requires { ForSome (option_copied label) (λ bytes. length bytes < 2 ^ 32) }
    ensures { IfOk result (λ text. text ≡ prefix_from (option_map all_plain (option_copied label.entry))) }
{
    match label {
        None => Text::new(alloc, ""),
        Some(label) => label_prefix(alloc, label),
    }
}

/// What a target with a label links to, where it names a page.
fn what_by(alloc: Global, target: &str, label: Option<&str>, title: Title) -> Result<What, Memory>
    requires page { is_virtual title ≡ false }
    requires label { ForSome (option_copied label) (λ bytes. length bytes < 2 ^ 32) }
    ensures { IfOk result
        (λ what. link_in what ≡ link_by target.now (option_map all_plain (option_copied label.entry)) title) }
{
    if has_leading_colon(target) {
        return Ok(What::Page(title));
    }
    match title.ns() {
        CATEGORY => {
            let prefix = prefix(alloc, label)?;
            Ok(What::Member(title, prefix))
        }
        FILE => Ok(What::Nothing),
        _ => Ok(What::Page(title)),
    }
}

/// What a target with a label links to.
pub fn what(alloc: Global, target: &str, label: Option<&str>) -> Result<What, Memory>
    requires { ForSome (option_copied label) (λ bytes. length bytes < 2 ^ 32) }
    ensures { IfOk result
        (λ what. link_in what ≡ link_of target.now (option_map all_plain (option_copied label.entry))) }
{
    match page_named(alloc, target)? {
        Some(title) => what_by(alloc, target, label, title),
        None => Ok(What::Nothing),
    }
}
