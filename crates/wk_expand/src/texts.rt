//! The texts that an expansion gives where it doesn't go on.
ghost use Rattle.std.specs.Prelude.{◌≡◌, ◌++◌, codes, IfOk};
ghost use Rattle.wk_text_rules.specs.Marked.{all_plain};
ghost use Rattle.wk_text_rules.specs.Titles.{shown};
ghost use Rattle.wk_view_rules.specs.Texts.{argument_error, depth_error, error_text, link_text, loop_error, nesting_error, node_error};

use std::alloc::Global;
use wk_memory::Memory;
use wk_out::Out;
use wk_title::{Title, shown};

/// The text, as plain bytes.
pub fn plain(alloc: Global, text: &str) -> Result<Out, Memory>
    ensures { IfOk result (λ out. out ≡ all_plain text.now) }
{
    let mut out = Out::new(alloc);
    out.push_plain(text)?;
    Ok(out)
}

/// An error with these words about a title.
#[tactic(auto, using(crate::proofs::TextLaws::regrouped))]
fn error_about(alloc: Global, words: &str, title: &Title) -> Result<Out, Memory>
    ensures { IfOk result (λ out. out ≡ error_text (words.now ++ shown title.now)) }
{
    let mut text = String::from_str(alloc, "<span class=\"error\">")?;
    text.push_str(words)?;
    shown(title, &mut text)?;
    text.push_str("</span>")?;
    plain(alloc, &text)
}

/// A page includes itself.
pub fn loop_error(alloc: Global, title: &Title) -> Result<Out, Memory>
    ensures { IfOk result (λ out. out ≡ loop_error title.now) }
{
    error_about(alloc, "Template loop detected: ", title)
}

/// Too many pages include each other.
pub fn depth_error(alloc: Global, title: &Title) -> Result<Out, Memory>
    ensures { IfOk result (λ out. out ≡ depth_error title.now) }
{
    error_about(alloc, "Template depth limit exceeded: ", title)
}

/// Too many nodes in all.
pub fn node_error(alloc: Global) -> Result<Out, Memory>
    ensures { IfOk result (λ out. out ≡ node_error) }
{
    plain(alloc, "<span class=\"error\">Node limit exceeded</span>")
}

/// Too many nodes within each other.
pub fn nesting_error(alloc: Global) -> Result<Out, Memory>
    ensures { IfOk result (λ out. out ≡ nesting_error) }
{
    plain(
        alloc,
        "<span class=\"error\">Expansion depth limit exceeded</span>",
    )
}

/// Too many bytes of arguments.
pub fn argument_error(alloc: Global) -> Result<Out, Memory>
    ensures { IfOk result (λ out. out ≡ argument_error) }
{
    plain(
        alloc,
        "<span class=\"error\">Argument size limit exceeded</span>",
    )
}

/// A link to the page, in the place of a text that can't be included.
pub fn link_text(alloc: Global, title: &Title) -> Result<Out, Memory>
    ensures { IfOk result (λ out. out ≡ link_text title.now) }
{
    let mut text = String::from_str(alloc, "[[:")?;
    shown(title, &mut text)?;
    text.push_str("]]")?;
    plain(alloc, &text)
}
