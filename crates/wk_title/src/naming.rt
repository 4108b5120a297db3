//! The title or the page that a text names, where it names one.
ghost use Rattle.std.specs.Prelude.{◌≡◌, true, IfOk};
ghost use Rattle.wk_text_rules.specs.Targets.{page_named};
ghost use Rattle.wk_text_rules.specs.Titles.{is_namespace, normal};

use crate::rules::normalize;
use crate::title::{Title, TitleRefusal};
use std::alloc::Global;
use wk_memory::Memory;

/// The title that a text names, as `normalize` has it; none exactly where the rules give the text no title.
pub fn named(alloc: Global, text: &str, default_ns: i8) -> Result<Option<Title>, Memory>
    requires { is_namespace default_ns ≡ true }
    ensures { IfOk result (λ found. found ≡ normal text.now default_ns) }
{
    match normalize(alloc, text, default_ns) {
        Ok(title) => Ok(Some(title)),
        Err(TitleRefusal::Illegal) => Ok(None),
        Err(TitleRefusal::Memory) => Err(Memory),
    }
}

/// The page that a text names: its title, in main by default; none exactly where it names no title, or one in a
/// negative namespace.
pub fn page_named(alloc: Global, text: &str) -> Result<Option<Title>, Memory>
    ensures { IfOk result (λ found. found ≡ page_named text.now) }
{
    match named(alloc, text, 0)? {
        Some(title) => {
            if title.is_virtual() {
                return Ok(None);
            }
            Ok(Some(title))
        }
        None => Ok(None),
    }
}
