//! A text that is substituted before a save, with every answer seen.

use crate::drafts::VIEWED;
use std::alloc::Global;
use wk_bytes::Text;
use wk_expand::Seen;
use wk_memory::Memory;
use wk_subst::{SubstStep, substitute};
use wk_title::page_named;

/// Substitutes the text so many times. The bytes of what it becomes in all; none where an answer is wanting.
pub fn substituted(alloc: Global, seen: &Seen, rounds: u64, text: &str) -> Result<u64, Memory> {
    let Some(page) = page_named(alloc, VIEWED)? else {
        return Ok(0);
    };
    if text.len() as u64 >= 1 << 32 {
        return Ok(0);
    }
    let text = Text::new(alloc, text)?;
    let mut count = 0u64;
    for _ in 0..rounds {
        if let SubstStep::Done(made) = substitute(alloc, &page, &text, seen)? {
            count = count.saturating_add(made.text().len() as u64);
        }
    }
    Ok(count)
}
