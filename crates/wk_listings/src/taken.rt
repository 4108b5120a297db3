//! How much of what was found is listed.
ghost use Rattle.std.specs.Prelude.{◌≡◌, ◌+◌, IfOk, take};
ghost use Rattle.wk_answer_rules.specs.Lists.{last_listed};

use wk_memory::Memory;

/// How many entries a listing looks for: one more than it lists, so that it is known whether more is left. No list of
/// more than 2^64 - 1 entries has memory.
pub fn one_more(limit: usize) -> Result<usize, Memory>
    ensures { IfOk result (λ most. most ≡ limit + 1) }
{
    if limit == usize::MAX {
        return Err(Memory);
    }
    Ok(limit + 1)
}

/// At most so many, from the first on.
pub fn first<T>(found: &[T], limit: usize) -> &[T]
    ensures { result.now ≡ take limit found.now }
{
    if limit < found.len() {
        return &found[..limit];
    }
    found
}

/// The last number that is listed, where more was found.
pub fn last_number(found: &[u64], limit: usize) -> Option<u64>
    ensures { result ≡ last_listed (λ number. number) limit found.now }
{
    if limit == 0 || found.len() <= limit {
        return None;
    }
    Some(found[limit - 1])
}

/// The last page that is listed, where more was found.
pub fn last_page(found: &[u32], limit: usize) -> Option<u64>
    ensures { result ≡ last_listed (λ page. page) limit found.now }
{
    if limit == 0 || found.len() <= limit {
        return None;
    }
    Some(u64::from(found[limit - 1]))
}
