//! Whether two stores have the same rows.
use wk_tables::TableRows;

/// Whether both stores give their rows, and they are the same.
pub fn are_both(a: &Option<TableRows>, b: &Option<TableRows>) -> bool {
    match (a, b) {
        (Some(a), Some(b)) => are_same(a, b),
        _ => false,
    }
}

/// Whether all rows of all tables are the same, in the same order.
fn are_same(a: &TableRows, b: &TableRows) -> bool {
    a.pages == b.pages
        && a.revisions == b.revisions
        && are_same_links(a, b)
        && a.redirects == b.redirects
        && a.jobs == b.jobs
        && a.version == b.version
}

fn are_same_links(a: &TableRows, b: &TableRows) -> bool {
    a.pagelinks == b.pagelinks
        && a.templatelinks == b.templatelinks
        && a.existlinks == b.existlinks
        && a.categorylinks == b.categorylinks
}
