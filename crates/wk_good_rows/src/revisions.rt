//! The rule of the table revision alone.
ghost use Rattle.std.specs.Prelude.{◌≡◌, ◌+◌, ◌∷◌, ◌++◌, [], None, List, length};
ghost use Rattle.wk_table_rules.specs.Rows.{RevisionColumns};
ghost use Rattle.wk_table_rules.specs.GoodStore.{first_bad, has_good_id, is_good_revision, texts_len};

use crate::number::{has_page, row_number};
use wk_table_rows::{RevisionRow, TableRows};

/// The most bytes of a page's text, and of a text that is expanded (own; MediaWiki's `$wgMaxArticleSize` of 2048 KiB).
pub const MAX_TEXT: usize = 2_097_152;

/// The most bytes of the texts of all revisions.
const MAX_TEXTS: u64 = 1_073_741_824;

/// Whether the row is good, where `number` is its own, counted from 1, and `texts` are the bytes of all texts up to it.
fn is_good_revision(tables: &TableRows, revision: &RevisionRow, number: u64, texts: u64) -> bool
    requires { first_bad has_good_id tables.now.pages ≡ None }
    ensures { (before : List RevisionColumns) → number ≡ length before + 1 → texts ≡ texts_len (before ++ revision.now ∷ []) → result ≡ is_good_revision tables.now before revision.now }
{
    let len = revision.rev_text.len() as u64;
    let is_of_page = revision.rev_id == number && has_page(&tables.pages, revision.rev_page);
    let is_short = revision.rev_len == len && revision.rev_len <= MAX_TEXT as u64;
    if !is_of_page || !is_short {
        return false;
    }
    (!revision.rev_gone || len == 0) && texts <= MAX_TEXTS
}

/// The first row whose number isn't its own, that is of no page, that is a deletion with a text, whose length isn't
/// its text's or is too great, or at which all texts so far are too long.
pub fn bad_revision(tables: &TableRows) -> Option<u64>
    requires { first_bad has_good_id tables.now.pages ≡ None }
    ensures { result ≡ first_bad (is_good_revision tables.now) tables.now.revisions }
{
    let revisions = tables.revisions.as_slice();
    let mut texts: u64 = 0;
    for i in 0..revisions.len() {
        let revision = &revisions[i];
        let number = row_number(i);
        texts += revision.rev_text.len() as u64;
        if !is_good_revision(tables, revision, number, texts) {
            return Some(number);
        }
    }
    None
}
