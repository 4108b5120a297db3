//! Where rows of a feed stand.
ghost use Rattle.std.specs.Prelude.{◌≡◌, map};
ghost use Rattle.wk_feed_rules.specs.Taking.{is_behind, no_title, place_lt, place_of};
ghost use Rattle.wk_feed_lines.specs.Said.{row_of};
ghost use Rattle.wk_replica.specs.Places.{place_shown};

use wk_feed_lines::FeedRow;
use wk_table_rows::LinkRow;
use wk_title::CATEGORY;

/// Where a row stands: the number of its table, its first column, and the title that it has, an empty one where it has none.
#[derive(Clone, Copy)]
pub struct Place<'a> {
    table: u8,
    number: u64,
    namespace: i64,
    key: &'a str,
}

/// The place of a row of a link table.
fn link_place(table: u8, link: &LinkRow) -> Place<'_>
    ensures { place_shown result ≡ record { table = table; number = link.now.from; title = link.now.target } }
{
    Place {
        table,
        number: link.from,
        namespace: link.namespace,
        key: link.title.as_str(),
    }
}

/// The place of a row that has no title.
fn untitled(table: u8, number: u64) -> Place<'static>
    ensures { place_shown result ≡ record { table = table; number = number; title = no_title } }
{
    Place {
        table,
        number,
        namespace: 0,
        key: "",
    }
}

/// The place of a row.
fn place_of(row: &FeedRow) -> Place<'_>
    ensures { place_shown result ≡ place_of (row_of row.now) }
{
    match row {
        FeedRow::Page(page) => Place {
            table: 0,
            number: page.page_id,
            namespace: page.page_namespace,
            key: page.page_title.as_str(),
        },
        FeedRow::Revision(revision) => untitled(1, revision.rev_id),
        FeedRow::PageLink(link) => link_place(2, link),
        FeedRow::TemplateLink(link) => link_place(3, link),
        FeedRow::ExistLink(link) => link_place(4, link),
        FeedRow::CategoryLink(link) => Place {
            table: 5,
            number: link.cl_from,
            namespace: i64::from(CATEGORY),
            key: link.cl_to.as_str(),
        },
        FeedRow::Redirect(redirect) => Place {
            table: 6,
            number: redirect.rd_from,
            namespace: redirect.rd_namespace,
            key: redirect.rd_title.as_str(),
        },
        FeedRow::Job(job) => Place {
            table: 7,
            number: job.job_id,
            namespace: job.job_namespace,
            key: job.job_title.as_str(),
        },
        FeedRow::Site(_) => untitled(8, 0),
    }
}

/// Whether the first place is before the second: by the table, by the first column, and then by the title.
fn is_before(a: &Place<'_>, b: &Place<'_>) -> bool
    ensures { result ≡ place_lt (place_shown a.now) (place_shown b.now) }
{
    if a.table != b.table {
        return a.table < b.table;
    }
    let titles = a.namespace.cmp(&b.namespace).then(a.key.cmp(b.key));
    a.number.cmp(&b.number).then(titles).is_lt()
}

/// Whether the row stands behind all of these, which are in order.
pub fn is_behind(rows: &[FeedRow], row: &FeedRow) -> bool
    ensures { result ≡ is_behind (map row_of rows.now) (row_of row.now) }
{
    match rows.last() {
        Some(last) => is_before(&place_of(last), &place_of(row)),
        None => true,
    }
}
