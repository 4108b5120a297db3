//! The rows of the tables, with a field for each column (MediaWiki's Manual:Database layout).
ghost use Rattle.std.specs.Prelude.{◌≡◌, IfOk};
ghost use Rattle.wk_table_rules.specs.Rows.{no_tables};

use crate::share::Share;
use std::alloc::Global;
use std::marker::Model;
use wk_bytes::Text;
use wk_memory::Memory;

/// A row of the table page (Manual:Page table).
#[derive(Drop, PartialEq, Eq)]
pub struct PageRow {
    pub page_id: u64,
    pub page_namespace: i64,
    pub page_title: Text,
    /// The page's current revision, 0 where the page is missing.
    pub page_latest: u64,
    /// The bytes of the page's text, 0 where the page is missing.
    pub page_len: u64,
}

impl Model for PageRow {
    ghost use Rattle.wk_table_rules.specs.Rows.{PageColumns};

    ghost Value = { PageColumns };

    ghost view = { λ r. record {
      page_id = r.page_id;
      page_title = record { ns = r.page_namespace; key = r.page_title };
      page_latest = r.page_latest;
      page_len = r.page_len;
    } };

    ghost inverse = { λ r. record {
      page_id = r.page_id;
      page_namespace = r.page_title.ns;
      page_title = r.page_title.key;
      page_latest = r.page_latest;
      page_len = r.page_len;
    } };
}

impl Share for PageRow {
    fn share(&self) -> Result<PageRow, Memory> {
        Ok(PageRow {
            page_id: self.page_id,
            page_namespace: self.page_namespace,
            page_title: self.page_title.share()?,
            page_latest: self.page_latest,
            page_len: self.page_len,
        })
    }
}

/// A row of the table revision (Manual:Revision table; the last two columns are own).
#[derive(Drop, PartialEq, Eq)]
pub struct RevisionRow {
    pub rev_id: u64,
    /// The number of its page.
    pub rev_page: u64,
    /// The page's current revision before it, 0 where the page was missing.
    pub rev_parent_id: u64,
    /// Seconds since 1970 (own).
    pub rev_timestamp: u64,
    /// The bytes of its text.
    pub rev_len: u64,
    /// Whether it is a deletion.
    pub rev_gone: bool,
    pub rev_text: Text,
}

impl Model for RevisionRow {
    ghost use Rattle.wk_table_rules.specs.Rows.{RevisionColumns};

    ghost Value = { RevisionColumns };

    ghost view = { λ r. record {
      rev_id = r.rev_id;
      rev_page = r.rev_page;
      rev_parent_id = r.rev_parent_id;
      rev_timestamp = r.rev_timestamp;
      rev_len = r.rev_len;
      rev_gone = r.rev_gone;
      rev_text = r.rev_text;
    } };

    ghost inverse = { λ r. record {
      rev_id = r.rev_id;
      rev_page = r.rev_page;
      rev_parent_id = r.rev_parent_id;
      rev_timestamp = r.rev_timestamp;
      rev_len = r.rev_len;
      rev_gone = r.rev_gone;
      rev_text = r.rev_text;
    } };
}

impl Share for RevisionRow {
    fn share(&self) -> Result<RevisionRow, Memory> {
        Ok(RevisionRow {
            rev_id: self.rev_id,
            rev_page: self.rev_page,
            rev_parent_id: self.rev_parent_id,
            rev_timestamp: self.rev_timestamp,
            rev_len: self.rev_len,
            rev_gone: self.rev_gone,
            rev_text: self.rev_text.share()?,
        })
    }
}

/// A row of the table pagelinks, templatelinks or existlinks, whose columns have these names behind `pl_`, `tl_` and
/// `el_` (Manual:Pagelinks table and Manual:Templatelinks table; existlinks, the titles whose existence the page
/// tests, is own).
#[derive(Drop, PartialEq, Eq)]
pub struct LinkRow {
    /// The number of the page that the row is of.
    pub from: u64,
    /// The namespace of that page's title.
    pub from_namespace: i64,
    pub namespace: i64,
    pub title: Text,
}

impl Model for LinkRow {
    ghost use Rattle.wk_table_rules.specs.Rows.{LinkColumns};

    ghost Value = { LinkColumns };

    ghost view = { λ r. record {
      from = r.from;
      from_namespace = r.from_namespace;
      target = record { ns = r.namespace; key = r.title };
    } };

    ghost inverse = { λ r. record {
      from = r.from;
      from_namespace = r.from_namespace;
      namespace = r.target.ns;
      title = r.target.key;
    } };
}

impl Share for LinkRow {
    fn share(&self) -> Result<LinkRow, Memory> {
        Ok(LinkRow {
            from: self.from,
            from_namespace: self.from_namespace,
            namespace: self.namespace,
            title: self.title.share()?,
        })
    }
}

/// A row of the table categorylinks (Manual:Categorylinks table).
#[derive(Drop, PartialEq, Eq)]
pub struct CategoryRow {
    /// The number of the page that is in the category.
    pub cl_from: u64,
    /// The category's key; its namespace is always Category.
    pub cl_to: Text,
    pub cl_sortkey: Text,
    /// The prefix that the page gave for the sort key.
    pub cl_sortkey_prefix: Text,
}

impl Model for CategoryRow {
    ghost use Rattle.wk_table_rules.specs.Rows.{CategoryColumns};

    ghost Value = { CategoryColumns };

    ghost view = { λ r. record {
      cl_from = r.cl_from;
      cl_to = r.cl_to;
      cl_sortkey = r.cl_sortkey;
      cl_sortkey_prefix = r.cl_sortkey_prefix;
    } };

    ghost inverse = { λ r. record {
      cl_from = r.cl_from;
      cl_to = r.cl_to;
      cl_sortkey = r.cl_sortkey;
      cl_sortkey_prefix = r.cl_sortkey_prefix;
    } };
}

impl Share for CategoryRow {
    fn share(&self) -> Result<CategoryRow, Memory> {
        Ok(CategoryRow {
            cl_from: self.cl_from,
            cl_to: self.cl_to.share()?,
            cl_sortkey: self.cl_sortkey.share()?,
            cl_sortkey_prefix: self.cl_sortkey_prefix.share()?,
        })
    }
}

/// A row of the table redirect (Manual:Redirect table).
#[derive(Drop, PartialEq, Eq)]
pub struct RedirectRow {
    /// The number of the page that is a redirect.
    pub rd_from: u64,
    pub rd_namespace: i64,
    pub rd_title: Text,
}

impl Model for RedirectRow {
    ghost use Rattle.wk_table_rules.specs.Rows.{RedirectColumns};

    ghost Value = { RedirectColumns };

    ghost view = { λ r. record { rd_from = r.rd_from; rd_title = record { ns = r.rd_namespace; key = r.rd_title } } };

    ghost inverse = { λ r. record { rd_from = r.rd_from; rd_namespace = r.rd_title.ns; rd_title = r.rd_title.key } };
}

impl Share for RedirectRow {
    fn share(&self) -> Result<RedirectRow, Memory> {
        Ok(RedirectRow {
            rd_from: self.rd_from,
            rd_namespace: self.rd_namespace,
            rd_title: self.rd_title.share()?,
        })
    }
}

/// A row of the table job (Manual:Job table).
#[derive(Drop, PartialEq, Eq)]
pub struct JobRow {
    pub job_id: u64,
    pub job_cmd: Text,
    pub job_namespace: i64,
    pub job_title: Text,
    pub job_params: Text,
}

impl Model for JobRow {
    ghost use Rattle.wk_table_rules.specs.Rows.{JobColumns};

    ghost Value = { JobColumns };

    ghost view = { λ r. record {
      job_id = r.job_id;
      job_cmd = r.job_cmd;
      job_title = record { ns = r.job_namespace; key = r.job_title };
      job_params = r.job_params;
    } };

    ghost inverse = { λ r. record {
      job_id = r.job_id;
      job_cmd = r.job_cmd;
      job_namespace = r.job_title.ns;
      job_title = r.job_title.key;
      job_params = r.job_params;
    } };
}

impl Share for JobRow {
    fn share(&self) -> Result<JobRow, Memory> {
        Ok(JobRow {
            job_id: self.job_id,
            job_cmd: self.job_cmd.share()?,
            job_namespace: self.job_namespace,
            job_title: self.job_title.share()?,
            job_params: self.job_params.share()?,
        })
    }
}

/// All rows of a store, table by table, in any order. The table site has the one row `version`, with this number.
#[derive(Drop)]
pub struct TableRows {
    pub pages: Vec<PageRow>,
    pub revisions: Vec<RevisionRow>,
    pub pagelinks: Vec<LinkRow>,
    pub templatelinks: Vec<LinkRow>,
    pub existlinks: Vec<LinkRow>,
    pub categorylinks: Vec<CategoryRow>,
    pub redirects: Vec<RedirectRow>,
    pub jobs: Vec<JobRow>,
    pub version: u64,
}

impl Model for TableRows {
    ghost use Rattle.wk_table_rules.specs.Rows.{StoreTables};

    ghost Value = { StoreTables };

    ghost view = { λ r. record {
      pages = r.pages.items;
      revisions = r.revisions.items;
      pagelinks = r.pagelinks.items;
      templatelinks = r.templatelinks.items;
      existlinks = r.existlinks.items;
      categorylinks = r.categorylinks.items;
      redirects = r.redirects.items;
      jobs = r.jobs.items;
      version = r.version;
    } };
}

impl TableRows {
    /// The rows of a new store: none, and version 2. Takes no memory.
    pub fn new(alloc: Global) -> TableRows
        ensures { result ≡ no_tables }
    {
        TableRows {
            pages: Vec::new(alloc),
            revisions: Vec::new(alloc),
            pagelinks: Vec::new(alloc),
            templatelinks: Vec::new(alloc),
            existlinks: Vec::new(alloc),
            categorylinks: Vec::new(alloc),
            redirects: Vec::new(alloc),
            jobs: Vec::new(alloc),
            version: 2,
        }
    }
}
