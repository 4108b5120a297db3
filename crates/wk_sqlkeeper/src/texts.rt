//! The statements that make the tables. The database keeps their texts, by which a later run knows the tables.
ghost use Rattle.std.specs.Prelude.{◌≡◌};
ghost use Rattle.wk_sqlkeeper.specs.Making.{page_made, revision_made, pagelinks_made, templatelinks_made, existlinks_made, categorylinks_made, job_made, site_made, redirect_made};

pub fn page_text() -> &'static str
    ensures { result.now ≡ page_made }
{
    "CREATE TABLE page (page_id INTEGER PRIMARY KEY, page_namespace INTEGER NOT NULL, page_title TEXT NOT NULL, page_latest INTEGER NOT NULL, page_len INTEGER NOT NULL, UNIQUE (page_namespace, page_title)) STRICT"
}

pub fn revision_text() -> &'static str
    ensures { result.now ≡ revision_made }
{
    "CREATE TABLE revision (rev_id INTEGER PRIMARY KEY, rev_page INTEGER NOT NULL, rev_parent_id INTEGER NOT NULL, rev_timestamp INTEGER NOT NULL, rev_len INTEGER NOT NULL, rev_gone INTEGER NOT NULL, rev_text TEXT NOT NULL) STRICT"
}

pub fn pagelinks_text() -> &'static str
    ensures { result.now ≡ pagelinks_made }
{
    "CREATE TABLE pagelinks (pl_from INTEGER NOT NULL, pl_from_namespace INTEGER NOT NULL, pl_namespace INTEGER NOT NULL, pl_title TEXT NOT NULL, PRIMARY KEY (pl_from, pl_namespace, pl_title)) STRICT"
}

pub fn templatelinks_text() -> &'static str
    ensures { result.now ≡ templatelinks_made }
{
    "CREATE TABLE templatelinks (tl_from INTEGER NOT NULL, tl_from_namespace INTEGER NOT NULL, tl_namespace INTEGER NOT NULL, tl_title TEXT NOT NULL, PRIMARY KEY (tl_from, tl_namespace, tl_title)) STRICT"
}

pub fn existlinks_text() -> &'static str
    ensures { result.now ≡ existlinks_made }
{
    "CREATE TABLE existlinks (el_from INTEGER NOT NULL, el_from_namespace INTEGER NOT NULL, el_namespace INTEGER NOT NULL, el_title TEXT NOT NULL, PRIMARY KEY (el_from, el_namespace, el_title)) STRICT"
}

pub fn categorylinks_text() -> &'static str
    ensures { result.now ≡ categorylinks_made }
{
    "CREATE TABLE categorylinks (cl_from INTEGER NOT NULL, cl_to TEXT NOT NULL, cl_sortkey TEXT NOT NULL, cl_sortkey_prefix TEXT NOT NULL, PRIMARY KEY (cl_from, cl_to)) STRICT"
}

pub fn job_text() -> &'static str
    ensures { result.now ≡ job_made }
{
    "CREATE TABLE job (job_id INTEGER PRIMARY KEY, job_cmd TEXT NOT NULL, job_namespace INTEGER NOT NULL, job_title TEXT NOT NULL, job_params TEXT NOT NULL) STRICT"
}

pub fn site_text() -> &'static str
    ensures { result.now ≡ site_made }
{
    "CREATE TABLE site (site_key TEXT NOT NULL PRIMARY KEY, site_value TEXT NOT NULL) STRICT"
}

/// The table redirect, which stores of version 1 may lack.
pub fn redirect_text() -> &'static str
    ensures { result.now ≡ redirect_made }
{
    "CREATE TABLE redirect (rd_from INTEGER PRIMARY KEY, rd_namespace INTEGER NOT NULL, rd_title TEXT NOT NULL) STRICT"
}

/// The tables but for redirect.
pub fn other_texts() -> [&'static str; 8] {
    [
        page_text(),
        revision_text(),
        pagelinks_text(),
        templatelinks_text(),
        existlinks_text(),
        categorylinks_text(),
        job_text(),
        site_text(),
    ]
}
