//! Edits of the tables that tests make.
use std::alloc::Global;
use std::test::Fail;
use wk_bytes::Text;
use wk_memory::Memory;
use wk_tables::{Change, JobRow, PageLists, PageRow, RevisionRow, RowEdit};
use wk_title::{Title, normalize};

/// One edit.
#[derive(Clone, Copy)]
pub enum Step {
    /// The number, the page, the revision before, the moment and the text.
    Revision(u64, u64, u64, u64, &'static str),
    /// The number, the key, the current revision and the length.
    Page(u64, &'static str, u64, u64),
    /// The page, which links to these titles, in this order, and uses no other.
    Rows(u32, &'static [&'static str]),
    /// The number, the command, the key and the parameters.
    Job(u64, &'static str, &'static str, &'static str),
    SetJob(u64, &'static str, &'static str, &'static str),
    DropJob(u64),
    Version(u64),
}

fn text(alloc: Global, bytes: &'static str) -> Result<Text, Memory> {
    if bytes.len() < 1000 {
        Text::new(alloc, bytes)
    } else {
        Err(Memory)
    }
}

fn job(
    alloc: Global,
    id: u64,
    cmd: &'static str,
    key: &'static str,
    params: &'static str,
) -> Result<JobRow, Memory> {
    Ok(JobRow {
        job_id: id,
        job_cmd: text(alloc, cmd)?,
        job_namespace: 0,
        job_title: text(alloc, key)?,
        job_params: text(alloc, params)?,
    })
}

fn page(
    alloc: Global,
    id: u64,
    key: &'static str,
    latest: u64,
    len: u64,
) -> Result<RowEdit, Memory> {
    Ok(RowEdit::SetPage(PageRow {
        page_id: id,
        page_namespace: 0,
        page_title: text(alloc, key)?,
        page_latest: latest,
        page_len: len,
    }))
}

fn revision(
    alloc: Global,
    id: u64,
    page: u64,
    parent: u64,
    seconds: u64,
    bytes: &'static str,
) -> Result<RowEdit, Memory> {
    Ok(RowEdit::AddRevision(RevisionRow {
        rev_id: id,
        rev_page: page,
        rev_parent_id: parent,
        rev_timestamp: seconds,
        rev_len: bytes.len() as u64,
        rev_gone: false,
        rev_text: text(alloc, bytes)?,
    }))
}

/// The titles that these texts name, in this order.
fn titles(alloc: Global, texts: &[&'static str]) -> Result<Vec<Title>, Memory> {
    let mut titles = Vec::new(alloc);
    for text in texts {
        let Ok(title) = normalize(alloc, *text, 0) else {
            return Err(Memory);
        };
        titles.push(title)?;
    }
    Ok(titles)
}

fn rows(alloc: Global, page: u32, links: &[&'static str]) -> Result<RowEdit, Memory> {
    Ok(RowEdit::SetRows(
        page,
        PageLists {
            templates: Vec::new(alloc),
            exists: Vec::new(alloc),
            links: titles(alloc, links)?,
            members: Vec::new(alloc),
            redirect: None,
        },
    ))
}

/// The edit of the step.
fn edit(alloc: Global, step: Step) -> Result<RowEdit, Memory> {
    match step {
        Step::Revision(id, of, parent, seconds, bytes) => {
            revision(alloc, id, of, parent, seconds, bytes)
        }
        Step::Page(id, key, latest, len) => page(alloc, id, key, latest, len),
        Step::Rows(of, links) => rows(alloc, of, links),
        Step::Job(id, cmd, key, params) => Ok(RowEdit::AddJob(job(alloc, id, cmd, key, params)?)),
        Step::SetJob(id, cmd, key, params) => {
            Ok(RowEdit::SetJob(job(alloc, id, cmd, key, params)?))
        }
        Step::DropJob(id) => Ok(RowEdit::DropJob(id)),
        Step::Version(version) => Ok(RowEdit::SetVersion(version)),
    }
}

/// The change of all these steps.
pub fn change(alloc: Global, steps: &[Step]) -> Result<Change, Fail> {
    let mut edits = Vec::new(alloc);
    for step in steps {
        edits.push(edit(alloc, *step)?)?;
    }
    Ok(Change { edits })
}
