//! The state of a wiki that is opened over a store.
ghost use Rattle.std.specs.Prelude.{◌≡◌, ◌+◌, ◌≤◌, ◌^◌, IfOk, OnOk};
ghost use Rattle.std.specs.List.{range_with_len};
ghost use Rattle.wk_page_rules.specs.Verdict.{max_pages};
ghost use Rattle.wk_table_rules.specs.GoodStore.{IsGood};
ghost use Rattle.wk_wiki_rules.specs.Steps.{all_queued, reopened_jobs};
ghost use Rattle.wk_wiki_rules.specs.Lives.{opened};

use crate::live::Live;
use std::alloc::Global;
use wk_index::Index;
use wk_jobs::Jobs;
use wk_memory::Memory;
use wk_revs::Revs;
use wk_tables::Tables;

/// Queues a refresh of each page that has none, in the order of the pages.
fn queue_pages(jobs: &mut Jobs, pages: usize) -> Result<(), Memory>
    requires few { pages ≤ max_pages }
    requires numbers { jobs.old.lists.next + pages ≤ 2 ^ 63 }
    ensures { OnOk result (jobs.new.lists ≡ all_queued jobs.old.lists (range_with_len 1 pages)) }
{
    for page in 0..pages {
        let _ = jobs.queue_refresh(page as u32 + 1)?;
    }
    Ok(())
}

/// The jobs with a refresh of each page that has none, as a restart has them.
fn refreshed(mut jobs: Jobs, pages: usize) -> Result<Jobs, Memory>
    requires few { pages ≤ max_pages }
    requires numbers { jobs.lists.next + pages ≤ 2 ^ 63 }
    ensures { IfOk result (λ after. after.lists ≡ reopened_jobs (all_queued jobs.lists (range_with_len 1 pages))) }
{
    queue_pages(&mut jobs, pages)?;
    jobs.reopen();
    Ok(jobs)
}

/// The jobs of the tables of a good store, as a restart has them. Version 1 has no redirect rows, so what it holds may be
/// behind, and each page that has no refresh job gets one.
fn jobs_of(tables: &Tables) -> Result<Jobs, Memory>
    requires { IsGood tables.now.tables }
    ensures { IfOk result (λ jobs. jobs.lists ≡ (opened tables.now.tables).jobs) }
{
    let jobs = Jobs::load(tables)?;
    if tables.version() == 1 {
        return refreshed(jobs, tables.pages().len());
    }
    Ok(jobs)
}

impl Live {
    /// The state of a wiki that is opened over the tables of a good store: each refresh job is queued, in the order of
    /// their numbers, and over version 1 a refresh of each page that has none. No room is made. `Memory` may come at any
    /// tables.
    pub fn load(alloc: Global, tables: &Tables) -> Result<Live, Memory>
        requires { IsGood tables.now.tables }
        ensures { IfOk result (λ live. live.state ≡ opened tables.now.tables) }
    {
        let revs = Revs::load(alloc, tables)?;
        let index = Index::load(tables)?;
        let jobs = jobs_of(tables)?;
        Ok(Live { revs, jobs, index })
    }
}
