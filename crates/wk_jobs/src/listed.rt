//! The job lists of one moment.
use crate::fans::FanJob;
use crate::refreshes::RefreshJob;
use std::marker::Model;

/// The job lists of one moment, in their order, and the number of the next new job. Contracts see the lists.
#[derive(Drop)]
pub struct ListedJobs {
    /// The refresh jobs: those that are claimed, in the order of their claims, and behind them those that are queued.
    pub refreshes: Vec<RefreshJob>,
    /// The fan jobs.
    pub fans: Vec<FanJob>,
    /// The number of the next new job.
    pub next: u64,
}

impl Model for ListedJobs {
    ghost use Rattle.wk_wiki_rules.specs.Jobs.{JobLists};

    ghost Value = { JobLists };

    ghost view = { λ l. record { refreshes = l.refreshes.items; fans = l.fans.items; next = l.next } };
}
