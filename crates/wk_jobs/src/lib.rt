//! The jobs of a wiki: which pages are to be refreshed, which titles' users are to be, and in which order.
#![tactic(auto)]

mod fans;
mod jobs;
mod listed;
mod load;
mod numbers;
mod refreshes;
mod rows;

pub use fans::FanJob;
pub use jobs::Jobs;
pub use listed::ListedJobs;
pub use refreshes::RefreshJob;
pub use wk_wiki_rules::Left;
