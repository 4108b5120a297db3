//! A replica of a wiki: it takes the lines of a feed, one after the other, and answers what is read from it as the wiki does at the
//! same point of its journal.
#![tactic(auto)]

mod answers;
mod drafting;
mod events;
mod laws;
mod loading;
mod places;
mod refusal;
mod replica;
mod storied;
mod taking;

pub use laws::{
    a_replica_answers_as_its_wiki, a_replica_is_at_a_point_of_its_feed, lines_are_taken_in_order,
};
pub use refusal::TakeRefusal;
pub use replica::Replica;
pub use storied::ReplicaStart;
pub use wk_core::{JournalEvent, Wiki};
pub use wk_feed_lines::{EventLine, FeedLine, FeedRow, read_line};
pub use wk_keeper::MemKeeper;
