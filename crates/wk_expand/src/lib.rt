//! Drafts of expansions: what a page or a text expands to, by the answers that were seen so far.
#![tactic(auto)]

mod answer;
mod argument;
mod decide;
mod drafting;
mod drafts;
mod exists;
mod finished;
mod functions;
mod hash;
mod inclusion;
mod items;
mod laws;
mod limits;
mod machine;
mod names;
mod parts;
mod reads;
mod search;
mod seen;
mod shared_draft;
mod stack;
mod state;
mod template;
mod texts;
mod trees;
mod words;
mod work;

pub use answer::{Answer, Counts, Read, mark};
pub use drafting::draft;
pub use drafts::{Draft, Root, Step};
pub use laws::{
    longer_seens_agree, rounds_of_drafts_come_to_an_end, steps_stay_true, steps_tell_of_worlds,
};
pub use machine::{Machine, Ran};
pub use seen::Seen;
pub use shared_draft::SharedDraft;
pub use trees::Trees;
pub use wk_view_rules::Kind;
