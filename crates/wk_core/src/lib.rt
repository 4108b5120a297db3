//! The wiki: one store, one journal. Each call of it is one event, or none.
#![tactic(auto)]

mod claims;
mod fans;
mod fetches;
mod kept;
mod laws;
mod life;
mod listings;
mod load;
mod outcomes;
mod plans;
mod refreshes;
mod restart;
mod saves;
mod storied;
mod ticket;
mod wiki;

pub use laws::{a_draft_stays_fit, a_save_makes_a_fan_job_where_one_is_wanted, a_ticket_stays_out};
pub use outcomes::{
    ClaimRefusal, FanRefusal, Fanned, Finished, LoadCause, LoadRefusal, PageRead, ReadRefusal,
    Saved,
};
pub use plans::{Plan, Planned};
pub use storied::{JournalEvent, WikiStart};
pub use ticket::Ticket;
pub use wiki::Wiki;
pub use wk_cache::Kept;
pub use wk_expand::{Answer, Draft, Kind, SharedDraft};
pub use wk_index::MemberPage;
pub use wk_jobs::Left;
pub use wk_keeper::{Keeper, KeeperRefusal};
pub use wk_live::Live;
pub use wk_revs::{Edit, Limit, Limits, Revision, SaveRefusal, Standing};
pub use wk_tables::{BadStore, Reach, Tables};
pub use wk_wiki_rules::Entry;
