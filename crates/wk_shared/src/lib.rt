//! A wiki that many callers share. Each has a pass, and each call is answered at a point of the wiki's one journal that is
//! no older than what its caller has seen. A page, or a text in the place of its own, is drafted while others save, and the
//! answer is right at such a point too; so is a text transformed, before it is saved.
#![tactic(auto)]

mod answering;
mod apart;
mod desk;
mod drafting;
mod fetches;
mod jobs;
mod keeping;
mod laws;
mod looks;
mod reads_desk;
mod saves;
mod shared;
mod substituting;

pub use apart::draft_apart;
pub use drafting::drafted;
pub use keeping::Sought;
pub use laws::{held_drafts_stay_fit, reads_stay_honest};
pub use looks::{Found, Looked, draft_held, found_in, is_idle, look, look_at, look_for, look_new};
pub use shared::Shared;
pub use substituting::substituted_apart;
pub use wk_base::{Gate, NoGate};
pub use wk_core::{
    Answer, ClaimRefusal, Draft, Edit, FanRefusal, Fanned, Finished, Keeper, Kind, PageRead,
    SaveRefusal, Saved, Ticket, Wiki,
};
pub use wk_subst::Substituted;
pub use wk_turn::{Held, Pass};
