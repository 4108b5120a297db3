//! Laws of what is read of a wiki point by point: of the answers that a draft is made of, and of what a reader keeps of
//! pages. Nothing here runs: each law is the contract of a function that does nothing.
#![tactic(auto)]

mod pages;
mod points;

pub use pages::{a_kept_read_is_right_later, a_read_is_right_where_each_answer_is_current};
pub use points::{answers_are_of_points, answers_of_points_are_honest};
