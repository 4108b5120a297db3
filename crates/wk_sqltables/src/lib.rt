//! The statements on the tables of a store in a SQLite database, over any store of `sqlite`: a file, or memory.
//!
//! Each statement is one text in one function. Its contract says what it makes of whatever tables the store held, and that
//! the other tables and what is committed stay, where the disk gives back what was written and the tables were made in
//! their own order: page, revision, pagelinks, templatelinks, existlinks, categorylinks, job, site, redirect. Over any
//! other tables nothing is said, and the statements run as well.
#![tactic(auto)]

mod all_rows;
mod edits;
mod jobs;
mod links;
mod members;
mod numbers;
mod pages;
mod redirects;
mod revisions;
mod site;

pub use edits::make_change;
pub use numbers::moment_of;
