//! Where a text redirects to (MediaWiki's Help:Redirects).
#![tactic(auto)]

mod redirect;

pub use redirect::redirect_target;
