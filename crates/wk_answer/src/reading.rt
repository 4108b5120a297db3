//! The answers to requests that only read.
ghost use Rattle.std.specs.Prelude.{◌≡◌, ℕ, IfOk};
ghost use Rattle.serde_json.specs.View.{view};
ghost use Rattle.wk_page_rules.specs.Verdict.{MostHeld};
ghost use Rattle.wk_request.specs.Asked.{list_of, read_of, site_of};
ghost use Rattle.wk_answer_rules.specs.Answers.{answer_to_ask};

use crate::by_text::{expand, parse};
use crate::counts::site;
use serde_json::Value;
use std::alloc::Global;
use wk_expand::Trees;
use wk_listings::{backlinks, changes, embedded, members, revisions};
use wk_live::Live;
use wk_memory::Memory;
use wk_replies::tokens;
use wk_request::{ListAsked, ReadAsked, SiteAsked};

/// What a page or a text expands to, where that is asked for (MediaWiki's API:Parsing wikitext and API:Expandtemplates): what the
/// state shows, or the first error. `trees` keeps parsed texts.
pub fn read_answer(
    alloc: Global,
    live: &Live,
    point: u64,
    asked: &ReadAsked,
    trees: &mut Trees,
) -> Result<Value, Memory>
    ensures { (most : MostHeld) (moment : ℕ)
        → IfOk result (λ v. view v ≡ (answer_to_ask most live.now.state point moment (read_of asked.now)).reply.value) }
{
    match *asked {
        ReadAsked::Page { page } => parse(alloc, live, page, point, trees),
        ReadAsked::Text { text, title } => expand(alloc, live, text, title, point, trees),
    }
}

/// The part of a list that is asked for (the pages of MediaWiki's list modules, and API:Revisions): what the state shows, or the
/// first error.
pub fn list_answer(
    alloc: Global,
    live: &Live,
    point: u64,
    asked: &ListAsked,
) -> Result<Value, Memory>
    ensures { (most : MostHeld) (moment : ℕ)
        → IfOk result (λ v. view v ≡ (answer_to_ask most live.now.state point moment (list_of asked.now)).reply.value) }
{
    let (index, revs) = (live.index(), live.revs());
    match *asked {
        ListAsked::Backlinks(listing) => backlinks(alloc, revs, index, listing, point),
        ListAsked::Embedded(listing) => embedded(alloc, revs, index, listing, point),
        ListAsked::Members(listing) => members(alloc, revs, index, listing, point),
        ListAsked::Changes(listing) => changes(alloc, revs, listing, point),
        ListAsked::Revisions(listing, content) => {
            revisions(alloc, revs, listing, content, point)
        }
    }
}

/// What is asked of the site (MediaWiki's API:Tokens and API:Siteinfo), as the state shows it.
pub fn site_answer(
    alloc: Global,
    live: &Live,
    point: u64,
    asked: SiteAsked,
) -> Result<Value, Memory>
    ensures { (most : MostHeld) (moment : ℕ)
        → IfOk result (λ v. view v ≡ (answer_to_ask most live.now.state point moment (site_of asked)).reply.value) }
{
    match asked {
        SiteAsked::Tokens => tokens(alloc, point),
        SiteAsked::Info => site(alloc, live, point),
    }
}
