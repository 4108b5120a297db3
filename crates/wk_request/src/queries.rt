//! What a query asks.
ghost use Rattle.std.specs.Prelude.{◌≡◌, IfOk};
ghost use Rattle.wk_request_rules.specs.Reading.{ask_given};
ghost use Rattle.wk_request_rules.specs.declared.Module.TheVariants.{Backlinks as BacklinksModule, EmbeddedIn as EmbeddedInModule, CategoryMembers as CategoryMembersModule, RecentChanges as RecentChangesModule, Revisions as RevisionsModule};
ghost use Rattle.wk_request.specs.Asked.{ask_of};

use crate::flags::has_value;
use crate::listings::listing_given;
use crate::request::Ask;
use std::alloc::Global;
use wk_form::Params;
use wk_memory::Memory;
use wk_request_rules::Module;

pub fn backlinks_given(alloc: Global, params: &Params) -> Result<Ask, Memory>
    ensures { IfOk result (λ ask. ask_of ask ≡ ask_given params.now BacklinksModule) }
{
    let listing = listing_given(alloc, params, Module::Backlinks)?;
    Ok(Ask::Backlinks(listing))
}

pub fn embedded_given(alloc: Global, params: &Params) -> Result<Ask, Memory>
    ensures { IfOk result (λ ask. ask_of ask ≡ ask_given params.now EmbeddedInModule) }
{
    let listing = listing_given(alloc, params, Module::EmbeddedIn)?;
    Ok(Ask::Embedded(listing))
}

pub fn members_given(alloc: Global, params: &Params) -> Result<Ask, Memory>
    ensures { IfOk result (λ ask. ask_of ask ≡ ask_given params.now CategoryMembersModule) }
{
    let listing = listing_given(alloc, params, Module::CategoryMembers)?;
    Ok(Ask::Members(listing))
}

pub fn changes_given(alloc: Global, params: &Params) -> Result<Ask, Memory>
    ensures { IfOk result (λ ask. ask_of ask ≡ ask_given params.now RecentChangesModule) }
{
    let listing = listing_given(alloc, params, Module::RecentChanges)?;
    Ok(Ask::Changes(listing))
}

/// The revisions that are asked for: with their texts, which just `rvprop=content` asks for, one at most (own).
pub fn revisions_given(alloc: Global, params: &Params) -> Result<Ask, Memory>
    ensures { IfOk result (λ ask. ask_of ask ≡ ask_given params.now RevisionsModule) }
{
    let mut listing = listing_given(alloc, params, Module::Revisions)?;
    let content = has_value(params, "rvprop", "content");
    if content {
        listing.limit = 1;
    }
    Ok(Ask::Revisions(listing, content))
}
