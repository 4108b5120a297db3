//! Which module parameters call (MediaWiki's API:Main page and API:Query).
ghost use Rattle.std.specs.Prelude.{◌≡◌, bytes_eq, codes, find, option_map};
ghost use Rattle.wk_request_rules.specs.Modules.{actions, query_lists, query_metas, query_module, query_props, module_called, named_in};
ghost use Rattle.wk_request.specs.Called.{called};

use crate::flags::has_value;
use wk_form::Params;
use wk_request_rules::Module;

/// The action with this name, but for `query`, whose modules have names of their own.
fn action_named(name: &str) -> Option<Module>
    ensures { result ≡ option_map (λ entry. entry.1) (find (λ entry. bytes_eq entry.0 name.now) actions) }
{
    match name {
        "edit" => Some(Module::Edit),
        "delete" => Some(Module::Delete),
        "parse" => Some(Module::Parse),
        "expandtemplates" => Some(Module::ExpandTemplates),
        _ => None,
    }
}

fn list_named(name: &str) -> Option<Module>
    ensures { result ≡ option_map (λ entry. entry.1) (find (λ entry. bytes_eq entry.0 name.now) query_lists) }
{
    match name {
        "backlinks" => Some(Module::Backlinks),
        "embeddedin" => Some(Module::EmbeddedIn),
        "categorymembers" => Some(Module::CategoryMembers),
        "recentchanges" => Some(Module::RecentChanges),
        _ => None,
    }
}

fn prop_named(name: &str) -> Option<Module>
    ensures { result ≡ option_map (λ entry. entry.1) (find (λ entry. bytes_eq entry.0 name.now) query_props) }
{
    match name {
        "revisions" => Some(Module::Revisions),
        _ => None,
    }
}

fn meta_named(name: &str) -> Option<Module>
    ensures { result ≡ option_map (λ entry. entry.1) (find (λ entry. bytes_eq entry.0 name.now) query_metas) }
{
    match name {
        "tokens" => Some(Module::Tokens),
        "siteinfo" => Some(Module::SiteInfo),
        _ => None,
    }
}

/// The action that the parameters name, or the parameter that names none.
fn action_called(params: &Params) -> Result<Module, &'static str>
    ensures { called result ≡ named_in actions (codes "action") params.now }
{
    match params.get("action") {
        Some(name) => action_named(name).ok_or("action"),
        None => Err("action"),
    }
}

/// The module of a query that the parameters name, or the parameter that names none. It is that of the first of `list`,
/// `prop` and `meta` that is there; with none of them `list` names none (own).
fn query_called(params: &Params) -> Result<Module, &'static str>
    ensures { called result ≡ query_module params.now }
{
    if let Some(name) = params.get("list") {
        return list_named(name).ok_or("list");
    }
    if let Some(name) = params.get("prop") {
        return prop_named(name).ok_or("prop");
    }
    match params.get("meta") {
        Some(name) => meta_named(name).ok_or("meta"),
        None => Err("list"),
    }
}

/// The module that the parameters call, or the parameter that names none.
pub fn module_called(params: &Params) -> Result<Module, &'static str>
    ensures { called result ≡ module_called params.now }
{
    if has_value(params, "action", "query") {
        query_called(params)
    } else {
        action_called(params)
    }
}
