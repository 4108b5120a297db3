//! The parameters that each module takes (the page of each module of MediaWiki's API; which there are is own).
ghost use Rattle.std.specs.Prelude.{◌≡◌, option_copied};
ghost use Rattle.wk_request_rules.specs.Modules.{base_parameter, continue_parameter, limit_parameter, needs_text, saves, title_parameter};

use wk_request_rules::Module;

/// Whether it saves a page: it must be posted, with a token, and may name the revision that the editor began with.
pub fn saves(kind: Module) -> bool
    ensures { result ≡ saves kind }
{
    matches!(kind, Module::Edit | Module::Delete)
}

/// Whether it must have a text.
pub fn needs_text(kind: Module) -> bool
    ensures { result ≡ needs_text kind }
{
    matches!(kind, Module::Edit | Module::ExpandTemplates)
}

/// The parameter with the title that it must have.
pub fn title_parameter(kind: Module) -> Option<&'static str>
    ensures { option_copied result ≡ title_parameter kind }
{
    match kind {
        Module::Edit | Module::Delete => Some("title"),
        Module::Parse => Some("page"),
        Module::Backlinks => Some("bltitle"),
        Module::EmbeddedIn => Some("eititle"),
        Module::CategoryMembers => Some("cmtitle"),
        Module::Revisions => Some("titles"),
        Module::ExpandTemplates | Module::RecentChanges | Module::Tokens | Module::SiteInfo => None,
    }
}

/// The parameter with the revision that the editor began with.
pub fn base_parameter(kind: Module) -> Option<&'static str>
    ensures { option_copied result ≡ base_parameter kind }
{
    if saves(kind) { Some("baserevid") } else { None }
}

/// The parameter with the most entries that are listed.
pub fn limit_parameter(kind: Module) -> Option<&'static str>
    ensures { option_copied result ≡ limit_parameter kind }
{
    match kind {
        Module::Backlinks => Some("bllimit"),
        Module::EmbeddedIn => Some("eilimit"),
        Module::CategoryMembers => Some("cmlimit"),
        Module::RecentChanges => Some("rclimit"),
        Module::Revisions => Some("rvlimit"),
        _ => None,
    }
}

/// The parameter that says where the listing goes on.
pub fn continue_parameter(kind: Module) -> Option<&'static str>
    ensures { option_copied result ≡ continue_parameter kind }
{
    match kind {
        Module::Backlinks => Some("blcontinue"),
        Module::EmbeddedIn => Some("eicontinue"),
        Module::CategoryMembers => Some("cmcontinue"),
        Module::RecentChanges => Some("rccontinue"),
        Module::Revisions => Some("rvcontinue"),
        _ => None,
    }
}
