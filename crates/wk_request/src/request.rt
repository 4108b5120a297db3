//! Requests, as parameters ask them.
ghost use Rattle.std.specs.Prelude.{◌≡◌, IfOk, IfErr, unwrap_or, codes, option_copied};
ghost use Rattle.wk_request_rules.specs.Reading.{ask_given, number_given, request_of, requested, subst_given};
ghost use Rattle.wk_request_rules.specs.Requests.{text_to_transform, valid};
ghost use Rattle.wk_revs.specs.Edit.{edit_asked};
ghost use Rattle.wk_request.specs.Asked.{ask_of, request_asked};
ghost use Rattle.wk_request.specs.Refusals.{Refuses};

use crate::checks::checked;
use crate::edits::{delete_given, edit_given};
use crate::flags::is_given;
use crate::listings::Listing;
use crate::numbers::number_given;
use crate::pages::{expand_given, parse_given};
use crate::queries::{
    backlinks_given, changes_given, embedded_given, members_given, revisions_given,
};
use crate::refusal::RequestRefusal;
use std::alloc::Global;
use wk_form::Params;
use wk_memory::Memory;
use wk_request_rules::Module;
use wk_revs::Edit;

/// What a request asks. Titles are as they were written.
#[derive(Drop)]
pub enum Ask {
    /// A save of a page.
    Edit(Edit),
    /// A deletion of a page.
    Delete {
        /// The page's title.
        title: String,
        /// The revision that the editor began with.
        base: Option<u64>,
    },
    /// What a page expands to, and its links.
    Parse {
        /// The page's title.
        page: String,
    },
    /// What a text expands to.
    Expand {
        /// The text.
        text: String,
        /// The title of the page in whose place it stands, `API` where none is given.
        title: String,
    },
    /// The pages that link to a title.
    Backlinks(Listing),
    /// The pages that include a title.
    Embedded(Listing),
    /// The members of a category.
    Members(Listing),
    /// The revisions of all pages.
    Changes(Listing),
    /// The revisions of a page, and whether the text of each is asked for; then the limit is 1.
    Revisions(Listing, bool),
    /// The token with which a page is saved.
    Tokens,
    /// The namespaces, and how much the wiki holds.
    SiteInfo,
}

/// A request of the API.
#[derive(Drop)]
pub struct Request {
    /// The answer is given at this point of the journal or later; 0 where no least point is given.
    pub least: u64,
    /// What is asked.
    pub ask: Ask,
    /// Whether the text of an edit is transformed before it is judged (MediaWiki's Help:Substitution); nothing else heeds it.
    pub subst: bool,
}

fn ask_given(alloc: Global, params: &Params, kind: Module) -> Result<Ask, Memory>
    ensures { IfOk result (λ ask. ask_of ask ≡ ask_given params.now kind) }
{
    match kind {
        Module::Edit => edit_given(alloc, params),
        Module::Delete => delete_given(alloc, params),
        Module::Parse => parse_given(alloc, params),
        Module::ExpandTemplates => expand_given(alloc, params),
        Module::Backlinks => backlinks_given(alloc, params),
        Module::EmbeddedIn => embedded_given(alloc, params),
        Module::CategoryMembers => members_given(alloc, params),
        Module::RecentChanges => changes_given(alloc, params),
        Module::Revisions => revisions_given(alloc, params),
        Module::Tokens => Ok(Ask::Tokens),
        Module::SiteInfo => Ok(Ask::SiteInfo),
    }
}

/// Whether an edit's text is to be transformed: a flag of edits alone, whatever its value is (own).
fn subst_given(params: &Params, kind: Module) -> bool
    ensures { result ≡ subst_given params.now kind }
{
    match kind {
        Module::Edit => is_given(params, "subst"),
        _ => false,
    }
}

/// The text of an edit, if it has one.
fn body_of(edit: &Edit) -> Option<&str>
    ensures { option_copied result ≡ (edit_asked edit.now).body }
{
    match &edit.body {
        Some(body) => Some(body.as_str()),
        None => None,
    }
}

/// The least point that is given, 0 without one.
fn least_given(params: &Params) -> u64
    ensures { result ≡ unwrap_or (number_given (codes "minpoint") params.now) 0 }
{
    number_given(params, "minpoint").unwrap_or(0)
}

impl Request {
    /// What the parameters ask of the API, where `posted` says that the request was posted (MediaWiki's API:Main page
    /// and the page of each module; the checks, their order and the limits are own). Parameters that no module has
    /// are ignored.
    ///
    /// `Refused` comes exactly where the rules refuse the parameters, with the first refusal in their order. `Memory`
    /// may come at any parameters.
    pub fn read(alloc: Global, params: &Params, posted: bool) -> Result<Request, RequestRefusal>
        ensures ok { IfOk result (λ request. request_of params.now posted ≡ valid (request_asked request)) }
        ensures err { IfErr result (λ refusal. Refuses (request_of params.now posted) refusal) }
    {
        let kind = match checked(params, posted) {
            Ok(kind) => kind,
            Err(refusal) => return Err(refusal.told()),
        };
        let ask = ask_given(alloc, params, kind)?;
        Ok(Request {
            least: least_given(params),
            ask,
            subst: subst_given(params, kind),
        })
    }

    /// What a query, which stands without its question mark, and a body ask of the API, posted or not, as `read` tells
    /// of their parameters.
    ///
    /// `Refused` comes exactly where the rules refuse the parameters, with the first refusal in their order. `Memory`
    /// may come at any query and body.
    pub fn of(
        alloc: Global,
        query: &[u8],
        body: &[u8],
        posted: bool,
    ) -> Result<Request, RequestRefusal>
        ensures ok { IfOk result (λ request. requested query.now body.now posted ≡ valid (request_asked request)) }
        ensures err { IfErr result (λ refusal. Refuses (requested query.now body.now posted) refusal) }
    {
        match Params::read(alloc, query, body) {
            Ok(params) => Request::read(alloc, &params, posted),
            Err(Memory) => Err(RequestRefusal::Memory),
        }
    }

    /// The text that is to be transformed before the save (MediaWiki's Help:Substitution): that of an edit that asks for
    /// it, else none. Takes no memory.
    pub fn text_to_transform(&self) -> Option<&str>
        ensures { option_copied result ≡ text_to_transform (request_asked self.now) }
    {
        if !self.subst {
            return None;
        }
        match &self.ask {
            Ask::Edit(edit) => body_of(edit),
            _ => None,
        }
    }
}
