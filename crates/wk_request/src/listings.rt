//! Listings, and what parts of them are asked for.
ghost use Rattle.std.specs.Prelude.{◌≡◌, option_and_then, IfOk, unwrap_or};
ghost use Rattle.wk_request_rules.specs.Modules.{limit_parameter};
ghost use Rattle.wk_request_rules.specs.Reading.{default_limit, limit_value, listing_given, value_given};
ghost use Rattle.wk_request.specs.Asked.{listing_of};

use crate::flags::value_given;
use crate::numbers::{DEFAULT_LIMIT, limit_value, number_of};
use crate::pages::title_given;
use crate::parameters::{continue_parameter, limit_parameter};
use std::alloc::Global;
use wk_form::Params;
use wk_memory::Memory;
use wk_request_rules::Module;

/// Which entries of a list are asked for.
#[derive(Drop)]
pub struct Listing {
    /// The title whose entries are listed, as it was written; empty for the changes of all pages.
    pub title: String,
    /// At most so many entries, from 1 to 500; 10 where no limit is given (own).
    pub limit: usize,
    /// Where the listing before this one ended, as its reply says; `None` where the listing begins.
    pub from: Option<u64>,
}

/// The most entries that a module is asked for.
fn limit_given(params: &Params, kind: Module) -> usize
    ensures { result ≡ unwrap_or (option_and_then limit_value (value_given (limit_parameter kind) params.now)) default_limit }
{
    match value_given(params, limit_parameter(kind)) {
        Some(value) => limit_value(value).unwrap_or(DEFAULT_LIMIT),
        None => DEFAULT_LIMIT,
    }
}

/// The entries that a module is asked for.
pub fn listing_given(alloc: Global, params: &Params, kind: Module) -> Result<Listing, Memory>
    ensures { IfOk result (λ listing. listing_of listing ≡ listing_given params.now kind) }
{
    Ok(Listing {
        title: title_given(alloc, params, kind)?,
        limit: limit_given(params, kind),
        from: number_of(value_given(params, continue_parameter(kind))),
    })
}
