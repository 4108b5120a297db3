//! Titles and texts of parameters, and what is asked of a page's or a text's expansion.
ghost use Rattle.std.specs.Prelude.{◌≡◌, codes, IfOk, string_bytes, unwrap_or};
ghost use Rattle.wk_form.specs.Parameters.{first_value};
ghost use Rattle.wk_request_rules.specs.Reading.{ask_given, text_given, title_given};
ghost use Rattle.wk_request_rules.specs.declared.Module.TheVariants.{Parse as ParseModule, ExpandTemplates as ExpandModule};
ghost use Rattle.wk_request.specs.Asked.{ask_of};

use crate::flags::value_given;
use crate::parameters::title_parameter;
use crate::request::Ask;
use std::alloc::Global;
use wk_form::Params;
use wk_memory::Memory;
use wk_request_rules::Module;

/// The title that a module is given, empty where it has none.
pub fn title_given(alloc: Global, params: &Params, kind: Module) -> Result<String, Memory>
    ensures { IfOk result (λ title. string_bytes title ≡ title_given params.now kind) }
{
    let title = value_given(params, title_parameter(kind)).unwrap_or("");
    Ok(String::from_str(alloc, title)?)
}

/// The text that is given, empty where there is none.
pub fn text_given(alloc: Global, params: &Params) -> Result<String, Memory>
    ensures { IfOk result (λ text. string_bytes text ≡ text_given params.now) }
{
    Ok(String::from_str(alloc, params.get("text").unwrap_or(""))?)
}

/// What a request asks that names a page whose expansion is wanted.
pub fn parse_given(alloc: Global, params: &Params) -> Result<Ask, Memory>
    ensures { IfOk result (λ ask. ask_of ask ≡ ask_given params.now ParseModule) }
{
    let page = title_given(alloc, params, Module::Parse)?;
    Ok(Ask::Parse { page })
}

/// The title in whose place a text is expanded: `API` where none is given.
fn place_given(alloc: Global, params: &Params) -> Result<String, Memory>
    ensures { IfOk result (λ title. string_bytes title ≡ unwrap_or (first_value (codes "title") params.now) (codes "API")) }
{
    Ok(String::from_str(alloc, params.get("title").unwrap_or("API"))?)
}

/// What a request asks that gives a text whose expansion is wanted.
pub fn expand_given(alloc: Global, params: &Params) -> Result<Ask, Memory>
    ensures { IfOk result (λ ask. ask_of ask ≡ ask_given params.now ExpandModule) }
{
    Ok(Ask::Expand {
        text: text_given(alloc, params)?,
        title: place_given(alloc, params)?,
    })
}
