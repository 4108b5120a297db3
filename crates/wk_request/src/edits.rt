//! What an edit or a deletion asks.
ghost use Rattle.std.specs.Prelude.{◌≡◌, IfOk};
ghost use Rattle.wk_request_rules.specs.Reading.{ask_given};
ghost use Rattle.wk_request_rules.specs.declared.Module.TheVariants.{Edit as EditModule, Delete as DeleteModule};
ghost use Rattle.wk_request.specs.Asked.{ask_of};

use crate::flags::is_given;
use crate::numbers::number_given;
use crate::pages::{text_given, title_given};
use crate::request::Ask;
use std::alloc::Global;
use wk_form::Params;
use wk_memory::Memory;
use wk_request_rules::Module;
use wk_revs::Edit;

/// What an edit asks: its flags are set where they are there, whatever their values are (own).
pub fn edit_given(alloc: Global, params: &Params) -> Result<Ask, Memory>
    ensures { IfOk result (λ ask. ask_of ask ≡ ask_given params.now EditModule) }
{
    Ok(Ask::Edit(Edit {
        title: title_given(alloc, params, Module::Edit)?,
        body: Some(text_given(alloc, params)?),
        base: number_given(params, "baserevid"),
        create_only: is_given(params, "createonly"),
        no_create: is_given(params, "nocreate"),
    }))
}

/// What a deletion asks.
pub fn delete_given(alloc: Global, params: &Params) -> Result<Ask, Memory>
    ensures { IfOk result (λ ask. ask_of ask ≡ ask_given params.now DeleteModule) }
{
    Ok(Ask::Delete {
        title: title_given(alloc, params, Module::Delete)?,
        base: number_given(params, "baserevid"),
    })
}
