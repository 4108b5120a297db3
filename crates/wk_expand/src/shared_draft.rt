//! Drafts that are shared.
ghost use Rattle.std.specs.Prelude.{◌≡◌, IfOk, IfErr};

use crate::drafts::Draft;
use std::alloc::Global;
use std::marker::Model;
use std::sync::Arc;
use wk_memory::Memory;

/// A draft that is shared and doesn't change (own). Contracts see the draft.
///
/// It may be sent to other threads and shared between them, and a further owner copies nothing of it.
#[derive(Drop)]
pub struct SharedDraft {
    draft: Arc<Draft>,
}

impl Model for SharedDraft {
    ghost use Rattle.std.specs.Arc.{arc_value};
    ghost use Rattle.wk_expand.specs.Drafts.{DraftShown};

    ghost Value = { DraftShown };

    ghost view = { λ s. arc_value s.draft };
}

impl SharedDraft {
    /// Shares a draft, in memory of its own. Where memory runs out the draft is handed back.
    pub fn new(alloc: Global, draft: Draft) -> Result<SharedDraft, (Draft, Memory)>
        ensures ok { IfOk result (λ shared. shared ≡ draft) }
        ensures err { IfErr result (λ refused. refused.0 ≡ draft) }
    {
        match Arc::new(alloc, draft) {
            Ok(draft) => Ok(SharedDraft { draft }),
            Err(refused) => Err((refused.value, Memory)),
        }
    }

    /// The draft itself. Takes no memory.
    pub fn draft(&self) -> &Draft
        ensures { result.now ≡ self.now }
    {
        &self.draft
    }

    /// The same draft for a further owner, of which std's shared pointer may refuse one.
    pub fn share(&self) -> Result<SharedDraft, Memory>
        ensures { IfOk result (λ shared. shared ≡ self.now) }
    {
        let draft = self.draft.clone()?;
        Ok(SharedDraft { draft })
    }
}
