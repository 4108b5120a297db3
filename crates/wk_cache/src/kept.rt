//! An entry of a cache.
ghost use Rattle.std.specs.Prelude.{◌≡◌, IfOk};

use wk_expand::SharedDraft;
use wk_memory::Memory;

/// What a cache keeps of a page (own).
#[derive(Drop)]
pub struct Kept {
    /// What the page expands to.
    pub draft: SharedDraft,
    /// The point at which it is so.
    pub point: u64,
    /// How often it was served since it was checked.
    pub uses: u8,
    /// The number of the draft's page, 0 where it was missing.
    pub id: u32,
}

impl Kept {
    /// The same entry for a further owner, which std's shared pointers may refuse. The draft isn't copied.
    pub fn share(&self) -> Result<Kept, Memory>
        ensures { IfOk result (λ kept. kept ≡ self.now) }
    {
        let draft = self.draft.share()?;
        Ok(Kept {
            draft,
            point: self.point,
            uses: self.uses,
            id: self.id,
        })
    }
}
