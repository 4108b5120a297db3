//! What stands of a title before it is saved.
ghost use Rattle.std.specs.Prelude.{◌≡◌, ◌==◌, not};
ghost use Rattle.wk_wiki_rules.specs.Steps.{reach_of_save};

use wk_page_rules::Reach;

/// What stands of a title, and what a save of it makes.
#[derive(Clone, Copy)]
pub struct Standing {
    /// The number of the title's page, `None` exactly where no save of the title was ever made.
    pub page: Option<u32>,
    /// The number that the page has, or would get by a save.
    pub to_save: u32,
    /// The page's current revision, 0 where the page is missing: the parent of a revision that is saved now.
    pub current: u64,
    /// The number that a revision gets that is saved now: one more than there are.
    pub next: u64,
}

impl Standing {
    /// Which pages a save reaches, where the page exists behind it or doesn't: those that test whether it exists among
    /// them exactly where that changes. Takes no memory.
    pub fn reach(&self, exists: bool) -> Reach
        ensures { result ≡ reach_of_save (not (self.now.current == 0)) exists }
    {
        let existed = self.current != 0;
        if existed == exists {
            Reach::Text
        } else {
            Reach::Both
        }
    }
}
