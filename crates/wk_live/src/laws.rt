//! Laws of tickets and of reads that aren't current.
ghost use Rattle.std.specs.Prelude.{◌≡◌, ℕ, List, map, Some, true};
ghost use Rattle.wk_view_rules.specs.Worlds.{Read, World};
ghost use Rattle.wk_wiki_rules.specs.Jobs.{JobLists, has_claimed, page_held_by};
ghost use Rattle.wk_wiki_rules.specs.Staleness.{first_stale};
ghost use Rattle.wk_expand.specs.Drafts.{with_mark};
ghost use Rattle.wk_live.specs.Stale.{first_stale_mark};

/// The page whose job a ticket claims has a job that is claimed.
pub fn a_held_page_is_claimed()
    ensures { (lists : JobLists) (ticket page : ℕ) → page_held_by lists ticket ≡ Some page → has_claimed lists page ≡ true }
{}

/// Of the reads of a draft, by their marks, the first that isn't current is that of the rules.
pub fn stale_reads_are_those_of_the_rules()
    ensures { (pages : World) (reads : List Read) → first_stale_mark pages (map with_mark reads) ≡ first_stale pages reads }
{}
