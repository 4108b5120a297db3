//! What a wiki keeps of a text, what a save does, and when it is refused.
ghost use Rattle.std.specs.Prelude.{◌≡◌, codes, ◌∷◌, [], Some, None, true, false};
ghost use Rattle.wk_page_rules.specs.Kept.{kept};
ghost use Rattle.wk_page_rules.specs.History.{saved};
ghost use Rattle.wk_page_rules.specs.Verdict.{verdict, refuse, no_change, accept, edit_conflict, missing_title, article_exists, wiki_full, journal_full, invalid_title};
ghost use Rattle.wk_page_rules.specs.declared.Limit.TheVariants.{Pages, Revisions, Text};
ghost use Rattle.wk_examples.specs.Saves.{page_a, page_b, deleted_b, events};

/// Line ends become newlines, and the end is trimmed.
pub fn kept_texts()
    ensures line_ends { kept (codes "a\r\r\nb\rc \t\n\r ") ≡ codes "a\n\nb\nc" }
    ensures blank { kept (codes " \r\n") ≡ [] }
{}

/// Revisions and pages after saves, a deletion, and a save of the page that is missing then.
pub fn saves()
    ensures deleted { deleted_b ≡ record { revisions = record { page = 1; parent = 0; moment = 5; text = Some (codes "1") } ∷ record { page = 1; parent = 1; moment = 6; text = Some (codes "2") } ∷ record { page = 2; parent = 0; moment = 7; text = Some (codes "b") } ∷ record { page = 2; parent = 3; moment = 8; text = None } ∷ []; pages = record { title = page_a; current = 2 } ∷ record { title = page_b; current = 0 } ∷ [] } }
    ensures saved_again { saved deleted_b page_b (Some (codes "c")) 9 ≡ record { revisions = record { page = 1; parent = 0; moment = 5; text = Some (codes "1") } ∷ record { page = 1; parent = 1; moment = 6; text = Some (codes "2") } ∷ record { page = 2; parent = 0; moment = 7; text = Some (codes "b") } ∷ record { page = 2; parent = 3; moment = 8; text = None } ∷ record { page = 2; parent = 0; moment = 9; text = Some (codes "c") } ∷ []; pages = record { title = page_a; current = 2 } ∷ record { title = page_b; current = 5 } ∷ [] } }
{}

/// Each refusal, in its order, and what is accepted.
pub fn verdicts()
    ensures conflict { verdict deleted_b (record { pages = 9; revisions = 9; text = 9; journal = 9 }) (events 4) (record { title = codes "a"; body = (Some (codes "2")); base = Some 1; create_only = false; no_create = false }) ≡ refuse (edit_conflict 2) }
    ensures same_text { verdict deleted_b (record { pages = 9; revisions = 9; text = 9; journal = 9 }) (events 9) (record { title = codes "a"; body = (Some (codes "2\r\n")); base = None; create_only = false; no_create = false }) ≡ no_change page_a }
    ensures base_of_a_missing_page { verdict deleted_b (record { pages = 9; revisions = 9; text = 9; journal = 9 }) (events 4) (record { title = codes "b"; body = (Some (codes "x")); base = Some 0; create_only = false; no_create = false }) ≡ accept page_b (Some (codes "x")) }
    ensures old_base_of_a_missing_page { verdict deleted_b (record { pages = 9; revisions = 9; text = 9; journal = 9 }) (events 4) (record { title = codes "b"; body = (Some (codes "x")); base = Some 4; create_only = false; no_create = false }) ≡ refuse (edit_conflict 0) }
    ensures deletion { verdict deleted_b (record { pages = 9; revisions = 9; text = 9; journal = 9 }) (events 4) (record { title = codes "a"; body = None; base = Some 2; create_only = false; no_create = false }) ≡ accept page_a None }
    ensures deletion_of_a_missing_page { verdict deleted_b (record { pages = 9; revisions = 9; text = 9; journal = 9 }) (events 4) (record { title = codes "b"; body = None; base = Some 7; create_only = false; no_create = false }) ≡ refuse missing_title }
    ensures create_only { verdict deleted_b (record { pages = 9; revisions = 9; text = 9; journal = 9 }) (events 4) (record { title = codes "a"; body = (Some (codes "2")); base = Some 1; create_only = true; no_create = false }) ≡ refuse article_exists }
    ensures no_create { verdict deleted_b (record { pages = 9; revisions = 9; text = 9; journal = 9 }) (events 4) (record { title = codes "c"; body = (Some (codes "2")); base = Some 1; create_only = true; no_create = true }) ≡ refuse missing_title }
    ensures too_many_pages { verdict deleted_b (record { pages = 2; revisions = 4; text = 0; journal = 4 }) (events 4) (record { title = codes "c"; body = (Some (codes "x")); base = None; create_only = false; no_create = false }) ≡ refuse (wiki_full Pages) }
    ensures known_page { verdict deleted_b (record { pages = 2; revisions = 5; text = 4; journal = 9 }) (events 4) (record { title = codes "b"; body = (Some (codes "x")); base = None; create_only = false; no_create = false }) ≡ accept page_b (Some (codes "x")) }
    ensures too_many_revisions { verdict deleted_b (record { pages = 2; revisions = 4; text = 0; journal = 4 }) (events 4) (record { title = codes "b"; body = (Some (codes "x")); base = None; create_only = false; no_create = false }) ≡ refuse (wiki_full Revisions) }
    ensures too_much_text { verdict deleted_b (record { pages = 2; revisions = 5; text = 3; journal = 4 }) (events 4) (record { title = codes "b"; body = (Some (codes "x")); base = None; create_only = false; no_create = false }) ≡ refuse (wiki_full Text) }
    ensures room_for_one { verdict deleted_b (record { pages = 9; revisions = 9; text = 9; journal = 9 }) (record (events 6) { tickets = 2; next_job = 4611686018427387904 }) (record { title = codes "b"; body = (Some (codes "x")); base = None; create_only = false; no_create = false }) ≡ accept page_b (Some (codes "x")) }
    ensures journal_full { verdict deleted_b (record { pages = 9; revisions = 9; text = 9; journal = 9 }) (record (events 7) { tickets = 2 }) (record { title = codes "b"; body = (Some (codes "x")); base = None; create_only = false; no_create = false }) ≡ refuse journal_full }
    ensures job_numbers_used_up { verdict deleted_b (record { pages = 9; revisions = 9; text = 9; journal = 9 }) (record (events 4) { next_job = 4611686018427387905 }) (record { title = codes "b"; body = (Some (codes "x")); base = None; create_only = false; no_create = false }) ≡ refuse journal_full }
    ensures virtual_namespace { verdict deleted_b (record { pages = 9; revisions = 9; text = 9; journal = 9 }) (events 9) (record { title = codes "Special:a"; body = (Some (codes "x")); base = None; create_only = false; no_create = false }) ≡ refuse invalid_title }
{}
