//! What each event makes of what a wiki keeps.
ghost use Rattle.std.specs.Prelude.{◌≡◌, ◌++◌, ◌∷◌, [], ℕ, ◌+◌, false, true, length, List, None, Option, Some};
ghost use Rattle.wk_text_rules.specs.Titles.{PageTitle};
ghost use Rattle.wk_page_rules.specs.History.{next_revision};
ghost use Rattle.wk_page_rules.specs.Verdict.{EditAsked, accept};
ghost use Rattle.wk_wiki_rules.specs.Jobs.{JobLists, claimed_by, first_queued, given_back, page_held_by};
ghost use Rattle.wk_wiki_rules.specs.Steps.{after_fan, fan_pages};
ghost use Rattle.wk_wiki_rules.specs.States.{State};
ghost use Rattle.wk_wiki_rules.specs.Events.{Event, Save, Claim, Done, Back, Fan, step, with_jobs, with_refreshed, with_saved};
ghost use Rattle.wk_wiki_rules.specs.Verdicts.{verdict_in};
ghost use Rattle.wk_wiki_rules.specs.Calls.{IsMade};
ghost use Rattle.wk_wiki_rules.specs.Entries.{is_save};
ghost use Rattle.wk_wiki_rules.specs.Room.{is_claim_refused, is_fan_refused};
ghost use Rattle.wk_wiki_rules.specs.declared.Entry.{Entry};
ghost use Rattle.wk_wiki_rules.specs.declared.Entry.TheVariants as entry;
ghost use Rattle.wk_life_laws.specs.Lives.{Life, IsLife, journal_of};
ghost use Rattle.wk_life_laws.specs.Next.{IsNext, with_entry, with_event};

/// Each event that a call makes goes on from what a wiki keeps: its entry comes to the entries, and the state is the next
/// one. A save comes only where the wiki isn't sealed.
pub fn an_event_goes_on()
    ensures { (life : Life) (event : Event) (next : State)
        → IsLife life → IsMade life.limits life.state (length (journal_of life)) event
        → (is_save event ≡ true → life.sealed ≡ None) → step life.state (length (journal_of life)) event ≡ Some next
        → IsNext life event (with_event life event next) }
{}

/// The same for each kind of event, by what its call has found out behind a journal of this length, and with the state that it
/// makes.
pub fn each_event_goes_on()
    ensures saved { (life : Life) (point moment : ℕ) (edit : EditAsked) (title : PageTitle) (text : Option (List ℕ))
        → IsLife life → length (journal_of life) ≡ point → life.sealed ≡ None
        → verdict_in life.limits life.state point edit ≡ accept title text
        → IsNext life (Save title text moment)
        (with_entry life (entry.Save (next_revision life.state.history)) (with_saved life.state title text moment)) }
    ensures claimed { (life : Life) (point page : ℕ)
        → IsLife life → length (journal_of life) ≡ point
        → is_claim_refused life.limits life.state point ≡ false → first_queued life.state.jobs ≡ Some page
        → IsNext life Claim (with_entry life entry.Claim (with_jobs life.state (claimed_by life.state.jobs (point + 1)))) }
    ensures done { (life : Life) (ticket page : ℕ)
        → IsLife life → page_held_by life.state.jobs ticket ≡ Some page
        → IsNext life (Done ticket) (with_entry life (entry.Done ticket) (with_refreshed life.state page)) }
    ensures given_back { (life : Life) (ticket page : ℕ)
        → IsLife life → page_held_by life.state.jobs ticket ≡ Some page
        → IsNext life (Back ticket) (with_entry life (entry.Back ticket) (with_jobs life.state (given_back life.state.jobs page))) }
    ensures fanned { (life : Life) (point : ℕ) (jobs : JobLists)
        → IsLife life → length (journal_of life) ≡ point
        → is_fan_refused life.limits life.state point ≡ false → after_fan life.state.stored fan_pages life.state.jobs ≡ Some jobs
        → IsNext life Fan (with_entry life entry.Fan (with_jobs life.state jobs)) }
{}

/// The same where the entries and the state are known to be these.
pub fn equal_parts_go_on()
    ensures { (life : Life) (event : Event) (entry : Entry) (entries : List Entry) (made state : State)
        → IsNext life event (with_entry life entry made) → entries ≡ life.entries ++ entry ∷ [] → state ≡ made
        → IsNext life event (record life { entries = entries; state = state }) }
{}
