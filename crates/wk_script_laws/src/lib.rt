//! Laws of a script's runs over the whole wiki. Each is the contract of a function with an empty body.
#![tactic(auto)]

ghost use Rattle.std.specs.Prelude.{◌≡◌, ℕ, List, ◌++◌, Option};
ghost use Rattle.std.specs.List.{AllByRecursion};
ghost use Rattle.wk_page_rules.specs.Verdict.{MostHeld};
ghost use Rattle.wk_wiki_rules.specs.Soundness.{IsSound};
ghost use Rattle.wk_wiki_rules.specs.States.{State};
ghost use Rattle.wk_wiki_laws.specs.Kept.{IsKept};
ghost use Rattle.wk_wiki_laws.specs.Reached.{IsWithinFull};
ghost use Rattle.wk_wiki_laws.specs.WellFormed.{IsWellFormed};
ghost use Rattle.wk_wiki_rules.specs.Room.{tickets_out};
ghost use Rattle.wk_answer_rules.specs.Values.{ApiReply};
ghost use Rattle.wk_script_rules.specs.WikiScripts.{WikiScript, all_given_back, script_from};
ghost use Rattle.wk_script_rules.specs.Runs.{HasNoFailure, WikiScriptRun, script_answers, wiki_script_replies};
ghost use Rattle.wk_script_laws.specs.Lives.{IsLife};

/// A run goes on: one over some lines, and one over more lines from where it ended, are a run over all of them.
pub fn wiki_script_runs_join()
    ensures { (most : MostHeld) (s t u : WikiScript) (lines more_lines : List (Option (List ℕ))) (moments more_moments : List ℕ) (replies more_replies : List ApiReply)
        → WikiScriptRun most s lines moments replies t → WikiScriptRun most t more_lines more_moments more_replies u
        → WikiScriptRun most s (lines ++ more_lines) (moments ++ more_moments) (replies ++ more_replies) u }
{}

/// Where no reply tells of want of memory or of a fault of the store, a run's replies are the stated function of its lines
/// and of the moments that it took, and so is what stands behind it.
pub fn a_run_without_failures_is_the_function()
    ensures replies { (most : MostHeld) (s t : WikiScript) (lines : List (Option (List ℕ))) (moments : List ℕ) (replies : List ApiReply)
        → WikiScriptRun most s lines moments replies t → AllByRecursion HasNoFailure replies
        → replies ≡ wiki_script_replies most s lines moments }
    ensures after { (most : MostHeld) (s t : WikiScript) (lines : List (Option (List ℕ))) (moments : List ℕ) (replies : List ApiReply)
        → WikiScriptRun most s lines moments replies t → AllByRecursion HasNoFailure replies
        → t ≡ (script_answers most s lines moments).after }
{}

/// Whatever its lines are answered, a script keeps a wiki sound and well formed, and so does the end of the input, at which
/// the tickets that are out are given back.
pub fn a_script_keeps_a_wiki_sound()
    ensures formed { (most : MostHeld) (s t : WikiScript) (lines : List (Option (List ℕ))) (moments : List ℕ) (replies : List ApiReply)
        → WikiScriptRun most s lines moments replies t → IsWellFormed s.state → IsSound s.state → IsWellFormed t.state }
    ensures sound { (most : MostHeld) (s t : WikiScript) (lines : List (Option (List ℕ))) (moments : List ℕ) (replies : List ApiReply)
        → WikiScriptRun most s lines moments replies t → IsWellFormed s.state → IsSound s.state → IsSound t.state }
    ensures ended { (s : WikiScript) → IsWellFormed s.state → IsSound s.state → IsSound (all_given_back s).state }
{}

/// What a script's lines make is what calls make, whatever they are answered: each event is possible in its state, the state
/// is what the life's journal gives from its start, the room that calls leave is kept, and each ticket that has a draft is
/// out. So it is at the end of the input too.
pub fn a_script_is_what_calls_make()
    ensures begun { (most : MostHeld) (state : State) → IsKept state → tickets_out state ≡ 0 → IsLife most (script_from state) }
    ensures run { (most : MostHeld) (s t : WikiScript) (lines : List (Option (List ℕ))) (moments : List ℕ) (replies : List ApiReply)
        → IsWithinFull most → WikiScriptRun most s lines moments replies t → IsLife most s → IsLife most t }
    ensures ended { (most : MostHeld) (s : WikiScript) → IsWithinFull most → IsLife most s → IsLife most (all_given_back s) }
{}
