//! What the lines of a script do to a wiki, the clock and the output, and what follows where lines come behind others.
#![tactic(auto)]

ghost use Rattle.std.specs.Prelude.{◌≡◌, ℕ, List, Option, true};
ghost use Rattle.wk_page_rules.specs.Verdict.{MostHeld};
ghost use Rattle.wk_answer_rules.specs.Values.{ApiReply};
ghost use Rattle.wk_script_rules.specs.WikiScripts.{WikiScript};
ghost use Rattle.wk_script_rules.specs.Runs.{WikiScriptRun};
ghost use Rattle.wk_script_runs.specs.Lives.{Lives};

/// Where a keeper tells its tables, what a script does over the lives of its wiki is one run of the rules.
pub fn told_lives_are_one_run()
    ensures { (most : MostHeld) (s t : WikiScript) (lines : List (Option (List ℕ))) (moments : List ℕ) (replies : List ApiReply)
        → Lives true most s lines moments replies t → WikiScriptRun most s lines moments replies t }
{}
