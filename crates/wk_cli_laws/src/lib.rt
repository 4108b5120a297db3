//! Laws of how the program ends, and of the commands: why generated pages are refused, and how many jobs fans can add.
//! Each is the contract of a function with an empty body; and a run that meets what the laws of ends ask.
#![tactic(auto)]

mod examples;

ghost use Rattle.std.specs.Prelude.{◌≡◌, ℕ, Bool, true, Option, IfSome, ◌*◌, ◌≤◌, List, length, slice_get, Some};
ghost use Rattle.wk_base.specs.Faults.{Rose};
ghost use Rattle.wk_table_rules.specs.Rows.{StoreTables};
ghost use Rattle.wk_script_runs.specs.Outside.{Outside};
ghost use Rattle.wk_words.specs.Verdicts.{Wanted, runs};
ghost use Rattle.wk_cli.specs.Finished.{IsFinished, VaultTold, store_named};
ghost use Rattle.wk_cli.specs.Works.{DoorSeen};
ghost use Rattle.wk_cli.specs.declared.ends.Finish.{Finish};
ghost use Rattle.wk_cli_laws.specs.Causes.{EndsWithItsCause};
ghost use Rattle.wk_cli_laws.specs.Complete.{EndsWithoutFault, HasNoFault, HasNoFaultOutside};
ghost use Rattle.wk_cli_laws.specs.Full.{FindsNoRoom};
ghost use Rattle.wk_page_rules.specs.Verdict.{EditAsked, MostHeld, Refusal, refuse};
ghost use Rattle.wk_wiki_rules.specs.States.{State};
ghost use Rattle.wk_wiki_rules.specs.Verdicts.{verdict_in};
ghost use Rattle.wk_wiki_laws.specs.Numbers.{pages_ahead};
ghost use Rattle.wk_tool_rules.specs.Generator.{generated};
ghost use Rattle.wk_tool_rules.specs.Saving.{saves_made};
ghost use Rattle.wk_cli_laws.specs.Room.{IsForRoom};

pub use examples::a_check_of_an_empty_store;

/// With legal words, over tables that break no rule, and where no count of faults rose, of the vault, the input, the output and the
/// door, and that of the store that is handed back stands at 0, the status is 0, or 8 in `check` and `gen` alone, or 9 in `script` and
/// `replica` alone, or 10 in `jobs` and `gen` alone, or 11 in `replica` alone, or 1 for want of memory; so in `report`, and in `serve`
/// with a feed or without, it is 0 or 1. What was done by each of these ends is told by how the program finished.
pub fn a_run_without_faults_is_complete<K, L>()
    ensures { (told : K → Option StoreTables) (faults : K → ℕ) (is_whole : K → Bool) (wanted : Wanted) (vault : VaultTold) (opens later reads reads_later writes writes_later : ℕ) (door door_later : DoorSeen L) (before after : Outside) (finish : Finish K)
        → IsFinished told faults is_whole (runs wanted) vault opens later door door_later before after finish
        → (finish.status ≡ 3 → Rose reads reads_later)
        → (finish.status ≡ 4 → Rose writes writes_later)
        → HasNoFault faults (store_named vault wanted.store) opens later reads reads_later writes writes_later door door_later finish
        → EndsWithoutFault wanted.command finish.status }
{}

/// A store that the vault opens whole is handed back with its count of faults at 0, if it is handed back.
pub fn a_whole_store_comes_back_without_faults<K, L>()
    ensures { (told : K → Option StoreTables) (faults : K → ℕ) (is_whole : K → Bool) (wanted : Wanted) (vault : VaultTold) (opens later : ℕ) (door door_later : DoorSeen L) (before after : Outside) (finish : Finish K)
        → IsFinished told faults is_whole (runs wanted) vault opens later door door_later before after finish
        → vault.whole wanted.store ≡ true
        → IfSome finish.store (λ left. faults left ≡ 0) }
{}

/// At status 10 there is no room for the work: in `jobs` a job is left, and the journal takes fewer than two events, or the job numbers come
/// to their end; in `gen` a save is refused since the journal or the wiki is full, and for nothing else, or it is so with the jobs behind
/// all saves. No other command ends so. Where the vault tells the store's tables, that is so of the state that they were opened in.
pub fn a_command_without_room_has_its_cause<K, L>()
    ensures { (told : K → Option StoreTables) (faults : K → ℕ) (is_whole : K → Bool) (wanted : Wanted) (vault : VaultTold) (opens later : ℕ) (door door_later : DoorSeen L) (before after : Outside) (finish : Finish K)
        → IsFinished told faults is_whole (runs wanted) vault opens later door door_later before after finish
        → finish.status ≡ 10
        → FindsNoRoom wanted (store_named vault wanted.store) }
{}

/// Over a store that the vault opens whole, with legal words and tables that break no rule, and where no count of faults rose, of the
/// vault, the input, the output and the door, the work is done, at status 0; or pages differ, at 8, in `check` and `gen`; or memory ran
/// out, at 1; or 2^40 bytes or more were read, at 9, in `script` and `replica`; or there was no room for the work, at 10, with its cause;
/// or a line of the feed that was read is bad, or its start isn't there, at 11, in `replica`.
pub fn a_run_over_a_whole_store_is_complete<K, L>()
    ensures { (told : K → Option StoreTables) (faults : K → ℕ) (is_whole : K → Bool) (wanted : Wanted) (vault : VaultTold) (opens later reads reads_later writes writes_later : ℕ) (door door_later : DoorSeen L) (before after : Outside) (finish : Finish K)
        → IsFinished told faults is_whole (runs wanted) vault opens later door door_later before after finish
        → (finish.status ≡ 3 → Rose reads reads_later)
        → (finish.status ≡ 4 → Rose writes writes_later)
        → vault.whole wanted.store ≡ true
        → HasNoFaultOutside (store_named vault wanted.store) opens later reads reads_later writes writes_later door door_later
        → EndsWithItsCause wanted (store_named vault wanted.store) before after finish.status }
{}

/// The saves of at most 10,000 generated pages end before the last of them only where the wiki or its journal is full: each
/// title is that of a page, and each text is short.
pub fn generated_pages_are_refused_for_room_alone()
    ensures { (most : MostHeld) (state : State) (journal pages number : ℕ) (moments : List ℕ) (refusal : Refusal)
        → pages ≤ 10000
        → (saves_made most state journal (generated pages number) moments).refused ≡ Some refusal → IsForRoom refusal }
{}

/// So it is with each of them: what the rules refuse it for in any state is want of room.
pub fn a_generated_edit_is_refused_for_room_alone()
    ensures { (most : MostHeld) (state : State) (journal pages number place : ℕ) (edit : EditAsked) (refusal : Refusal)
        → pages ≤ 10000 → slice_get (generated pages number) place ≡ Some edit
        → verdict_in most state journal edit ≡ refuse refusal → IsForRoom refusal }
{}

/// All fan jobs together serve at most as many pages as there are pages, times the fan jobs. So where the number of the next
/// job, with the pages that they have still to serve, passes a bound, it does so with that product too.
pub fn fans_serve_each_page_once_at_most()
    ensures { (state : State) → pages_ahead state ≤ length state.jobs.fans * length state.history.pages }
{}
