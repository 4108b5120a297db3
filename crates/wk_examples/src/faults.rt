//! A script whose store fails once.
ghost use Rattle.std.specs.Prelude.{◌≡◌, codes, ◌∷◌, [], Some};
ghost use Rattle.wk_page_rules.specs.Verdict.{full_limits};
ghost use Rattle.wk_script_rules.specs.Runs.{HasNoFailure, WikiScriptRun, replies_text};
ghost use Rattle.std.specs.List.{AllByRecursion};
ghost use Rattle.std.specs.Option.{option_to_list};
ghost use Rattle.wk_script_laws.specs.Lives.{IsLife};
ghost use Rattle.wk_examples.specs.Scripts.{nothing_saved, save_a, save_b, first_saved, faulty_replies, faulty_end};

/// The second save meets a fault of the store, and is made when it is asked for again.
pub fn a_store_that_fails_once()
    ensures run { WikiScriptRun full_limits nothing_saved (Some save_a ∷ Some save_b ∷ Some save_b ∷ []) (0 ∷ 0 ∷ 0 ∷ []) faulty_replies faulty_end }
    ensures told { replies_text faulty_replies ≡ codes "{\"edit\":{\"new\":true,\"newrevid\":1,\"oldrevid\":0,\"pageid\":1,\"result\":\"Success\",\"title\":\"A\"},\"point\":1}\n{\"error\":{\"code\":\"storefault\",\"info\":\"The store failed.\"},\"point\":1}\n{\"edit\":{\"new\":true,\"newrevid\":2,\"oldrevid\":0,\"pageid\":2,\"result\":\"Success\",\"title\":\"B\"},\"point\":2}\n" }
{}

/// A reply that tells neither of want of memory nor of a fault of the store.
pub fn a_reply_without_failure()
    ensures { AllByRecursion HasNoFailure (option_to_list first_saved.reply) }
{}

/// From an empty wiki on, the script's life is what calls make, behind the fault too.
pub fn a_life_with_a_fault()
    ensures begun { IsLife full_limits nothing_saved }
    ensures ended { IsLife full_limits faulty_end }
{}
