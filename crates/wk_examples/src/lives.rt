//! A run that meets the premises of the laws of what a wiki keeps: an empty wiki, a save, a claim, and a refresh that is
//! done.
ghost use Rattle.std.specs.Prelude.{◌≡◌, ◌∷◌, [], Some};
ghost use Rattle.wk_wiki_rules.specs.Events.{Claim, Done};
ghost use Rattle.wk_life_laws.specs.Lives.{IsLife, journal_of, start_of};
ghost use Rattle.wk_life_laws.specs.Next.{Begins, IsNext, with_seal};
ghost use Rattle.wk_examples.specs.Lived.{first_save, life_0, life_1, life_2, life_3, small_start};

/// What the wiki keeps at its start and behind each event, what it tells at the end, and a seal.
pub fn a_life_of_three_events()
    ensures begun { Begins life_0 small_start }
    ensures saved { IsNext life_0 first_save life_1 }
    ensures claimed { IsNext life_1 Claim life_2 }
    ensures done { IsNext life_2 (Done 2) life_3 }
    ensures life { IsLife life_3 }
    ensures journal { journal_of life_3 ≡ first_save ∷ Claim ∷ Done 2 ∷ [] }
    ensures start { start_of life_3 ≡ small_start }
    ensures sealed { IsLife (with_seal life_3 3) }
    ensures sealed_start { start_of (with_seal life_3 3) ≡ record small_start { sealed = Some 3 } }
{}
