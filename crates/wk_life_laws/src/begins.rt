//! How what a wiki keeps begins.
ghost use Rattle.std.specs.Prelude.{◌≡◌, Bool};
ghost use Rattle.wk_page_rules.specs.Verdict.{MostHeld};
ghost use Rattle.wk_table_rules.specs.Rows.{StoreTables};
ghost use Rattle.wk_table_rules.specs.GoodStore.{IsGood};
ghost use Rattle.wk_wiki_rules.specs.States.{State, no_state};
ghost use Rattle.wk_wiki_rules.specs.Lives.{opened, reopened};
ghost use Rattle.wk_wiki_laws.specs.Kept.{IsKept};
ghost use Rattle.wk_wiki_laws.specs.Reached.{IsWithinFull};
ghost use Rattle.wk_wiki_rules.specs.Room.{tickets_out};
ghost use Rattle.wk_life_laws.specs.Lives.{Life, IsLife};
ghost use Rattle.wk_life_laws.specs.Next.{Begins, begun, new_start};

/// A wiki begins in a state of good form in which no ticket is out: so over an empty wiki, over good tables, and behind a
/// restart. It then has that state as its start, no event, and no seal.
pub fn a_life_begins()
    ensures kept { (state : State) (limits : MostHeld) (whole : Bool)
        → IsWithinFull limits → IsKept state → tickets_out state ≡ 0
        → Begins (begun state limits whole) (new_start state limits whole) }
    ensures empty { (limits : MostHeld) (whole : Bool)
        → IsWithinFull limits → Begins (begun no_state limits whole) (new_start no_state limits whole) }
    ensures opened { (tables : StoreTables) (limits : MostHeld) (whole : Bool)
        → IsWithinFull limits → IsGood tables
        → Begins (begun (opened tables) limits whole) (new_start (opened tables) limits whole) }
    ensures reopened { (state : State) (limits : MostHeld) (whole : Bool)
        → IsWithinFull limits → IsKept state
        → Begins (begun (reopened state) limits whole) (new_start (reopened state) limits whole) }
    ensures renewed { (life : Life)
        → IsLife life → Begins (begun (reopened life.state) life.limits life.whole) (new_start (reopened life.state) life.limits life.whole) }
{}
