//! Opening a wiki over a store.
ghost use Rattle.std.specs.Prelude.{◌≡◌, ◌≢◌, ◌≤◌, None, Some, false, true, is_some, IfOk, IfErr, IfSome, OnErr, OnOk};
ghost use Rattle.wk_base.specs.Faults.{Rose};
ghost use Rattle.wk_table_rules.specs.GoodStore.{IsGood, first_broken};
ghost use Rattle.wk_wiki_rules.specs.Lives.{opened, reopened};
ghost use Rattle.wk_revs.specs.Edit.{most_held};
ghost use Rattle.wk_life_laws.specs.Next.{Begins, new_start};
ghost use Rattle.wk_core.specs.Limits.{AreWithinFull};
ghost use Rattle.wk_core.specs.Loads.{HasOpened, bad_store_of};
ghost use Rattle.wk_core.specs.Seen.{IsTold};
ghost use Rattle.wk_core.specs.Steps.{KeeperGoesOn};

use crate::kept::none_kept;
use crate::life::Life;
use crate::outcomes::{LoadCause, LoadRefusal};
use crate::wiki::Wiki;
use std::alloc::Global;
use wk_changes::migration;
use wk_keeper::{Keeper, KeeperRefusal};
use wk_live::Live;
use wk_memory::Memory;
use wk_revs::Limits;
use wk_tables::{Tables, broken};

impl Life {
    /// A life that begins over these good tables.
    fn begin(alloc: Global, tables: &Tables, limits: Limits) -> Result<Life, Memory>
        requires good { IsGood tables.now.tables }
        requires within { AreWithinFull (most_held limits) }
        ensures begins { IfOk result (λ life. Begins life.life (new_start (opened tables.now.tables) (most_held limits) false)) }
        ensures state { IfOk result (λ life. life.life.state ≡ opened tables.now.tables) }
    {
        let live = Live::load(alloc, tables)?;
        let kept = live.kept()?;
        Ok(Life {
            live,
            entries: Vec::new(alloc),
            kept,
            limits,
            sealed: None,
            spare: 0,
        })
    }
}

/// Makes tables of version 1 those of version 2, in one change of the store. Others are left alone.
fn migrate<K: Keeper>(alloc: Global, keeper: &mut K, tables: &Tables) -> Result<(), KeeperRefusal>
    requires good { IsGood tables.now.tables }
    requires told { IfSome (K.told keeper.old) (λ kept. kept ≡ tables.now.tables) }
    ensures told { OnOk result (IsTold K.told (opened tables.now.tables) keeper.new) }
    ensures refused { OnErr result (K.told keeper.new ≡ K.told keeper.old) }
    ensures keeper { KeeperGoesOn K.told K.faults K.is_whole keeper.old keeper.new }
    ensures no_fault { result ≢ Err KeeperRefusal.Failed → K.faults keeper.new ≡ K.faults keeper.old }
    ensures fault { result ≡ Err KeeperRefusal.Failed → Rose (K.faults keeper.old) (K.faults keeper.new) }
{
    if tables.version() == 1 {
        let change = migration(alloc, tables)?;
        return keeper.apply(&change);
    }
    Ok(())
}

/// Opens these tables of a keeper, where they are good.
fn open_tables<K: Keeper>(
    alloc: Global,
    keeper: &mut K,
    tables: &Tables,
    limits: Limits,
) -> Result<Life, LoadCause>
    requires within { AreWithinFull (most_held limits) }
    requires given { IfSome (K.told keeper.old) (λ kept. kept ≡ tables.now.tables) }
    ensures opened { IfOk result (λ life. Begins life.life (new_start life.life.state (most_held limits) false)) }
    ensures queued { IfOk result (λ life. reopened life.life.state ≡ life.life.state) }
    ensures good { IfOk result (λ life. IsGood tables.now.tables) }
    ensures state { IfOk result (λ life. life.life.state ≡ opened tables.now.tables) }
    ensures told { IfOk result (λ life. IsTold K.told life.life.state keeper.new) }
    ensures bad { IfErr result (λ cause. IfSome (bad_store_of cause) (λ bad. first_broken tables.now.tables ≡ Some bad)) }
    ensures refused { OnErr result (K.told keeper.new ≡ K.told keeper.old) }
    ensures keeper { KeeperGoesOn K.told K.faults K.is_whole keeper.old keeper.new }
    ensures no_fault { result ≢ Err LoadCause.StoreFault → K.faults keeper.new ≡ K.faults keeper.old }
    ensures fault { result ≡ Err LoadCause.StoreFault → Rose (K.faults keeper.old) (K.faults keeper.new) }
{
    match broken(alloc, tables)? {
        Some(bad) => return Err(LoadCause::BadStore(bad)),
        None => {}
    }
    let life = Life::begin(alloc, tables, limits)?;
    match migrate(alloc, keeper, tables) {
        Ok(()) => Ok(life),
        Err(refusal) => Err(LoadCause::from(refusal)),
    }
}

/// Opens the keeper's tables.
fn open_life<K: Keeper>(alloc: Global, keeper: &mut K, limits: Limits) -> Result<Life, LoadCause>
    requires within { AreWithinFull (most_held limits) }
    ensures opened { IfOk result (λ life. Begins life.life (new_start life.life.state (most_held limits) false)) }
    ensures queued { IfOk result (λ life. reopened life.life.state ≡ life.life.state) }
    ensures state { IfOk result (λ life. IfSome (K.told keeper.old) (λ tables. (first_broken tables ≡ None) × (life.life.state ≡ opened tables))) }
    ensures told { IfOk result (λ life. IsTold K.told life.life.state keeper.new) }
    ensures bad { IfErr result (λ cause. IfSome (bad_store_of cause) (λ bad. IfSome (K.told keeper.old) (λ tables. first_broken tables ≡ Some bad))) }
    ensures refused { OnErr result (K.told keeper.new ≡ K.told keeper.old) }
    ensures keeper { KeeperGoesOn K.told K.faults K.is_whole keeper.old keeper.new }
    ensures no_fault { result ≢ Err LoadCause.StoreFault → K.faults keeper.new ≡ K.faults keeper.old }
    ensures fault { result ≡ Err LoadCause.StoreFault → Rose (K.faults keeper.old) (K.faults keeper.new) }
{
    match keeper.load() {
        Ok(tables) => open_tables(alloc, keeper, &tables, limits),
        Err(refusal) => Err(LoadCause::from(refusal)),
    }
}

impl<K: Keeper> Wiki<K> {
    /// Opens a wiki over the tables of a keeper. No limit is above that of `Limits::FULL`. Tables of version 1 become those
    /// of version 2, with a refresh job of each page that has none, in one change of the store: all memory is taken
    /// before.
    ///
    /// At Ok each job is queued, the journal is empty, no ticket is out, and the wiki isn't sealed. After a refusal the
    /// keeper comes back, and its tables are as before. `StoreFault` comes only where its count of faults rose, when its
    /// tables were read or changed; at each other answer that count is as it was. `BadStore` comes exactly where the tables
    /// break a rule of a good store: the first that is broken, and its least row; `Memory` may come.
    pub fn load(alloc: Global, keeper: K, limits: Limits) -> Result<Wiki<K>, LoadRefusal<K>>
        requires within { AreWithinFull (most_held limits) }
        ensures opened { IfOk result (λ wiki. HasOpened wiki (most_held limits)) }
        ensures state { IfOk result (λ wiki. IfSome (K.told keeper) (λ tables. (first_broken tables ≡ None) × (wiki.state ≡ opened tables))) }
        ensures bad { IfErr result (λ refusal. IfSome (bad_store_of refusal.cause) (λ bad. IfSome (K.told keeper) (λ tables. first_broken tables ≡ Some bad))) }
        ensures tells { IfOk result (λ wiki. is_some (K.told wiki.keeper) ≡ is_some (K.told keeper)) }
        ensures refused { IfErr result (λ refusal. K.told refusal.keeper ≡ K.told keeper) }
        ensures whole { IfOk result (λ wiki. K.is_whole wiki.keeper ≡ K.is_whole keeper) }
        ensures refused_whole { IfErr result (λ refusal. K.is_whole refusal.keeper ≡ K.is_whole keeper) }
        ensures no_fault { IfOk result (λ wiki. K.faults wiki.keeper ≡ K.faults keeper) }
        ensures refused_no_fault { IfErr result (λ refusal. refusal.cause ≢ LoadCause.StoreFault → K.faults refusal.keeper ≡ K.faults keeper) }
        ensures fault { IfErr result (λ refusal. refusal.cause ≡ LoadCause.StoreFault → Rose (K.faults keeper) (K.faults refusal.keeper)) }
        ensures never_falls { IfErr result (λ refusal. K.faults keeper ≤ K.faults refusal.keeper) }
        ensures whole_count { IfErr result (λ refusal. K.is_whole keeper ≡ true → K.faults refusal.keeper ≡ K.faults keeper) }
    {
        let Ok(cache) = none_kept(alloc) else {
            let cause = LoadCause::Memory;
            return Err(LoadRefusal { keeper, cause });
        };
        let mut keeper = keeper;
        match open_life(alloc, &mut keeper, limits) {
            Ok(life) => Ok(Wiki {
                keeper,
                life,
                cache,
            }),
            Err(cause) => Err(LoadRefusal { keeper, cause }),
        }
    }
}
