//! A wiki behind a turn, and how callers come to it.
ghost use Rattle.std.specs.Prelude.{◌≡◌, ℕ, ◌++◌, [], Some, None, IfOk, IfErr};
ghost use mathlib.Core.List.{IsPrefix};
ghost use Rattle.wk_wiki_rules.specs.Entries.{closes};
ghost use Rattle.wk_wiki_laws.specs.Kept.{IsKept};
ghost use Rattle.wk_turn.specs.Journal.{AreOwn, ClosesOwn, IsOpen, added, longer};
ghost use Rattle.wk_turn.specs.Told.{IsOf};
ghost use Rattle.wk_shared.specs.Calls.{IsFree};

use std::marker::Model;
use std::sync::Wait;
use wk_core::{Keeper, Wiki};
use wk_memory::Memory;
use wk_turn::{Held, Pass, Turn, begin};

/// A wiki that callers take in turns. Contracts see which turn it is behind, and how the wiki began.
///
/// A pass is of one shared wiki. It tells what its caller has seen of the journal, and which entries the caller made. Each
/// call takes the wiki, does its work and gives it back; so it waits, but for `new`, `facts`, `split` and `join`. By its type the
/// wiki began in a state of good form.
#[derive(Drop)]
pub struct Shared<K: Keeper> {
    pub(crate) turn: Turn<Wiki<K>>,
}

impl<K: Keeper> Model for Shared<K> {
    ghost use Rattle.wk_turn.specs.Told.{Begun};
    ghost use Rattle.wk_wiki_laws.specs.Kept.{IsKept};
    ghost use Rattle.wk_wiki_rules.specs.Starts.{Start};

    ghost Value = { Begun Start };

    ghost view = { λ s. s.turn };

    ghost invariant = { λ s. IsKept s.turn.start.state };
}

impl<K: Keeper> Shared<K> {
    /// Shares a wiki. The pass has seen the wiki's whole journal, and made no entry.
    /// The wiki comes back where memory ran out.
    pub fn new(wiki: Wiki<K>) -> Result<(Shared<K>, Pass<Wiki<K>>), (Wiki<K>, Memory)>
        ensures start { IfOk result (λ t. t.0.start ≡ wiki.start) }
        ensures pass { IfOk result (λ t. t.1
            ≡ record { turn = t.0.id; start = Some t.0.start; seen = wiki.journal; own = []; held = None }) }
        ensures refused { IfErr result (λ e. e.0 ≡ wiki) }
    {
        let alloc = wiki.allocator();
        wiki.facts();
        match begin(alloc, wiki) {
            Ok((turn, pass)) => Ok((Shared { turn }, pass)),
            Err((wiki, memory)) => Err((wiki, memory)),
        }
    }

    /// What holds of each shared wiki: the state in which it began is of good form. Takes no memory and does nothing.
    pub fn facts(&self)
        ensures { IsKept self.now.start.state }
    {
        let _turn = &self.turn;
    }

    /// Makes a pass that has seen what `pass` has seen, and has made no entry. It waits for nobody.
    /// Memory comes only where 2^64 - 1 passes were made, or 2^64 - 1 times in a row another call was first.
    pub fn split(&self, pass: &mut Pass<Wiki<K>>) -> Result<Pass<Wiki<K>>, Memory>
        requires { IsOf self.now pass.old }
        ensures pass { pass.new ≡ pass.old }
        ensures new { IfOk result (λ p. p ≡ record pass.old { own = []; held = None }) }
    {
        self.turn.split(pass)
    }

    /// Takes in another pass: what it has seen, where that is more, and its entries, which are others than
    /// those of `pass`. What either left open is still open. It waits for nobody. No memory.
    pub fn join(&self, pass: &mut Pass<Wiki<K>>, other: Pass<Wiki<K>>)
        requires { IsFree self.now pass.old × IsFree self.now other }
        ensures pass { pass.new ≡ record pass.old
            { seen = longer pass.old.seen other.seen; own = pass.old.own ++ other.own } }
        ensures seen { IsPrefix pass.old.seen pass.new.seen × IsPrefix other.seen pass.new.seen }
        ensures own { AreOwn closes pass.new.seen pass.new.own }
        ensures each { AreOwn closes pass.new.seen pass.old.own × AreOwn closes pass.new.seen other.own }
        ensures mine_open { (p : ℕ) → IsOpen closes pass.old.seen pass.old.own p
            → IsOpen closes pass.new.seen pass.old.own p }
        ensures other_open { (p : ℕ) → IsOpen closes other.seen other.own p
            → IsOpen closes pass.new.seen other.own p }
    {
        self.turn.join(pass, other);
    }

    /// Waits for the turn and takes the wiki. Its journal begins with all that the pass has seen, and what
    /// the pass left open is still open. No memory.
    pub fn enter<R: Wait>(&self, rt: &R, pass: &mut Pass<Wiki<K>>) -> Held<Wiki<K>>
        requires { IsFree self.now pass.old }
        ensures pass { pass.new ≡ record pass.old { held = Some result.value.journal } }
        ensures before { result.before.value ≡ result.value }
        ensures start { result.value.start ≡ self.now.start }
        ensures seen { IsPrefix pass.old.seen result.value.journal }
        ensures own { AreOwn closes result.value.journal pass.old.own }
        ensures still_open { (p : ℕ) → IsOpen closes pass.old.seen pass.old.own p
            → IsOpen closes result.value.journal pass.old.own p }
    {
        self.turn.enter(rt, pass)
    }

    /// Gives the wiki and the turn back. The wiki keeps its start, its journal begins with the one at `enter`, and an
    /// entry that was added closes only what is the pass's own and still open. The pass has then seen the whole journal,
    /// and the entries added are its own. It waits for nobody. No memory.
    pub fn leave(&self, pass: &mut Pass<Wiki<K>>, held: Held<Wiki<K>>)
        requires turn { IsOf self.now pass.old }
        requires entered { pass.old.held ≡ Some held.before.value.journal }
        requires start { held.value.start ≡ self.now.start }
        requires journal { IsPrefix held.before.value.journal held.value.journal }
        requires closes { ClosesOwn closes held.before.value.journal held.value.journal pass.old.own }
        ensures pass { pass.new ≡ record pass.old {
          seen = held.value.journal;
          own = pass.old.own ++ added held.before.value.journal held.value.journal;
          held = None;
        } }
        ensures seen { IsPrefix pass.old.seen pass.new.seen }
        ensures own { AreOwn closes pass.new.seen pass.new.own }
    {
        self.turn.leave(pass, held);
    }

    /// Waits for the turn, and keeps the wiki. Its journal begins with all that the pass has seen, and what the pass left
    /// open is still open. No memory.
    pub fn finish<R: Wait>(self, rt: &R, pass: Pass<Wiki<K>>) -> Wiki<K>
        requires { IsFree self pass }
        ensures start { result.start ≡ self.start }
        ensures seen { IsPrefix pass.seen result.journal }
        ensures own { AreOwn closes result.journal pass.own }
        ensures still_open { (p : ℕ) → IsOpen closes pass.seen pass.own p
            → IsOpen closes result.journal pass.own p }
    {
        let Shared { turn } = self;
        turn.finish(rt, pass)
    }
}
