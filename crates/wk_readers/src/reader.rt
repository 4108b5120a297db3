//! A reader: a pass, with what it has read last.
ghost use Rattle.std.specs.Prelude.{◌≡◌, ℕ, ◌+◌, ◌<◌, ◌≤◌, ◌++◌, [], IfErr, IfOk, IsTrue, OnOk, length, None, Some};
ghost use mathlib.Core.List.{IsPrefix};
ghost use Rattle.wk_wiki_rules.specs.Entries.{closes};
ghost use Rattle.wk_wiki_rules.specs.Passes.{IsReadAt, max_uses};
ghost use Rattle.wk_wiki_rules.specs.Starts.{Start};
ghost use Rattle.wk_expand.specs.Steps.{given_text};
ghost use Rattle.wk_turn.specs.Journal.{AreOwn, ClosesOwn, IsOpen, added};
ghost use Rattle.wk_turn.specs.Told.{IsOf};
ghost use Rattle.wk_read_laws.specs.Points.{AreReadSince};
ghost use Rattle.wk_shared.specs.Calls.{IsFree, seen_by};
ghost use Rattle.wk_cache.specs.Entries.{entry_of, marked};
ghost use Rattle.wk_shared.specs.Looks.{HasRead, IsPresentRead, KeepsTickets, reading_of};
ghost use Rattle.wk_shared.specs.Sought.{kept_read};
ghost use Rattle.wk_readers.specs.Readers.{AreRight, IsIdleAt};
ghost use Rattle.wk_readers.specs.Reads.{IsCheck, IsDraftedAnew, IsLate, KeepsOrAdds, answer_of_kept, fresh_entry};

use crate::entries::is_fresh;
use crate::{Sought, drafted, look, look_for, look_new};
use std::alloc::Global;
use std::marker::Model;
use std::sync::Wait;
use wk_base::Gate;
use wk_bytes::Text;
use wk_cache::{Cache, Kept};
use wk_core::{Keeper, PageRead, ReadRefusal, Wiki};
use wk_expand::{Root, Trees};
use wk_memory::Memory;
use wk_shared::{Held, Pass, Shared, Substituted, is_idle, substituted_apart};
use wk_title::Title;

/// How many pages a reader keeps, and of how many texts the trees.
const MOST_KEPT: usize = 16;

/// A pass, with the pages that it has read last (own). Contracts see the pass, and the pages that are kept.
///
/// By its type what is kept of a page is what it expanded to at a point that the pass has seen, with its number there, and
/// it was served at most 16 times since it was checked; and where it was told that no job is to be done, that is so at the point
/// that the pass has seen.
#[derive(Drop)]
pub struct Reader<K: Keeper> {
    pub(crate) alloc: Global,
    pub(crate) pass: Pass<Wiki<K>>,
    pub(crate) trees: Trees,
    pub(crate) cache: Cache,
    /// Whether it has looked at the wiki since its session began.
    pub(crate) looked: bool,
    /// Whether its last look told that no job is to be done, which nobody was told yet.
    pub(crate) idle: bool,
}

impl<K: Keeper> Model for Reader<K> {
    ghost use Rattle.wk_readers.specs.Readers.{IsReader, ReaderSeen};

    ghost Value = { ReaderSeen };

    ghost view = { λ r. record { pass = r.pass; most = r.cache.most; entries = r.cache.entries } };

    ghost invariant = { λ r. IsReader r.pass r.cache.entries r.idle };
}

/// What a look for what is current of a page comes to.
#[derive(Drop)]
pub enum Checked {
    /// What was found is the answer.
    Current(PageRead),
    /// Nothing is kept of which each read is current.
    Stale,
    /// The journal, which has this length, hasn't come to the least point.
    Late(u64),
}

impl<K: Keeper> Reader<K> {
    /// A reader with this pass, which keeps nothing yet. The pass comes back where memory ran out.
    pub fn new(alloc: Global, pass: Pass<Wiki<K>>) -> Result<Reader<K>, (Pass<Wiki<K>>, Memory)>
        ensures reader { IfOk result (λ reader. reader ≡ record { pass = pass; most = 16; entries = [] }) }
        ensures refused { IfErr result (λ refused. refused.0 ≡ pass) }
    {
        let Ok(trees) = Trees::new(alloc, MOST_KEPT) else {
            return Err((pass, Memory));
        };
        let Ok(cache) = Cache::new(alloc, MOST_KEPT) else {
            return Err((pass, Memory));
        };
        Ok(Reader {
            alloc,
            pass,
            trees,
            cache,
            looked: false,
            idle: false,
        })
    }

    /// The length of the journal that its pass has seen. Takes no memory.
    pub fn point(&self) -> u64
        ensures { result ≡ length self.now.pass.seen }
    {
        self.pass.point()
    }

    /// The pass. Takes no memory.
    pub fn into_pass(self) -> Pass<Wiki<K>>
        ensures { result ≡ self.pass }
    {
        let Reader {
            alloc: _,
            pass,
            trees: _,
            cache: _,
            looked: _,
            idle: _,
        } = self;
        pass
    }

    /// What it takes memory of.
    pub fn allocator(&self) -> Global {
        self.alloc
    }

    /// A session begins: what is kept of a page isn't served before the wiki was looked at. Takes no memory.
    pub fn begin_session(&mut self)
        ensures { self.new ≡ self.old }
    {
        self.looked = false;
        self.idle = false;
    }

    /// Whether the last look told that no job is to be done at the point that the pass has seen. It says so once behind a look.
    /// Takes no memory.
    pub fn told_idle(&mut self) -> bool
        ensures idle { IsTrue result → (start : Start) → self.old.pass.start ≡ Some start → IsIdleAt start self.old.pass }
        ensures same { self.new ≡ self.old }
    {
        let idle = self.idle;
        self.idle = false;
        idle
    }

    /// What is kept is right at its point.
    pub(crate) fn facts(&self)
        ensures { AreRight self.now.pass self.now.entries }
    {
        let _alloc = self.alloc;
    }

    /// Waits for the turn and takes the wiki, as `Shared::enter` does. What is kept stays. No memory.
    pub fn enter<R: Wait>(&mut self, shared: &Shared<K>, rt: &R) -> Held<Wiki<K>>
        requires { IsFree shared.now self.old.pass }
        ensures pass { self.new ≡ record self.old { pass = record self.old.pass { held = Some result.value.journal } } }
        ensures before { result.before.value ≡ result.value }
        ensures start { result.value.start ≡ shared.now.start }
        ensures seen { IsPrefix self.old.pass.seen result.value.journal }
        ensures own { AreOwn closes result.value.journal self.old.pass.own }
        ensures still_open { (p : ℕ) → IsOpen closes self.old.pass.seen self.old.pass.own p
            → IsOpen closes result.value.journal self.old.pass.own p }
    {
        self.idle = false;
        shared.enter(rt, &mut self.pass)
    }

    /// Gives the wiki and the turn back, as `Shared::leave` does. What is kept stays. It waits for nobody. No memory.
    pub fn leave(&mut self, shared: &Shared<K>, held: Held<Wiki<K>>)
        requires turn { IsOf shared.now self.old.pass }
        requires entered { self.old.pass.held ≡ Some held.before.value.journal }
        requires start { held.value.start ≡ shared.now.start }
        requires journal { IsPrefix held.before.value.journal held.value.journal }
        requires closes { ClosesOwn closes held.before.value.journal held.value.journal self.old.pass.own }
        ensures pass { self.new ≡ record self.old {
          pass = record self.old.pass {
            seen = held.value.journal;
            own = self.old.pass.own ++ added held.before.value.journal held.value.journal;
            held = None;
          };
        } }
        ensures seen { IsPrefix self.old.pass.seen self.new.pass.seen }
        ensures own { AreOwn closes self.new.pass.seen self.new.pass.own }
    {
        let idle = is_idle(&held.value);
        held.value.facts();
        shared.leave(&mut self.pass, held);
        self.looked = true;
        self.idle = idle;
    }

    /// Whether an entry is served without a look at the wiki: it is fresh, and the reader has looked since its session began. Takes
    /// no memory.
    pub(crate) fn is_served(&self, kept: &Kept, least: u64) -> bool
        ensures few { IsTrue result → kept.now.uses < max_uses }
        ensures reached { IsTrue result → least ≤ kept.now.point }
        ensures fresh { IsTrue result → length self.now.pass.seen ≤ kept.now.point }
    {
        self.looked && is_fresh(kept, least, self.pass.point())
    }

    /// Serves an entry as it is, once more.
    pub(crate) fn serve(&mut self, title: &Title, kept: Kept) -> PageRead
        requires entry { entry_of title.now self.old.entries ≡ Some kept }
        requires few { kept.uses < max_uses }
        ensures read { result ≡ answer_of_kept kept kept.point }
        ensures left { self.new ≡ record self.old { entries = marked title.now kept.point (kept.uses + 1) self.old.entries } }
    {
        self.cache.set(title, kept.point, kept.uses + 1);
        PageRead {
            draft: kept.draft,
            point: kept.point,
            id: kept.id,
        }
    }

    /// Looks whether the journal has come to the least point. It waits. No memory.
    pub(crate) fn reach<R: Wait>(
        &mut self,
        shared: &Shared<K>,
        rt: &R,
        least: u64,
    ) -> Result<(), ReadRefusal>
        requires { IsFree shared.now self.old.pass }
        ensures pass { HasRead shared.now self.old.pass self.new.pass }
        ensures reached { OnOk result (least ≤ length self.new.pass.seen) }
        ensures late { IfErr result (IsLate least self.new.pass) }
        ensures kept { self.new.entries ≡ self.old.entries }
    {
        self.looked = true;
        self.idle = false;
        let point = look(shared, rt, &mut self.pass);
        if point < least {
            return Err(ReadRefusal::Future(point));
        }
        Ok(())
    }

    /// Looks for what is current of a page: its entry, or else what the wiki keeps. What is found has the present point then,
    /// and wasn't served since. It waits.
    pub(crate) fn check<R: Wait>(
        &mut self,
        shared: &Shared<K>,
        rt: &R,
        title: &Title,
        least: u64,
        kept: Kept,
    ) -> Checked
        requires free { IsFree shared.now self.old.pass }
        requires entry { entry_of title.now self.old.entries ≡ Some kept }
        ensures pass { HasRead shared.now self.old.pass self.new.pass }
        ensures check { IsCheck shared.now title.now least self.old self.new result }
    {
        let made = kept.draft.draft();
        let _reads = made.reads();
        let (sought, looked) = look_for(shared, rt, &mut self.pass, title, made);
        self.looked = true;
        self.idle = looked.idle;
        let point = looked.point;
        if point < least {
            return Checked::Late(point);
        }
        match sought {
            Sought::Own => {
                self.cache.set(title, point, 0);
                Checked::Current(PageRead {
                    draft: kept.draft,
                    point,
                    id: kept.id,
                })
            }
            Sought::Shared(found) => Checked::Current(self.take_in(found)),
            Sought::Nothing => Checked::Stale,
        }
    }

    /// Looks for what is current of what the wiki keeps of a page of which the reader keeps nothing. It waits.
    pub(crate) fn check_new<R: Wait>(
        &mut self,
        shared: &Shared<K>,
        rt: &R,
        title: &Title,
        least: u64,
    ) -> Checked
        requires { IsFree shared.now self.old.pass }
        ensures pass { HasRead shared.now self.old.pass self.new.pass }
        ensures check { IsCheck shared.now title.now least self.old self.new result }
    {
        let (found, looked) = look_new(shared, rt, &mut self.pass, title);
        self.looked = true;
        self.idle = looked.idle;
        let point = looked.point;
        if point < least {
            return Checked::Late(point);
        }
        match found {
            Some(found) => Checked::Current(self.take_in(found)),
            None => Checked::Stale,
        }
    }

    /// Keeps an answer to a read of a page. Where memory runs out it is passed over.
    pub(crate) fn keep(&mut self, read: &PageRead)
        requires right { (start : Start) → self.old.pass.start ≡ Some start → IsReadAt (seen_by start self.old.pass) (reading_of read.now) }
        requires own_text { read.now.draft.given ≡ None }
        ensures pass { self.new.pass ≡ self.old.pass }
        ensures kept { KeepsOrAdds self.old.entries self.new.entries (fresh_entry read.now) }
    {
        let Ok(draft) = read.draft.share() else {
            return;
        };
        let kept = Kept {
            draft,
            point: read.point,
            uses: 0,
            id: read.id,
        };
        let _refused = self.cache.put(kept);
    }

    /// Keeps what the wiki keeps of a page, and answers it.
    fn take_in(&mut self, kept: Kept) -> PageRead
        requires right { (start : Start) → self.old.pass.start ≡ Some start → IsReadAt (seen_by start self.old.pass) (reading_of (kept_read kept)) }
        requires own_text { kept.draft.given ≡ None }
        ensures read { result ≡ kept_read kept }
        ensures pass { self.new.pass ≡ self.old.pass }
        ensures kept { KeepsOrAdds self.old.entries self.new.entries (fresh_entry (kept_read kept)) }
    {
        let read = PageRead {
            draft: kept.draft,
            point: kept.point,
            id: kept.id,
        };
        self.keep(&read);
        read
    }

    /// What the page, or a given text in the place of its own, expands to at the point that the pass has seen then. It waits.
    pub(crate) fn draft<R: Wait, G: Gate>(
        &mut self,
        shared: &Shared<K>,
        rt: &R,
        title: &Title,
        root: &Root,
        gate: &mut G,
    ) -> Result<PageRead, Memory>
        requires { IsFree shared.now self.old.pass }
        ensures pass { HasRead shared.now self.old.pass self.new.pass }
        ensures read { IfOk result (IsPresentRead shared.now self.new.pass title.now (given_text root.now)) }
        ensures kept { self.new.entries ≡ self.old.entries }
    {
        let alloc = self.alloc;
        self.looked = true;
        self.idle = false;
        drafted(
            shared,
            rt,
            alloc,
            &mut self.pass,
            &mut self.trees,
            title,
            root,
            gate,
        )
    }

    /// Transforms a text before it is saved, without the turn, as `substituted_apart` has it (MediaWiki's Help:Substitution):
    /// each answer is that of the world at some point from the one on that the pass had seen. The gate is passed between two
    /// reads. It makes no entry, and what is kept stays. `Memory` may come. It waits.
    pub fn transform<R: Wait, G: Gate>(
        &mut self,
        shared: &Shared<K>,
        rt: &R,
        text: &Text,
        gate: &mut G,
    ) -> Result<Substituted, Memory>
        requires { IsFree shared.now self.old.pass }
        ensures pass { HasRead shared.now self.old.pass self.new.pass }
        ensures tickets { KeepsTickets shared.now.start self.old.pass self.new.pass }
        ensures saved { IfOk result (λ made. made.saved ≡ text.now) }
        ensures since { IfOk result (λ made. AreReadSince shared.now.start self.new.pass.seen (length self.old.pass.seen) made.reads) }
        ensures kept { self.new.entries ≡ self.old.entries }
    {
        let alloc = self.alloc;
        self.looked = true;
        self.idle = false;
        substituted_apart(shared, rt, alloc, &mut self.pass, text, gate)
    }

    /// What the page expands to at the point that the pass has seen then; the answer is kept. It waits.
    pub(crate) fn draft_page<R: Wait, G: Gate>(
        &mut self,
        shared: &Shared<K>,
        rt: &R,
        title: &Title,
        gate: &mut G,
    ) -> Result<PageRead, ReadRefusal>
        requires { IsFree shared.now self.old.pass }
        ensures pass { HasRead shared.now self.old.pass self.new.pass }
        ensures read { IsDraftedAnew shared.now title.now self.old self.new result }
    {
        match self.draft(shared, rt, title, &Root::Page, gate) {
            Ok(read) => {
                self.keep(&read);
                Ok(read)
            }
            Err(_) => Err(ReadRefusal::Memory),
        }
    }
}
