//! Drafts that go on where they stopped.
ghost use Rattle.std.specs.Prelude.{◌≡◌, [], IfErr, IfOk, None, Some};
ghost use Rattle.wk_view_rules.specs.Expansions.{no_counters};
ghost use Rattle.wk_view_rules.specs.Plans.{run};
ghost use Rattle.wk_view_rules.specs.Views.{text_plan};
ghost use Rattle.wk_view_rules.specs.Worlds.{Agrees, Seen as Answers, of_seen};
ghost use Rattle.wk_expand.specs.Drafts.{IsDraft, drafted, turned_by};
ghost use Rattle.wk_expand.specs.Kept.{expanded_with};
ghost use Rattle.wk_expand.specs.Machines.{IsLeft, IsPaused, reads_of};
ghost use Rattle.wk_expand.specs.Runs.{IsDriven, IsRan};
ghost use Rattle.wk_expand.specs.State.{IsBegun};
ghost use Rattle.wk_expand.specs.Steps.{given_text};

use crate::answer::Counts;
use crate::drafts::{Draft, Root};
use crate::laws::steps_tell_of_worlds;
use crate::seen::Seen;
use crate::stack::{Listing, Now, Turn};
use crate::state::Expander;
use crate::trees::Trees;
use crate::work::Work;
use std::alloc::Global;
use std::marker::Model;
use wk_bytes::Text;
use wk_frames::{Levels, Tree};
use wk_memory::Memory;
use wk_out::Out;
use wk_redirect::redirect_target;
use wk_title::Title;
use wk_tree_rules::Mode;
use wk_view_laws::done_by_the_reads_alone;
use wk_view_rules::Kind;

/// Nothing was counted.
const NO_COUNTS: Counts = Counts {
    nodes: 0,
    include: 0,
    argument: 0,
    exists: 0,
};

/// An expansion that has begun, and what it carries out now.
#[derive(Drop)]
pub struct Begun {
    pub work: Work,
    pub now: Now,
}

/// What an expansion comes to.
#[derive(Drop)]
pub enum Driven {
    /// All that was asked was seen.
    Drafted(Draft),
    /// This title wasn't seen with this kind; the expansion goes on from here, if it has begun.
    Stopped(Title, Kind, Option<Begun>),
}

/// A draft that is begun once and goes on each time that more was seen (own). Contracts see the page, the text that is
/// given in the place of its own, and what was read so far.
///
/// By its type what is left to do gives the draft, whatever else is seen, as long as what was read so far is answered in
/// the same way.
#[derive(Drop)]
pub struct Machine {
    alloc: Global,
    page: Title,
    given: Option<Text>,
    begun: Option<Begun>,
}

impl Model for Machine {
    ghost use Rattle.wk_expand.specs.Machines.{IsPaused, MachineShown, reads_of};

    ghost Value = { MachineShown };

    ghost view = { λ m. record {
      page = m.page;
      given = m.given;
      reads = reads_of m.begun;
    } };

    ghost invariant = { λ m. IsPaused m.page m.given m.begun };
}

/// What a run of a machine comes to.
#[derive(Drop)]
pub enum Ran {
    /// All that was asked was seen.
    Done(Draft),
    /// This title wasn't seen with this kind. The machine goes on once it is.
    Needs(Title, Kind, Machine),
}

/// The title that a page redirects to, by its reads; nothing where a text was given.
fn turned_in(
    alloc: Global,
    page: &Title,
    given: &Option<Text>,
    seen: &Seen,
) -> Result<Option<Title>, Memory>
    ensures { IfOk result (λ turned. turned ≡ turned_by page.now given.now seen.now) }
{
    let None = given else {
        return Ok(None);
    };
    let Some(answer) = seen.get(page, Kind::View)? else {
        return Ok(None);
    };
    let Some(text) = answer.text() else {
        return Ok(None);
    };
    redirect_target(alloc, text.as_str())
}

/// The text that is given, for a further owner.
fn shared(given: &Option<Text>) -> Result<Option<Text>, Memory>
    ensures { IfOk result (λ text. text ≡ given.now) }
{
    match given {
        Some(text) => Ok(Some(text.share()?)),
        None => Ok(None),
    }
}

/// The draft of an expansion that is done.
fn made(
    alloc: Global,
    page: &Title,
    given: &Option<Text>,
    out: Out,
    counts: Counts,
    seen: Seen,
) -> Result<Draft, Memory>
    requires { IsDraft page.now given.now (expanded_with out counts) seen }
    ensures { IfOk result (λ draft. draft ≡ record {
      page = page.now;
      given = given.now;
      expanded = expanded_with out counts;
      reads = seen;
    }) }
{
    let reads = seen.with_marks(alloc)?;
    let turned = turned_in(alloc, page, given, &seen)?;
    let page = page.share()?;
    let given = shared(given)?;
    Ok(Draft {
        page,
        given,
        out,
        counts,
        seen,
        reads,
        turned,
    })
}

/// The expansion of a parsed text as the page's own, at its start, behind the reads that there are.
fn at_start(alloc: Global, page: &Title, tree: Tree, reads: Seen) -> Result<Expander, Memory>
    ensures { IfOk result (IsBegun page.now tree reads) }
{
    let page = page.share()?;
    Ok(Expander {
        alloc,
        page,
        levels: Levels::new(alloc, tree),
        counts: NO_COUNTS,
        tested: Vec::new(alloc),
        reads,
    })
}

/// Goes on until the draft is done, or an answer is needed.
fn go_on(
    alloc: Global,
    page: &Title,
    given: &Option<Text>,
    begun: Begun,
    seen: &Seen,
    trees: &mut Trees,
) -> Result<Driven, Memory>
    requires left { IsLeft page.now given.now begun.work begun.now }
    requires answered { Agrees (of_seen seen.now) begun.work.expander.reads }
    ensures { IfOk result (IsDriven page.now given.now seen.now) }
{
    done_by_the_reads_alone();
    let Begun { work, now } = begun;
    let mut work = work;
    let mut now = now;
    // No expansion has so many steps: each opens one of 1,000,000 nodes, or goes on in a list or a node that is open.
    'steps: for _step in 0..u64::MAX {
        match work.step(seen, trees, now)? {
            Turn::On(next) => {
                now = next;
            }
            Turn::Done => {
                let Work {
                    expander,
                    opened: _opened,
                    listing,
                } = work;
                let Expander { counts, reads, .. } = expander;
                let out = listing.out;
                return Ok(Driven::Drafted(made(alloc, page, given, out, counts, reads)?));
            }
            Turn::Needs(title, kind, now) => {
                return Ok(Driven::Stopped(title, kind, Some(Begun { work, now })));
            }
        }
    }
    Err(Memory)
}

/// For how many open nodes there is room at first (by measure).
const FIRST_OPENED: usize = 5;

/// Begins to expand a text, which is all that is left to do behind the reads that there are.
fn expand_text(
    alloc: Global,
    page: &Title,
    given: &Option<Text>,
    text: &Text,
    reads: Seen,
    seen: &Seen,
    trees: &mut Trees,
) -> Result<Driven, Memory>
    requires left { (later : Answers) → Agrees (of_seen later) reads → drafted (of_seen later) page.now given.now
        ≡ run (of_seen later) (text_plan page.now text.now) reads }
    requires answered { Agrees (of_seen seen.now) reads }
    ensures { IfOk result (IsDriven page.now given.now seen.now) }
{
    let tree = trees.tree(alloc, text, Mode::View)?;
    let list = tree.root();
    let opened = Vec::with_capacity(alloc, FIRST_OPENED)?;
    let work = Work {
        expander: at_start(alloc, page, tree, reads)?,
        opened,
        listing: Listing {
            list,
            at: 0,
            out: Out::new(alloc),
        },
    };
    let now = Now::List;
    Ok(go_on(alloc, page, given, Begun { work, now }, seen, trees)?)
}

/// Begins with a page's own text.
fn expand_page(
    alloc: Global,
    page: &Title,
    seen: &Seen,
    trees: &mut Trees,
) -> Result<Driven, Memory>
    ensures { IfOk result (IsDriven page.now None seen.now) }
{
    done_by_the_reads_alone();
    let Some(answer) = seen.get(page, Kind::View)? else {
        return Ok(Driven::Stopped(page.share()?, Kind::View, None));
    };
    let mut reads = Seen::new(alloc);
    reads.note(page, Kind::View, answer)?;
    match answer.text() {
        Some(text) => Ok(expand_text(alloc, page, &None, text, reads, seen, trees)?),
        None => {
            let draft = made(alloc, page, &None, Out::new(alloc), NO_COUNTS, reads)?;
            Ok(Driven::Drafted(draft))
        }
    }
}

/// Begins, or goes on.
fn drive(
    alloc: Global,
    page: &Title,
    given: &Option<Text>,
    begun: Option<Begun>,
    seen: &Seen,
    trees: &mut Trees,
) -> Result<Driven, Memory>
    requires paused { IsPaused page.now given.now begun }
    requires answered { Agrees (of_seen seen.now) (reads_of begun) }
    ensures { IfOk result (IsDriven page.now given.now seen.now) }
{
    if let Some(begun) = begun {
        return go_on(alloc, page, given, begun, seen, trees);
    }
    match given {
        Some(text) => expand_text(alloc, page, given, text, Seen::new(alloc), seen, trees),
        None => expand_page(alloc, page, seen, trees),
    }
}

impl Machine {
    /// A machine for a page, or for a given text in the place of its own. Nothing is read yet.
    pub fn new(alloc: Global, page: &Title, root: &Root) -> Result<Machine, Memory>
        ensures { IfOk result (λ m. m ≡ record { page = page.now; given = given_text root.now; reads = [] }) }
    {
        let given = match root {
            Root::Page => None,
            Root::Given(text) => Some(text.share()?),
        };
        Ok(Machine {
            alloc,
            page: page.share()?,
            given,
            begun: None,
        })
    }

    /// Goes on as far as what was seen allows (MediaWiki's Help:Templates). What was seen answers what the machine has
    /// read so far: so it does where it has all that was seen before, and more behind it.
    ///
    /// Done with the draft where all that is asked was seen. Else the first pair of a title and a kind that wasn't, with
    /// the machine, which goes on from there. Where memory runs out the machine begins anew. `trees` keeps parsed texts
    /// from one run to the next. Nothing is waited for.
    pub fn run(self, seen: &Seen, trees: &mut Trees) -> Result<Ran, (Machine, Memory)>
        requires { Agrees (of_seen seen.now) self.reads }
        ensures ran { IfOk result (IsRan self seen.now) }
        ensures again { IfErr result (λ refused. refused.0 ≡ record self { reads = [] }) }
    {
        steps_tell_of_worlds();
        let Machine {
            alloc,
            page,
            given,
            begun,
        } = self;
        match drive(alloc, &page, &given, begun, seen, trees) {
            Ok(Driven::Drafted(draft)) => Ok(Ran::Done(draft)),
            Ok(Driven::Stopped(title, kind, begun)) => {
                let machine = Machine {
                    alloc,
                    page,
                    given,
                    begun,
                };
                Ok(Ran::Needs(title, kind, machine))
            }
            Err(Memory) => {
                let machine = Machine {
                    alloc,
                    page,
                    given,
                    begun: None,
                };
                Err((machine, Memory))
            }
        }
    }
}
