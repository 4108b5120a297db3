//! Substitutions that go on where they stopped.
ghost use Rattle.std.specs.Prelude.{◌≡◌, [], IfErr, IfOk};
ghost use Rattle.std.specs.Option.{option_copied};
ghost use Rattle.wk_view_rules.specs.Worlds.{Agrees, of_seen};
ghost use Rattle.wk_expand.specs.Answers.{answer_of, text_in};
ghost use Rattle.wk_subst.specs.Begun.{begun_of};
ghost use Rattle.wk_subst.specs.Machines.{IsDriven, IsRan, IsStep};
ghost use Rattle.wk_subst.specs.Paused.{IsLeft, IsPaused, reads_of};

use crate::output::Output;
use crate::reads::Reads;
use crate::spent::Spent;
use crate::stack::{Level, Stack};
use crate::substituted::{SubstStep, Substituted};
use crate::texts::Texts;
use crate::work::{Now, Work};
use std::alloc::Global;
use std::marker::Model;
use wk_bytes::Text;
use wk_expand::{Answer, Seen};
use wk_frames::Tree;
use wk_memory::Memory;
use wk_subst_laws::done_by_the_reads_alone;
use wk_title::Title;
use wk_tree::{ListId, Mode, parse};
use wk_view_rules::Kind;

/// A substitution that has begun, and what it carries out next.
#[derive(Drop)]
pub struct Begun {
    pub work: Work,
    pub now: Now,
    pub reads: Reads,
}

/// What a substitution comes to.
#[derive(Drop)]
pub enum Driven {
    /// All that was asked was seen.
    Made(Substituted),
    /// The text of this title's page wasn't seen; the substitution goes on from here.
    Stopped(Title, Begun),
}

/// A substitution that is begun once and goes on each time that more was seen (own). Contracts see the text that is saved, and
/// what was read so far.
///
/// By its type what is left to do gives what the text becomes, whatever else is seen, as long as what was read so far is
/// answered in the same way.
#[derive(Drop)]
pub struct SubstMachine {
    alloc: Global,
    saved: Text,
    begun: Option<Begun>,
}

impl Model for SubstMachine {
    ghost use Rattle.wk_subst.specs.MachineShown.{MachineShown};
    ghost use Rattle.wk_subst.specs.Paused.{IsPaused, reads_of};

    ghost Value = { MachineShown };

    ghost view = { λ m. record { saved = m.saved; reads = reads_of m.begun } };

    ghost invariant = { λ m. IsPaused m.saved m.begun };
}

/// What a run of a machine comes to.
#[derive(Drop)]
pub enum SubstRan {
    /// All that was asked was seen.
    Done(Substituted),
    /// The text of this title's page wasn't seen. The machine goes on once it is.
    Needs(Title, SubstMachine),
}

/// The text of a page that is there, by an answer.
fn text_of(answer: &Answer) -> Option<&Text>
    ensures { option_copied result ≡ text_in (answer_of answer.now) }
{
    match answer {
        Answer::Page(Some((_, text))) => Some(text),
        _ => None,
    }
}

/// A text at its start.
fn at_start(alloc: Global, text: &Text) -> Result<Work, Memory>
    ensures { IfOk result (λ work. work ≡ begun_of text.now work) }
{
    let tree = Tree::new(alloc, parse(alloc, text, Mode::View)?)?;
    Ok(Work {
        alloc,
        level: Level { tree, bound: None },
        list: ListId::Root,
        at: 0,
        out: Output::new(alloc),
        opened: Stack::new(alloc)?,
        spent: Spent { nodes: 0, bytes: 0 },
    })
}

/// Goes on until the text is made, or an answer is needed.
fn go_on(saved: &Text, begun: Begun, seen: &Seen, texts: &mut Texts) -> Result<Driven, Memory>
    requires left { IsLeft saved.now begun.work begun.now begun.reads }
    requires answered { Agrees (of_seen seen.now) begun.reads }
    ensures { IfOk result (IsDriven saved.now seen.now) }
{
    done_by_the_reads_alone();
    let Begun { work, now, reads } = begun;
    let mut work = work;
    let mut now = now;
    let mut reads = reads;
    // No substitution has so many steps: each opens one of 1,000,000 nodes, or ends a list of a node that is open.
    'steps: for _step in 0..u64::MAX {
        match now {
            Now::List => match work.step(texts)? {
                Some(next) => {
                    now = next;
                }
                None => {
                    let Work { out, .. } = work;
                    return Ok(Driven::Made(Substituted {
                        saved: saved.share()?,
                        out,
                        reads,
                    }));
                }
            },
            Now::Calls(node, title) => {
                let Some(answer) = seen.get(&title, Kind::Include)? else {
                    let needed = title.share()?;
                    let now = Now::Calls(node, title);
                    return Ok(Driven::Stopped(needed, Begun { work, now, reads }));
                };
                reads.note(&title, answer)?;
                work.call(texts, node, title, text_of(answer))?;
                now = Now::List;
            }
        }
    }
    Err(Memory)
}

/// Begins, or goes on.
fn drive(
    alloc: Global,
    saved: &Text,
    begun: Option<Begun>,
    seen: &Seen,
    texts: &mut Texts,
) -> Result<Driven, Memory>
    requires paused { IsPaused saved.now begun }
    requires answered { Agrees (of_seen seen.now) (reads_of begun) }
    ensures { IfOk result (IsDriven saved.now seen.now) }
{
    if let Some(begun) = begun {
        return go_on(saved, begun, seen, texts);
    }
    let work = at_start(alloc, saved)?;
    let reads = Reads::new(alloc);
    let now = Now::List;
    go_on(saved, Begun { work, now, reads }, seen, texts)
}

impl SubstMachine {
    /// A machine for a text. Nothing is read yet.
    pub fn new(alloc: Global, text: &Text) -> Result<SubstMachine, Memory>
        ensures { IfOk result (λ m. m ≡ record { saved = text.now; reads = [] }) }
    {
        Ok(SubstMachine {
            alloc,
            saved: text.share()?,
            begun: None,
        })
    }

    /// Goes on as far as what was seen allows (MediaWiki's Help:Substitution). What was seen answers what the machine has read
    /// so far: so it does where it has all that was seen before, and more behind it.
    ///
    /// Done with what the text becomes where all that is asked was seen. Else the first title whose page's text wasn't, with the
    /// machine, which goes on from there. Where memory runs out the machine begins anew. `texts` keeps parsed texts from one
    /// run to the next. Nothing is waited for.
    pub fn run(self, seen: &Seen, texts: &mut Texts) -> Result<SubstRan, (SubstMachine, Memory)>
        requires { Agrees (of_seen seen.now) self.reads }
        ensures ran { IfOk result (IsRan self seen.now) }
        ensures again { IfErr result (λ refused. refused.0 ≡ record self { reads = [] }) }
    {
        let SubstMachine {
            alloc,
            saved,
            begun,
        } = self;
        match drive(alloc, &saved, begun, seen, texts) {
            Ok(Driven::Made(made)) => Ok(SubstRan::Done(made)),
            Ok(Driven::Stopped(title, begun)) => {
                let machine = SubstMachine {
                    alloc,
                    saved,
                    begun: Some(begun),
                };
                Ok(SubstRan::Needs(title, machine))
            }
            Err(Memory) => {
                let machine = SubstMachine {
                    alloc,
                    saved,
                    begun: None,
                };
                Err((machine, Memory))
            }
        }
    }
}

/// What a text becomes before it is saved on a page, by the answers that were seen (MediaWiki's Help:Substitution). Which page
/// that is makes no difference.
///
/// Done with what the text becomes where all that is asked was seen. Else the first title whose page's text wasn't seen.
/// Nothing is waited for.
pub fn substitute(
    alloc: Global,
    page: &Title,
    text: &Text,
    seen: &Seen,
) -> Result<SubstStep, Memory>
    ensures { IfOk result (IsStep text.now seen.now) }
{
    let _page = page;
    let mut texts = Texts::new(alloc);
    let machine = SubstMachine::new(alloc, text)?;
    match machine.run(seen, &mut texts) {
        Ok(SubstRan::Done(made)) => Ok(SubstStep::Done(made)),
        Ok(SubstRan::Needs(title, _machine)) => Ok(SubstStep::Needs(title)),
        Err((_machine, memory)) => Err(memory),
    }
}
