//! What an expansion has begun and not ended: the nodes that are open within each other, and the list that is expanded.
ghost use Rattle.std.specs.Prelude.{◌≡◌, IfOk};

use crate::search::Searching;
use std::alloc::Global;
use std::marker::Model;
use wk_args::Args;
use wk_bytes::Text;
use wk_frames::{Bound, Level};
use wk_memory::Memory;
use wk_out::Out;
use wk_title::Title;
use wk_tree::{ListId, NodeId};
use wk_view_rules::Kind;

/// A list of the innermost text that is expanded up to an item, behind an output.
#[derive(Drop)]
pub struct Listing {
    /// The list.
    pub list: ListId,
    /// The next item.
    pub at: usize,
    /// The output so far.
    pub out: Out,
}

/// What is done with a further part that is expanded whole.
#[derive(Drop)]
pub enum Use {
    /// It is what the node gives.
    Whole,
    /// It is what the node gives, trimmed.
    Operand,
    /// It is the second operand of an equality, of which this is the first.
    Second(Out),
    /// It is a part of a template that is given as it is written, before the part of this number.
    Written(usize),
}

/// A page that is included in the place of a title, once its arguments are bound: the text that stands under `source`.
#[derive(Drop)]
pub struct Inclusion {
    /// The title that was called.
    pub title: Title,
    /// The title under which the text stands.
    pub source: Title,
    /// The text.
    pub text: Text,
}

/// The same in memory of its own, so that little is handed on from step to step.
#[derive(Drop)]
pub struct Included {
    page: Box<Inclusion>,
}

impl Model for Included {
    ghost use Rattle.wk_expand.specs.declared.stack.Inclusion.{Inclusion};

    ghost Value = { Inclusion };

    ghost view = { λ p. p.page.value };
}

impl Included {
    /// The page, in memory of its own.
    pub fn new(alloc: Global, page: Inclusion) -> Result<Included, Memory>
        ensures { IfOk result (λ included. included ≡ page) }
    {
        let page = Box::new(alloc, page)?;
        Ok(Included { page })
    }

    /// The page itself. Takes no memory.
    pub fn found(self) -> Inclusion
        ensures { result ≡ self }
    {
        Box::into_inner(self.page)
    }
}

/// What of a template's further parts is bound.
#[derive(Drop)]
pub struct Binder {
    /// What is bound.
    pub args: Args<Bound>,
    /// How many parts without a name were bound.
    pub numbered: u64,
    /// The next part.
    pub at: usize,
}

/// What an open node does with the output of a list that is expanded for it.
#[derive(Drop)]
pub enum Waiting {
    /// It is the name that the title part gives.
    Title,
    /// It is the value of an argument, given by its name or not. It stands in the text behind this page.
    Value(Level, bool),
    /// It is the name of a further part, with what stands before it; the part's value is this list.
    Name(ListId, Use),
    /// It is a further part, with what stands before it.
    Part(Use),
    /// It is a name that is bound to this value, before the further parts that are bound next.
    Binding(Included, Binder, Bound),
    /// It is the text of the page that is included in this title's place.
    Included(Title),
    /// It is an item of a `#switch` without an equals sign, before the part of this number.
    Bare(Searching, usize),
    /// It is the name of an item of a `#switch`, before the part of this number; the item's value is this list.
    Named(Searching, usize, ListId),
}

/// What a node is about to do, with no list that is expanded for it.
#[derive(Drop)]
pub enum Pending {
    /// The title part gives this name.
    Named(Out),
    /// The page of the first title redirects to the second, whose text is included in the first one's place.
    Target(Title, Title),
    /// The further parts are bound, and then the page is included.
    Binds(Included, Binder),
}

/// What a node does next.
#[derive(Drop)]
pub enum Next {
    /// This is its output.
    Gives(Out),
    /// It waits for the output of a list, which begins with this output.
    Expands(Waiting, ListId, Out),
    /// It goes on without a list.
    Goes(Pending),
}

/// A node that is open and waits for an output, and the list in which it stands, up to behind the node.
#[derive(Drop)]
pub struct Opened {
    /// The node.
    pub node: NodeId,
    /// The list, whose next item stands behind the node.
    pub behind: Listing,
    /// What it waits for.
    pub waiting: Waiting,
}

/// What is carried out now.
#[derive(Drop)]
pub enum Now {
    /// The list is expanded.
    List,
    /// A node is opened, behind which the list's next item stands.
    Open(NodeId),
    /// A node goes on, behind which the list's next item stands.
    Node(NodeId, Pending),
}

/// What a step comes to.
#[derive(Drop)]
pub enum Turn {
    /// This is carried out next.
    On(Now),
    /// The expansion is done, with the output of the list.
    Done,
    /// This title wasn't seen with this kind; this is carried out once it is.
    Needs(Title, Kind, Now),
}
