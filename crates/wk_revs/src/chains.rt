//! The revisions of each page, chained from the newest to the oldest.
ghost use Rattle.std.specs.Prelude.{◌≡◌, ℕ, ◌+◌, ◌-◌, ◌<◌, ◌≤◌, ◌∷◌, [], ◌++◌, length, max, get_or, vec_len, vec_capacity, IfOk, OnOk, OnErr};
ghost use Rattle.wk_revs.specs.Chains.{AreChains, IsAbove, IsOwn, no_link, newest_up_to};

use std::alloc::Global;
use std::marker::Model;
use wk_memory::Memory;

/// Where the chain of a revision's page goes on.
#[derive(Clone, Copy)]
struct Link {
    /// The revision before it of its page, 0 where there is none.
    before: u64,
    /// One further back, 0 where there is none. Of two such links of one length in a row the next goes over both, so
    /// that a chain is searched in a logarithm of its length (E. Myers, 'An applicative random-access stack').
    far: u64,
    /// How many revisions its page has up to it.
    depth: u64,
}

/// The link at this place, or none.
fn link_at(links: &[Link], place: usize) -> Link
    ensures { result ≡ get_or links.now place no_link }
{
    match links.get(place) {
        Some(link) => *link,
        None => Link {
            before: 0,
            far: 0,
            depth: 0,
        },
    }
}

/// The link of the revision with this number, and none for 0.
fn link_of(links: &[Link], number: u64) -> Link
    ensures none { number ≡ 0 → result ≡ no_link }
    ensures some { 0 < number → result ≡ get_or links.now (number - 1) no_link }
{
    if number == 0 {
        return Link {
            before: 0,
            far: 0,
            depth: 0,
        };
    }
    link_at(links, number as usize - 1)
}

/// The link of a revision behind this one of its page.
#[tactic(auto, using(crate::proofs::ChainLaws::own_far))]
fn link_behind(pages: &[u32], links: &[Link], newest: &[u64], page: u32, before: u64) -> Link
    requires chains { AreChains pages.now links.now newest.now }
    requires own { IsOwn pages.now page before }
    ensures before { result.before ≡ before }
    ensures far { IsOwn pages.now page result.far }
{
    let link = link_of(links, before);
    let far = link_of(links, link.far);
    let step = link.depth.saturating_sub(far.depth);
    let far_step = far.depth.saturating_sub(link_of(links, far.far).depth);
    let depth = link.depth.saturating_add(1);
    if step == far_step {
        return Link {
            before,
            far: far.far,
            depth,
        };
    }
    Link {
        before,
        far: before,
        depth,
    }
}

/// The newest revision of the page, 0 where it has none.
fn newest_of(newest: &[u64], page: u32) -> u64
    requires { 0 < page }
    ensures { result ≡ get_or newest.now (page - 1) 0 }
{
    match newest.get(page as usize - 1) {
        Some(number) => *number,
        None => 0,
    }
}

/// A revision of the page that isn't below its newest up to the number: the one before the number's, where that is
/// the page's own, so that a listing goes on in one step.
fn start_of_search(pages: &[u32], links: &[Link], newest: &[u64], page: u32, number: u64) -> u64
    requires chains { AreChains pages.now links.now newest.now }
    requires page { 0 < page }
    ensures { IsAbove pages.now page number result }
{
    match pages.get(number as usize) {
        Some(owner) if *owner == page => link_at(links, number as usize).before,
        _ => newest_of(newest, page),
    }
}

/// The page's newest revision with at most this number, 0 where there is none.
#[tactic(auto, using(crate::proofs::ChainLaws::links_fall, crate::proofs::ChainLaws::is_found))]
fn newest_up_to(pages: &[u32], links: &[Link], newest: &[u64], page: u32, number: u64) -> u64
    requires { AreChains pages.now links.now newest.now }
    ensures { result ≡ newest_up_to pages.now page number }
{
    if page == 0 {
        return 0;
    }
    let mut at = start_of_search(pages, links, newest, page, number);
    'back: while number < at {
        let link = link_of(links, at);
        if number < link.far {
            at = link.far;
        } else {
            at = link.before;
        }
    }
    at
}

/// The revisions of each page. Contracts see the page of each revision in turn, and how many pages there are.
#[derive(Drop)]
pub struct Chains {
    pages: Vec<u32>,
    links: Vec<Link>,
    newest: Vec<u64>,
    spare: usize,
}

impl Model for Chains {
    ghost use Rattle.std.specs.Prelude.{◌+◌, ◌≤◌, vec_len, vec_capacity};
    ghost use Rattle.wk_revs.specs.Chains.{AreChains, Chained};

    ghost Value = { Chained };

    ghost view = { λ c. record { pages = c.pages.items; count = vec_len c.newest; spare = c.spare } };

    ghost invariant = { λ c. AreChains c.pages.items c.links.items c.newest.items
        × (c.spare + vec_len c.pages ≤ vec_capacity c.pages) × (c.spare + vec_len c.links ≤ vec_capacity c.links)
        × (c.spare + vec_len c.newest ≤ vec_capacity c.newest) };
}

impl Chains {
    /// No revisions and no pages, and no room. Takes no memory.
    pub fn new(alloc: Global) -> Chains
        ensures { result ≡ record { pages = []; count = 0; spare = 0 } }
    {
        Chains {
            pages: Vec::new(alloc),
            links: Vec::new(alloc),
            newest: Vec::new(alloc),
            spare: 0,
        }
    }

    /// No revisions of so many pages, and no room.
    #[tactic(auto, using(crate::proofs::ChainLaws::chains_none))]
    pub fn of_pages(alloc: Global, count: usize) -> Result<Chains, Memory>
        ensures { IfOk result (λ chains. chains ≡ record { pages = []; count = count; spare = 0 }) }
    {
        Ok(Chains {
            pages: Vec::new(alloc),
            links: Vec::new(alloc),
            newest: vec![in alloc; 0; count]?,
            spare: 0,
        })
    }

    /// Makes room for this many revisions more than there are. Room that was there before stays.
    pub fn make_room(&mut self, revisions: usize) -> Result<(), Memory>
        ensures pages { self.new.pages ≡ self.old.pages }
        ensures count { self.new.count ≡ self.old.count }
        ensures room { OnOk result (revisions ≤ self.new.spare) }
        ensures not_less { self.old.spare ≤ self.new.spare }
        ensures err { OnErr result (self.new ≡ self.old) }
    {
        self.pages.reserve(revisions)?;
        self.links.reserve(revisions)?;
        self.newest.reserve(revisions)?;
        self.spare = self.spare.max(revisions);
        Ok(())
    }

    /// Appends a revision of this page, which may be the next new one. Takes no memory.
    #[tactic(auto, using(crate::proofs::ChainLaws::chains_push))]
    pub fn push(&mut self, page: u32)
        requires room { 0 < self.old.spare }
        requires some { 0 < page }
        requires near { page ≤ self.old.count + 1 }
        ensures pages { self.new.pages ≡ self.old.pages ++ page ∷ [] }
        ensures count { self.new.count ≡ max self.old.count page }
        ensures spare { self.new.spare + 1 ≡ self.old.spare }
    {
        let number = self.pages.len() as u64 + 1;
        let before = newest_of(&self.newest, page);
        let link = link_behind(&self.pages, &self.links, &self.newest, page, before);
        self.pages.push_reserved(page);
        self.links.push_reserved(link);
        put_newest(&mut self.newest, page, number);
        self.spare -= 1;
    }

    /// The page's newest revision with at most this number, 0 where there is none. Takes no memory.
    pub fn newest_up_to(&self, page: u32, number: u64) -> u64
        ensures { result ≡ newest_up_to self.now.pages page number }
    {
        newest_up_to(&self.pages, &self.links, &self.newest, page, number)
    }
}

/// Makes this revision the page's newest, whose page may be the next new one.
fn put_newest(newest: &mut Vec<u64>, page: u32, number: u64)
    requires room { vec_len newest.old < vec_capacity newest.old }
    requires some { 0 < page }
    requires near { page ≤ vec_len newest.old + 1 }
    ensures own { get_or newest.new.items (page - 1) 0 ≡ number }
    ensures others { (q : ℕ) → (q + 1 ≡ page → ⊥) → get_or newest.new.items q 0 ≡ get_or newest.old.items q 0 }
    ensures count { vec_len newest.new ≡ max (vec_len newest.old) page }
    ensures capacity { vec_capacity newest.new ≡ vec_capacity newest.old }
{
    let place = page as usize - 1;
    if place < newest.len() {
        newest[place] = number;
    } else {
        newest.push_reserved(number);
    }
}
