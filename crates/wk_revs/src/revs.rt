//! The revisions and pages of a wiki.
ghost use Rattle.std.specs.Prelude.{◌≡◌, ℕ, ◌+◌, ◌<◌, ◌≤◌, [], ◌∷◌, ◌++◌, None, Some, true, length, IfOk, OnOk, OnErr};
ghost use Rattle.std.specs.Option.{option_map};
ghost use Rattle.std.specs.Option.{option_copied};
ghost use Rattle.wk_text_rules.specs.Titles.{is_page_title};
ghost use Rattle.wk_page_rules.specs.History.{can_save, no_history, current_revision, next_revision, page_number, page_to_save, saved};
ghost use Rattle.wk_page_rules.specs.Verdict.{body_bytes, judged, judged_at, limit_passed, max_pages, max_text};
ghost use Rattle.wk_wiki_rules.specs.Revisions.{count_existing, newest_below};
ghost use Rattle.wk_wiki_rules.specs.States.{page_at};
ghost use Rattle.wk_wiki_rules.specs.Entries.{revision_at};
ghost use Rattle.wk_revs.specs.Edit.{edit_asked, most_held};
ghost use Rattle.wk_revs.specs.Revs.{existing_in, of_pages, pages_of};
ghost use Rattle.wk_revs.specs.Standing.{standing as standing_of};
ghost use Rattle.wk_revs.specs.Verdict.{CanAdd, IfAccept, verdict_of};

use crate::chains::Chains;
use crate::edit::{Edit, Limits};
use crate::kept_text::kept;
use crate::pages::Pages;
use crate::revisions::Revision;
use crate::standing::Standing;
use crate::verdict::{SaveRefusal, Verdict, body_len, is_conflict, is_same_text, real_title};
use crate::{pages, revisions};
use indexmap::IndexMap;
use std::alloc::Global;
use std::marker::Model;
use wk_bytes::Text;
use wk_good_rows::MAX_TEXT;
use wk_memory::Memory;
use wk_page_rules::Limit;
use wk_title::Title;

/// The revisions and pages of a wiki. Contracts see the history of its saves, and for how many revisions more there
/// is room. But for `make_room`, no call takes a time that grows with the pages or the revisions, other than with the
/// logarithm of the number of one page's revisions. `judge` goes over the edit and the page's text besides.
#[derive(Drop)]
pub struct Revs {
    revisions: Vec<Revision>,
    pages: Pages,
    chains: Chains,
    /// The bytes of all texts, `None` where they are 2^64 or more.
    texts: Option<u64>,
    /// The number of pages that exist.
    existing: usize,
    spare: usize,
}

impl Model for Revs {
    ghost use Rattle.std.specs.Prelude.{◌≡◌, ◌+◌, ◌<◌, ◌≤◌, ◌^◌, length, vec_len, vec_capacity};
    ghost use Rattle.std.specs.Option.{SomeIff};
    ghost use Rattle.indexmap.specs.IndexMap.{spare as room_for};
    ghost use Rattle.wk_page_rules.specs.History.{text_bytes};
    ghost use Rattle.wk_page_rules.specs.Verdict.{max_pages};
    ghost use Rattle.wk_revs.specs.Revs.{Stored, existing_in, of_revisions, owners, pages_of};

    ghost Value = { Stored };

    ghost view = { λ r. record { history = record { revisions = r.revisions.items; pages = pages_of r.pages.entries }; spare = r.spare } };

    ghost invariant = { λ r. (r.spare + vec_len r.revisions ≤ vec_capacity r.revisions)
        × (r.spare ≤ room_for r.pages) × (r.spare ≤ r.chains.spare)
        × (length r.pages.entries ≤ max_pages) × (r.chains.count ≡ length r.pages.entries)
        × (r.chains.pages ≡ owners r.revisions.items) × (r.existing ≡ existing_in r.pages.entries)
        × SomeIff r.texts (text_bytes (of_revisions r.revisions.items) < 2 ^ 64) (text_bytes (of_revisions r.revisions.items)) };
}

impl Revs {
    /// No revisions and no pages, and no room. Takes no memory.
    pub fn new(alloc: Global) -> Revs
        ensures { result ≡ record { history = no_history; spare = 0 } }
    {
        Revs {
            revisions: Vec::new(alloc),
            pages: IndexMap::new(alloc),
            chains: Chains::new(alloc),
            texts: Some(0),
            existing: 0,
            spare: 0,
        }
    }

    /// These pages, of which so many exist, before any of their revisions, and no room.
    pub(crate) fn of_pages(alloc: Global, pages: Pages, existing: usize) -> Result<Revs, Memory>
        requires few { length pages.entries ≤ max_pages }
        requires existing { existing ≡ existing_in pages.entries }
        ensures { IfOk result (λ revs. revs ≡ record { history = of_pages (pages_of pages.entries); spare = 0 }) }
    {
        let chains = Chains::of_pages(alloc, pages.len())?;
        Ok(Revs {
            revisions: Vec::new(alloc),
            pages,
            chains,
            texts: Some(0),
            existing,
            spare: 0,
        })
    }

    /// Appends a revision that is among those of the pages already. Takes no memory.
    pub(crate) fn append(&mut self, page: u32, parent: u64, moment: u64, text: Option<Text>)
        requires room { 0 < self.old.spare }
        requires some { 0 < page }
        requires within { page ≤ length self.old.history.pages }
        ensures revisions { self.new.history.revisions ≡ self.old.history.revisions
            ++ record { page = page; parent = parent; moment = moment; text = text } ∷ [] }
        ensures pages { self.new.history.pages ≡ self.old.history.pages }
        ensures spare { self.new.spare + 1 ≡ self.old.spare }
    {
        let bytes = body_len(&text);
        let spare = self.spare - 1;
        self.texts = revisions::sum_of(self.texts, bytes);
        self.chains.push(page);
        self.revisions
            .push_reserved(Revision::new(page, parent, moment, text));
        self.spare = spare;
    }

    /// Makes room for this many revisions more than there are. Room that was there before stays.
    pub fn make_room(&mut self, revisions: usize) -> Result<(), Memory>
        ensures history { self.new.history ≡ self.old.history }
        ensures room { OnOk result (revisions ≤ self.new.spare) }
        ensures not_less { self.old.spare ≤ self.new.spare }
        ensures err { OnErr result (self.new ≡ self.old) }
    {
        self.revisions.reserve(revisions)?;
        self.pages.reserve(revisions)?;
        self.chains.make_room(revisions)?;
        self.spare = self.spare.max(revisions);
        Ok(())
    }

    /// Saves the text as the title's current revision, or a deletion where there is none, at this many seconds since
    /// 1970, and gives the revision's number. Takes no memory.
    #[tactic(auto, using(crate::proofs::PageLaws::existing_within))]
    pub fn add(&mut self, title: Title, text: Option<Text>, now: u64) -> u64
        requires room { 0 < self.old.spare }
        requires possible { can_save self.old.history title text ≡ true }
        requires fits { page_number self.old.history title ≡ None → length self.old.history.pages < max_pages }
        ensures history { self.new.history ≡ saved self.old.history title text now }
        ensures number { result ≡ next_revision self.old.history }
        ensures spare { self.new.spare + 1 ≡ self.old.spare }
    {
        let number = self.next_revision();
        // A deletion leaves the page missing.
        let current = if text.is_some() { number } else { 0 };
        let (page, parent) = pages::put_current(&mut self.pages, title, current);
        self.existing = pages::existing_after(self.existing, parent, current);
        self.texts = revisions::sum_of(self.texts, body_len(&text));
        self.chains.push(page);
        self.revisions
            .push_reserved(Revision::new(page, parent, now, text));
        self.spare -= 1;
        number
    }

    /// What stands of the title, and what a save of it makes, by one search of the pages. Takes no memory.
    pub fn standing(&self, title: &Title) -> Standing
        ensures { result ≡ standing_of self.now.history title.now }
    {
        let next = self.next_revision();
        match pages::found(&self.pages, title) {
            Some((page, current)) => Standing {
                page: Some(page),
                to_save: page,
                current,
                next,
            },
            None => Standing {
                page: None,
                to_save: self.pages.len() as u32 + 1,
                current: 0,
                next,
            },
        }
    }

    /// The number of the title's page, or `None` exactly where no save of the title was ever made. Takes no memory.
    pub fn page(&self, title: &Title) -> Option<u32>
        ensures { result ≡ page_number self.now.history title.now }
    {
        self.standing(title).page
    }

    /// The page's current revision, 0 where the page is missing. Takes no memory.
    pub fn current(&self, title: &Title) -> u64
        ensures { result ≡ current_revision self.now.history title.now }
    {
        self.standing(title).current
    }

    /// The number that the title's page has, or would get by a save. Takes no memory.
    pub fn page_to_save(&self, title: &Title) -> u32
        ensures { result ≡ page_to_save self.now.history title.now }
    {
        self.standing(title).to_save
    }

    /// The number that the next revision gets. Takes no memory.
    pub fn next_revision(&self) -> u64
        ensures { result ≡ next_revision self.now.history }
    {
        self.revisions.len() as u64 + 1
    }

    /// The revision with this number, `None` exactly where there is none. Takes no memory.
    pub fn revision(&self, number: u64) -> Option<&Revision>
        ensures { option_copied result ≡ revision_at self.now.history number }
    {
        revisions::revision_at(&self.revisions, number)
    }

    /// The title and the current revision, 0 where it is missing, of the page with this number, `None` exactly where
    /// there is none. Takes no memory.
    pub fn page_at(&self, number: u32) -> Option<(&Title, u64)>
        ensures { option_map (λ page. record { title = page.0.now; current = page.1 }) result ≡ page_at self.now.history number }
    {
        pages::page_at(&self.pages, number)
    }

    /// How many pages there are, those that are missing now among them. Takes no memory.
    pub fn page_count(&self) -> usize
        ensures { result ≡ length self.now.history.pages }
    {
        self.pages.len()
    }

    /// How many pages exist. Takes no memory.
    #[tactic(auto, using(crate::proofs::PageLaws::existing_is))]
    pub fn existing_count(&self) -> usize
        ensures { result ≡ count_existing self.now.history }
    {
        self.existing
    }

    /// The page's newest revision below this number, deletions among them, `None` exactly where there is none. It is
    /// found in one step where the number is the page's newest revision or any other of its own, else in about as many
    /// as the logarithm of the number of the page's revisions. Takes no memory.
    #[tactic(auto, using(crate::proofs::NewestLaws::newest_is))]
    pub fn newest_below(&self, page: u32, number: u64) -> Option<u64>
        ensures { result ≡ newest_below self.now.history page number }
    {
        match self.chains.newest_up_to(page, number.saturating_sub(1)) {
            0 => None,
            newest => Some(newest),
        }
    }

    /// The first limit that a save of this body under this title, of which this stands, would pass.
    fn limit_passed(
        &self,
        limits: &Limits,
        standing: Standing,
        title: &Title,
        body: &Option<Text>,
    ) -> Option<Limit>
        requires { standing ≡ standing_of self.now.history title.now }
        ensures { result ≡ limit_passed self.now.history (most_held limits.now) title.now body.now }
    {
        if standing.page.is_none() && limits.pages <= self.pages.len() as u64 {
            return Some(Limit::Pages);
        }
        if limits.revisions <= self.revisions.len() as u64 {
            return Some(Limit::Revisions);
        }
        if revisions::is_sum_above(self.texts, body_len(body), limits.text) {
            return Some(Limit::Text);
        }
        None
    }

    /// The verdict once the title is known and the body is as it would be kept.
    fn judge_at(&self, edit: &Edit, limits: &Limits, title: Title, body: Option<Text>) -> Verdict
        requires real { is_page_title title ≡ true }
        requires small { body_bytes body ≤ max_text }
        ensures verdict { verdict_of result
            ≡ Some (judged_at self.now.history (most_held limits.now) (edit_asked edit.now) title body) }
        ensures accept { IfAccept result (CanAdd self.now.history (most_held limits.now)) }
    {
        let standing = self.standing(&title);
        let current = standing.current;
        if edit.create_only && current != 0 {
            return Verdict::Refuse(SaveRefusal::ArticleExists);
        }
        if (edit.no_create || body.is_none()) && current == 0 {
            return Verdict::Refuse(SaveRefusal::MissingTitle);
        }
        if is_conflict(edit.base, current) {
            return Verdict::Refuse(SaveRefusal::EditConflict { current });
        }
        if is_same_text(revisions::text_of_revision(&self.revisions, current), &body) {
            return Verdict::NoChange(title);
        }
        match self.limit_passed(limits, standing, &title, &body) {
            Some(limit) => Verdict::Refuse(SaveRefusal::WikiFull(limit)),
            None => Verdict::Accept(title, body),
        }
    }

    /// What becomes of an edit, but for the journal's room: the first that applies of the refusals in their order,
    /// and of `NoChange` behind the edit conflict; else `Accept`. `JournalFull`, `Memory` and `StoreFault` are never
    /// among them.
    pub fn judge(&self, alloc: Global, edit: &Edit, limits: &Limits) -> Result<Verdict, Memory>
        ensures verdict { IfOk result (λ verdict. verdict_of verdict
            ≡ Some (judged self.now.history (most_held limits.now) (edit_asked edit.now))) }

        // What is accepted can be added.
        ensures accept { IfOk result (λ verdict. IfAccept verdict (CanAdd self.now.history (most_held limits.now))) }
    {
        let Some(title) = real_title(alloc, &edit.title)? else {
            return Ok(Verdict::Refuse(SaveRefusal::InvalidTitle));
        };
        let Some(body) = &edit.body else {
            return Ok(self.judge_at(edit, limits, title, None));
        };
        let body = kept(alloc, body)?;
        if MAX_TEXT < body.len() {
            return Ok(Verdict::Refuse(SaveRefusal::ContentTooBig));
        }
        let body = Text::new(alloc, &body)?;
        Ok(self.judge_at(edit, limits, title, Some(body)))
    }
}
