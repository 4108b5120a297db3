//! What is read in a replica. Where it is stopped nothing is: memory is wanting then, or nothing is found.
ghost use Rattle.std.specs.Prelude.{◌≡◌, ℕ, false, length, IfOk, IfSome, None};
ghost use Rattle.serde_json.specs.View.{view};
ghost use Rattle.wk_text_rules.specs.Titles.{PageTitle};
ghost use Rattle.wk_wiki_rules.specs.States.{world_of};
ghost use Rattle.wk_wiki_rules.specs.Passes.{shown_number};
ghost use Rattle.wk_life_laws.specs.Caches.{IsLastingEntry};
ghost use Rattle.wk_life_laws.specs.Runs.{IsRun};
ghost use Rattle.wk_cache.specs.Entries.{entry_kept};
ghost use Rattle.wk_expand.specs.Answers.{answer_of};
ghost use Rattle.wk_expand.specs.Steps.{given_text};
ghost use Rattle.wk_live.specs.Drafted.{IsPresent};
ghost use Rattle.wk_read_laws.specs.Points.{AreReadSince};
ghost use Rattle.wk_request.specs.Asked.{request_asked};
ghost use Rattle.wk_shared.specs.Looks.{TellsCurrent};
ghost use Rattle.wk_replica_reads.specs.Looks.{IsFetched, IsGiven, IsReadIn};

use serde_json::Value;
use std::alloc::Global;
use wk_core::{Answer, Draft, Kept, Kind, PageRead, SharedDraft, Wiki};
use wk_expand::{Root, Trees};
use wk_live::draft_now;
use wk_memory::Memory;
use wk_replica::{MemKeeper, Replica};
use wk_request::Request;
use wk_shared::{Found, found_in};
use wk_title::Title;

/// What is answered to a request.
pub fn answered(replica: &Replica, request: &Request, trees: &mut Trees) -> Result<Value, Memory>
    ensures { IfOk result (λ v. IsGiven replica.now.start.wiki replica.now.journal (request_asked request.now) (view v)) }
{
    replica.facts();
    replica.answer(request, trees)
}

/// What the world answers where the title is asked in this way.
pub fn fetched(replica: &Replica, title: &Title, kind: Kind) -> Result<Answer, Memory>
    ensures { IfOk result (λ answer. IsFetched replica.now.start.wiki replica.now.journal title.now kind (answer_of answer)) }
{
    if replica.stopped() {
        return Err(Memory);
    }
    replica.facts();
    replica.wiki().fetch(title, kind)
}

/// What is found of a draft in a replica that isn't stopped. Takes no memory.
pub fn found_here(replica: &Replica, draft: &Draft) -> Found
    requires { replica.now.stopped ≡ false }
    ensures run { IsRun replica.now.start.wiki replica.now.journal replica.now.state }
    ensures point { result.point ≡ length replica.now.journal }
    ensures id { result.id ≡ shown_number replica.now.state.history draft.now.page }
    ensures current { TellsCurrent (world_of replica.now.state) draft.now.reads result.current }
{
    replica.facts();
    found_in(replica.wiki(), draft)
}

/// Keeps what a page's own text expands to. Where memory runs out it is passed over.
fn keep(replica: &mut Replica, read: &PageRead)
    requires going { replica.old.stopped ≡ false }
    requires read { (page : PageTitle) × IsReadIn replica.old.start.wiki replica.old.journal replica.old.state page None read.now }
    ensures { replica.new ≡ replica.old }
{
    let Ok(draft) = read.draft.share() else {
        return;
    };
    let kept = Kept {
        draft,
        point: read.point,
        uses: 0,
        id: read.id,
    };
    let _refused = replica.keep(kept);
}

/// Keeps what a page's own text expands to, and not what a given text does.
fn keep_own(replica: &mut Replica, read: &PageRead, root: &Root)
    requires going { replica.old.stopped ≡ false }
    requires read { (page : PageTitle) × IsReadIn replica.old.start.wiki replica.old.journal replica.old.state page (given_text root.now) read.now }
    ensures { replica.new ≡ replica.old }
{
    match root {
        Root::Page => keep(replica, read),
        Root::Given(_) => {}
    }
}

/// What is kept of a page, as an answer at the present point, where each of its reads is current. It is kept with that point then.
fn current_of(replica: &mut Replica, kept: Kept) -> Option<PageRead>
    requires going { replica.old.stopped ≡ false }
    requires lasting { IsLastingEntry replica.old.state (entry_kept kept) }
    ensures read { IfSome result (IsReadIn replica.old.start.wiki replica.old.journal replica.old.state kept.draft.page None) }
    ensures same { replica.new ≡ replica.old }
{
    let made = kept.draft.draft();
    let _page = made.page();
    let _reads = made.reads();
    let found = found_here(replica, made);
    if !found.current {
        return None;
    }
    let read = PageRead {
        draft: kept.draft,
        point: found.point,
        id: found.id,
    };
    keep(replica, &read);
    Some(read)
}

/// What the replica keeps of the page, as an answer at the present point, where each of its reads is current.
pub fn find_kept(replica: &mut Replica, title: &Title) -> Option<PageRead>
    ensures read { IfSome result (IsReadIn replica.old.start.wiki replica.old.journal replica.old.state title.now None) }
    ensures same { replica.new ≡ replica.old }
{
    if replica.stopped() {
        return None;
    }
    let Ok(found) = replica.kept(title) else {
        return None;
    };
    let Some(kept) = found else {
        return None;
    };
    current_of(replica, kept)
}

/// The answer that a draft gives, where each of its reads is current. The replica keeps a draft of a page's own text then.
pub fn accepted(replica: &mut Replica, draft: SharedDraft, root: &Root) -> Option<PageRead>
    requires given { draft.given ≡ given_text root.now }
    requires since { (from : ℕ) × AreReadSince replica.old.start.wiki replica.old.journal from draft.reads }
    ensures read { IfSome result (IsReadIn replica.old.start.wiki replica.old.journal replica.old.state draft.page draft.given) }
    ensures same { replica.new ≡ replica.old }
{
    if replica.stopped() {
        return None;
    }
    let made = draft.draft();
    let _page = made.page();
    let _reads = made.reads();
    let found = found_here(replica, made);
    if !found.current {
        return None;
    }
    let read = PageRead {
        draft,
        point: found.point,
        id: found.id,
    };
    keep_own(replica, &read, root);
    Some(read)
}

/// A draft, to be shared.
pub fn shared_draft(alloc: Global, draft: Draft) -> Result<SharedDraft, Memory>
    ensures { IfOk result (λ shared. shared ≡ draft) }
{
    match SharedDraft::new(alloc, draft) {
        Ok(shared) => Ok(shared),
        Err((_draft, memory)) => Err(memory),
    }
}

/// What a page, or a given text in the place of its own, expands to in a wiki.
fn present_draft(
    alloc: Global,
    wiki: &Wiki<MemKeeper>,
    title: &Title,
    root: &Root,
    trees: &mut Trees,
) -> Result<SharedDraft, Memory>
    ensures { IfOk result (IsPresent (world_of wiki.now.state) title.now (given_text root.now)) }
{
    match draft_now(alloc, wiki.live(), title, root, trees) {
        Ok(draft) => shared_draft(alloc, draft),
        Err(memory) => Err(memory),
    }
}

/// What a page, or a given text in the place of its own, expands to now. The replica keeps what a page's own text does.
pub fn drafted_here(
    alloc: Global,
    replica: &mut Replica,
    title: &Title,
    root: &Root,
    trees: &mut Trees,
) -> Result<PageRead, Memory>
    ensures read { IfOk result (IsReadIn replica.old.start.wiki replica.old.journal replica.old.state title.now (given_text root.now)) }
    ensures same { replica.new ≡ replica.old }
{
    if replica.stopped() {
        return Err(Memory);
    }
    let draft = present_draft(alloc, replica.wiki(), title, root, trees)?;
    let found = found_here(replica, draft.draft());
    let read = PageRead {
        draft,
        point: found.point,
        id: found.id,
    };
    keep_own(replica, &read, root);
    Ok(read)
}
