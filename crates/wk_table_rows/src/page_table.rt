//! A table of rows, kept by page where its rows are in the order of their pages.
ghost use Rattle.std.specs.Prelude.{◌≡◌, ℕ, ℤ, ◌+◌, ◌≤◌, ◌<◌, ◌==◌, ◌++◌, ◌∷◌, [], true, IfOk, IfSome, OnOk, map, length, position, Some, None, option_map, vec_len, vec_capacity};
ghost use Rattle.std.specs.List.{All, flat_map};
ghost use Rattle.wk_table_rules.specs.Changes.{with_rows_of};
ghost use Rattle.wk_table_rows.specs.PageTable.{IsByPage, IsCut, IsOfPages, KeepsTable, items_of, pages_held, rows_held, slot_rows};
ghost use Rattle.wk_table_rows.specs.Rising.{IsRising};

use crate::number::Numbered;
use crate::own_rows::{bring_forward, place_behind, take_end, take_out};
use crate::rows::PageRow;
use crate::share::{Share, share_all};
use std::alloc::Global;
use std::marker::Model;
use wk_memory::Memory;

/// A row of a page, which is made of an item. Its number is that of the page.
pub trait RowOf<I>: Numbered + Share {
    /// The row of the page with this number, whose title is in this namespace.
    ghost row_of: { ℕ → ℤ → I → Self };

    /// The row of the page with this number, whose title is in this namespace. Takes no memory.
    fn row_of(page: u64, namespace: i64, item: I) -> Self
        ensures { result ≡ row_of page namespace item };

    ghost is_of: { (page : ℕ) (namespace : ℤ) (item : I) → Self.Numbered.number (row_of page namespace item) ≡ page };
}

/// What the rows of a page are made of.
#[derive(Drop)]
pub enum Items<I> {
    Many(Vec<I>),
    One(I),
}

impl<I: Drop> Items<I> {
    fn len(&self) -> usize
        ensures { result ≡ length (items_of self.now) }
    {
        match self {
            Items::Many(items) => items.len(),
            Items::One(_) => 1,
        }
    }
}

/// The rows of one page: as a change brought them, with the namespace of the page's title, or as they were loaded.
#[derive(Drop)]
enum Brought<R, I> {
    Changed(i64, Items<I>),
    Loaded(Vec<R>),
}

/// A page and its rows.
#[derive(Drop)]
struct PageSlot<R, I> {
    page: u64,
    rows: Brought<R, I>,
}

/// The rows by page, or one after the other.
#[derive(Drop)]
enum Form<R, I> {
    /// A slot for each page, whose numbers rise.
    ByPage(Vec<PageSlot<R, I>>),
    InRows(Vec<R>),
}

/// A table of rows of pages.
///
/// Where the rows are in the order of their pages, they are kept by page, so that a change of a page's rows moves no
/// others. Elsewhere they are kept as they came, and a change goes over all of them.
#[derive(Drop)]
pub struct PageTable<R: RowOf<I>, I: Share> {
    form: Form<R, I>,
    spare: usize,
}

impl<R: RowOf<I>, I: Share> Model for PageTable<R, I> {
    ghost use Rattle.wk_table_rows.specs.TableHeld.{TableHeld};

    ghost Value = { TableHeld R };

    ghost use Rattle.wk_table_rows.specs.PageTable.{rows_held, pages_held, KeepsTable};

    ghost view = { λ t. record { rows = rows_held R.row_of t.form; pages = pages_held t.form; spare = t.spare } };

    ghost invariant = { λ t. KeepsTable R.row_of R.number t.form t.spare };
}

impl<R: RowOf<I>, I: Share> PageTable<R, I> {
    /// No rows and no pages. Takes no memory.
    pub fn new(alloc: Global) -> PageTable<R, I>
        ensures { result ≡ record { rows = []; pages = Some []; spare = 0 } }
    {
        PageTable {
            form: Form::ByPage(Vec::new(alloc)),
            spare: 0,
        }
    }

    /// These rows, of these pages. Where the numbers of the pages rise, and the pages of the rows are in their order, the
    /// rows are kept by page; elsewhere they are kept as they come.
    pub fn from_rows(
        alloc: Global,
        pages: &[PageRow],
        is_in_order: bool,
        rows: Vec<R>,
    ) -> Result<PageTable<R, I>, Memory>
        requires { is_in_order ≡ true → IsRising (λ page. page.page_id) pages.now }
        ensures rows { IfOk result (λ table. table.rows ≡ rows.items) }
        ensures pages { IfOk result (λ table. IsOfPages table pages.now) }
    {
        if is_in_order {
            by_page(alloc, pages, rows)
        } else {
            Ok(in_rows(rows))
        }
    }

    /// The rows, for a further owner.
    pub fn rows(&self) -> Result<Vec<R>, Memory>
        ensures { IfOk result (λ rows. rows.items ≡ self.now.rows) }
    {
        match &self.form {
            Form::ByPage(slots) => joined(*slots.allocator(), slots),
            Form::InRows(rows) => share_all(*rows.allocator(), rows),
        }
    }

    /// Makes room for this many rows or pages more than there are. Room that was there before stays.
    pub fn reserve(&mut self, more: usize) -> Result<(), Memory>
        ensures rows { self.new.rows ≡ self.old.rows }
        ensures pages { self.new.pages ≡ self.old.pages }
        ensures room { OnOk result (more ≤ self.new.spare) }
        ensures not_less { self.old.spare ≤ self.new.spare }
    {
        reserve_form(&mut self.form, more)?;
        self.spare = self.spare.max(more);
        Ok(())
    }

    /// Adds a page without rows, above all pages, where the rows are kept by page. Takes no memory.
    pub fn add_page(&mut self, page: u64)
        requires room { 0 < self.old.spare }
        requires above { IfSome self.old.pages (All (λ earlier. earlier < page)) }
        ensures rows { self.new.rows ≡ self.old.rows }
        ensures pages { self.new.pages ≡ option_map (λ pages. pages ++ page ∷ []) self.old.pages }
        ensures spare { self.new.spare + 1 ≡ self.old.spare }
    {
        add_slot(&mut self.form, page);
        self.spare -= 1;
    }

    /// Makes the rows of these items all rows of the page, which stands at this place among the pages where the rows are
    /// kept by page, and whose title is in this namespace. Takes no memory.
    pub fn set(&mut self, place: usize, page: u64, namespace: i64, items: Items<I>)
        requires room { length (items_of items) ≤ self.old.spare }
        requires at { IfSome self.old.pages (λ pages. position (λ other. other == page) pages ≡ Some place) }
        ensures rows { self.new.rows ≡ with_rows_of R.number page self.old.rows (map (R.row_of page namespace) (items_of items)) }
        ensures pages { self.new.pages ≡ self.old.pages }
        ensures spare { self.new.spare + length (items_of items) ≡ self.old.spare }
    {
        self.spare -= items.len();
        set_form(&mut self.form, place, page, namespace, items);
    }
}

/// These rows, as they come.
fn in_rows<R: RowOf<I>, I: Share>(rows: Vec<R>) -> PageTable<R, I>
    ensures { result ≡ record { rows = rows.items; pages = None; spare = 0 } }
{
    PageTable {
        form: Form::InRows(rows),
        spare: 0,
    }
}

/// These rows by page, unless some are of no page or out of order.
fn by_page<R: RowOf<I>, I: Share>(
    alloc: Global,
    pages: &[PageRow],
    mut rows: Vec<R>,
) -> Result<PageTable<R, I>, Memory>
    requires { IsRising (λ page. page.page_id) pages.now }
    ensures rows { IfOk result (λ table. table.rows ≡ rows.items) }
    ensures pages { IfOk result (λ table. IsOfPages table pages.now) }
{
    let slots = cut_by_page(alloc, pages, &mut rows)?;
    if rows.is_empty() {
        return Ok(PageTable {
            form: Form::ByPage(slots),
            spare: 0,
        });
    }
    push_slots(&mut rows, &slots)?;
    Ok(in_rows(rows))
}

/// The slots of these pages, with the rows that stand at the end of the table, which go.
fn cut_by_page<R: RowOf<I>, I: Share>(
    alloc: Global,
    pages: &[PageRow],
    rows: &mut Vec<R>,
) -> Result<Vec<PageSlot<R, I>>, Memory>
    ensures { IfOk result (λ slots. IsCut R.row_of R.number rows.old.items rows.new.items slots.items (map (λ page. page.page_id) pages.now)) }
{
    let mut slots = Vec::with_capacity(alloc, pages.len())?;
    for i in 0..pages.len() {
        let row = &pages[pages.len() - 1 - i];
        let page = row.page_id;
        let own = take_end(rows, page)?;
        slots.push(PageSlot {
            page,
            rows: Brought::Loaded(own),
        })?;
    }
    slots.reverse();
    Ok(slots)
}

/// The rows of these pages, one page after the other.
fn joined<R: RowOf<I>, I: Share>(alloc: Global, slots: &[PageSlot<R, I>]) -> Result<Vec<R>, Memory>
    ensures { IfOk result (λ rows. rows.items ≡ flat_map (slot_rows R.row_of) slots.now) }
{
    let mut rows = Vec::new(alloc);
    push_slots(&mut rows, slots)?;
    Ok(rows)
}

/// Appends the rows of these pages, one page after the other.
fn push_slots<R: RowOf<I>, I: Share>(
    out: &mut Vec<R>,
    slots: &[PageSlot<R, I>],
) -> Result<(), Memory>
    ensures { OnOk result (out.new.items ≡ out.old.items ++ flat_map (slot_rows R.row_of) slots.now) }
{
    for slot in slots {
        push_slot_rows(out, slot)?;
    }
    Ok(())
}

/// Appends the rows of the page.
fn push_slot_rows<R: RowOf<I>, I: Share>(
    out: &mut Vec<R>,
    slot: &PageSlot<R, I>,
) -> Result<(), Memory>
    ensures { OnOk result (out.new.items ≡ out.old.items ++ slot_rows R.row_of slot.now) }
{
    match &slot.rows {
        Brought::Changed(namespace, items) => push_shared(out, slot.page, *namespace, items),
        Brought::Loaded(rows) => push_all(out, rows),
    }
}

/// Appends a row of the page for each item.
fn push_shared<R: RowOf<I>, I: Share>(
    out: &mut Vec<R>,
    page: u64,
    namespace: i64,
    items: &Items<I>,
) -> Result<(), Memory>
    ensures { OnOk result (out.new.items ≡ out.old.items ++ map (R.row_of page namespace) (items_of items.now)) }
{
    match items {
        Items::Many(items) => push_each_shared(out, page, namespace, items),
        Items::One(item) => {
            out.push(R::row_of(page, namespace, item.share()?))?;
            Ok(())
        }
    }
}

/// Appends a row of the page for each item.
fn push_each_shared<R: RowOf<I>, I: Share>(
    out: &mut Vec<R>,
    page: u64,
    namespace: i64,
    items: &[I],
) -> Result<(), Memory>
    ensures { OnOk result (out.new.items ≡ out.old.items ++ map (R.row_of page namespace) items.now) }
{
    for item in items {
        out.push(R::row_of(page, namespace, item.share()?))?;
    }
    Ok(())
}

/// Appends the rows.
fn push_all<R: Share>(out: &mut Vec<R>, rows: &[R]) -> Result<(), Memory>
    ensures { OnOk result (out.new.items ≡ out.old.items ++ rows.now) }
{
    for row in rows {
        out.push(row.share()?)?;
    }
    Ok(())
}

/// Makes room for this many pages or rows more.
fn reserve_form<R: RowOf<I>, I: Share>(form: &mut Form<R, I>, more: usize) -> Result<(), Memory>
    ensures rows { rows_held R.row_of form.new ≡ rows_held R.row_of form.old }
    ensures pages { pages_held form.new ≡ pages_held form.old }
    ensures room { (n : ℕ) → KeepsTable R.row_of R.number form.old n → OnOk result (KeepsTable R.row_of R.number form.new more) }
    ensures kept { (n : ℕ) → KeepsTable R.row_of R.number form.old n → KeepsTable R.row_of R.number form.new n }
{
    match form {
        Form::ByPage(slots) => {
            slots.reserve(more)?;
            Ok(())
        }
        Form::InRows(rows) => {
            rows.reserve(more)?;
            Ok(())
        }
    }
}

/// Adds the slot of a page without rows, above all pages, where the rows are kept by page.
fn add_slot<R: RowOf<I>, I: Share>(form: &mut Form<R, I>, page: u64)
    requires room { KeepsTable R.row_of R.number form.old 1 }
    requires above { IfSome (pages_held form.old) (All (λ earlier. earlier < page)) }
    ensures rows { rows_held R.row_of form.new ≡ rows_held R.row_of form.old }
    ensures pages { pages_held form.new ≡ option_map (λ pages. pages ++ page ∷ []) (pages_held form.old) }
    ensures kept { (n m : ℕ) → n + 1 ≤ m → KeepsTable R.row_of R.number form.old m → KeepsTable R.row_of R.number form.new n }
{
    match form {
        Form::ByPage(slots) => push_slot::<R, I>(slots, page),
        Form::InRows(_) => {}
    }
}

/// Appends the slot of a page without rows.
fn push_slot<R: RowOf<I>, I: Share>(slots: &mut Vec<PageSlot<R, I>>, page: u64)
    requires { vec_len slots.old < vec_capacity slots.old }
    ensures rows { flat_map (slot_rows R.row_of) slots.new.items ≡ flat_map (slot_rows R.row_of) slots.old.items }
    ensures pages { map (λ slot. slot.page) slots.new.items ≡ map (λ slot. slot.page) slots.old.items ++ page ∷ [] }
    ensures kept { All (λ earlier. earlier < page) (map (λ slot. slot.page) slots.old.items) → IsByPage R.row_of R.number slots.old.items → IsByPage R.row_of R.number slots.new.items }
    ensures len { vec_len slots.new ≡ vec_len slots.old + 1 }
    ensures capacity { vec_capacity slots.new ≡ vec_capacity slots.old }
{
    let rows = Brought::Loaded(Vec::new(*slots.allocator()));
    slots.push_reserved(PageSlot { page, rows });
}

/// Makes the rows of these items all rows of the page.
fn set_form<R: RowOf<I>, I: Share>(
    form: &mut Form<R, I>,
    place: usize,
    page: u64,
    namespace: i64,
    items: Items<I>,
)
    requires room { KeepsTable R.row_of R.number form.old (length (items_of items)) }
    requires at { IfSome (pages_held form.old) (λ pages. position (λ other. other == page) pages ≡ Some place) }
    ensures rows { rows_held R.row_of form.new ≡ with_rows_of R.number page (rows_held R.row_of form.old) (map (R.row_of page namespace) (items_of items)) }
    ensures pages { pages_held form.new ≡ pages_held form.old }
    ensures kept { (n m : ℕ) → n + length (items_of items) ≤ m → KeepsTable R.row_of R.number form.old m → KeepsTable R.row_of R.number form.new n }
{
    match form {
        Form::ByPage(slots) => set_slot::<R, I>(slots, place, page, namespace, items),
        Form::InRows(rows) => set_in_rows(rows, page, namespace, items),
    }
}

/// Makes the rows of these items all rows of the page in its slot, at this place.
fn set_slot<R: RowOf<I>, I: Share>(
    slots: &mut Vec<PageSlot<R, I>>,
    place: usize,
    page: u64,
    namespace: i64,
    items: Items<I>,
)
    requires by_page { IsByPage R.row_of R.number slots.old.items }
    requires at { position (λ slot. slot.page == page) slots.old.items ≡ Some place }
    ensures rows { flat_map (slot_rows R.row_of) slots.new.items ≡ with_rows_of R.number page (flat_map (slot_rows R.row_of) slots.old.items) (map (R.row_of page namespace) (items_of items)) }
    ensures pages { map (λ slot. slot.page) slots.new.items ≡ map (λ slot. slot.page) slots.old.items }
    ensures by_page { IsByPage R.row_of R.number slots.new.items }
    ensures len { vec_len slots.new ≡ vec_len slots.old }
    ensures capacity { vec_capacity slots.new ≡ vec_capacity slots.old }
{
    slots[place] = PageSlot {
        page,
        rows: Brought::Changed(namespace, items),
    };
}

/// Makes the rows of these items all rows of the page, among rows in any order.
fn set_in_rows<R: RowOf<I>, I: Share>(rows: &mut Vec<R>, page: u64, namespace: i64, items: Items<I>)
    requires room { vec_len rows.old + length (items_of items) ≤ vec_capacity rows.old }
    ensures rows { rows.new.items ≡ with_rows_of R.number page rows.old.items (map (R.row_of page namespace) (items_of items)) }
    ensures len { vec_len rows.new ≤ vec_len rows.old + length (items_of items) }
    ensures capacity { vec_capacity rows.new ≡ vec_capacity rows.old }
{
    take_out(rows, page);
    let place = place_behind(rows, page);
    let end = rows.len();
    push_items(rows, page, namespace, items);
    bring_forward(rows, place, end);
}

/// Appends a row of the page for each item. Takes no memory.
fn push_items<R: RowOf<I>, I: Share>(rows: &mut Vec<R>, page: u64, namespace: i64, items: Items<I>)
    requires room { vec_len rows.old + length (items_of items) ≤ vec_capacity rows.old }
    ensures rows { rows.new.items ≡ rows.old.items ++ map (R.row_of page namespace) (items_of items) }
    ensures len { vec_len rows.new ≡ vec_len rows.old + length (items_of items) }
    ensures capacity { vec_capacity rows.new ≡ vec_capacity rows.old }
{
    match items {
        Items::Many(items) => push_each(rows, page, namespace, items),
        Items::One(item) => rows.push_reserved(R::row_of(page, namespace, item)),
    }
}

/// Appends a row of the page for each item. Takes no memory.
fn push_each<R: RowOf<I>, I: Share>(rows: &mut Vec<R>, page: u64, namespace: i64, items: Vec<I>)
    requires room { vec_len rows.old + vec_len items ≤ vec_capacity rows.old }
    ensures rows { rows.new.items ≡ rows.old.items ++ map (R.row_of page namespace) items.items }
    ensures len { vec_len rows.new ≡ vec_len rows.old + vec_len items }
    ensures capacity { vec_capacity rows.new ≡ vec_capacity rows.old }
{
    for item in items {
        rows.push_reserved(R::row_of(page, namespace, item));
    }
}
