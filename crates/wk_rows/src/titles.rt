//! Titles in title order.
ghost use Rattle.std.specs.Prelude.{◌≡◌, ◌++◌, OnOk, IfOk};
ghost use Rattle.wk_view_rules.specs.Rows.{titles_in_order};
ghost use Rattle.wk_view_rules.specs.declared.Kind.TheVariants.{Exists};
ghost use Rattle.wk_rows.specs.Titles.{titles_asked, titles_linked, with_title, with_titles};

use std::alloc::Global;
use std::collections::BTreeSet;
use wk_expand::{Kind, Read};
use wk_links::{Found, What};
use wk_memory::Memory;
use wk_title::Title;

/// Puts the title among those that there are, unless it is there.
fn add(titles: &mut BTreeSet<Title>, title: &Title) -> Result<(), Memory>
    ensures { OnOk result (titles.new.keys ≡ with_title titles.old.keys title.now) }
{
    titles.insert(title.share()?)?;
    Ok(())
}

/// Puts the titles that were read with the kind among those that there are.
fn add_read(titles: &mut BTreeSet<Title>, reads: &[Read], kind: Kind) -> Result<(), Memory>
    ensures { OnOk result (titles.new.keys ≡ with_titles titles.old.keys (titles_asked kind reads.now)) }
{
    for read in reads {
        if read.kind == kind {
            add(titles, &read.title)?;
        }
    }
    Ok(())
}

/// Puts the titles of the pages that are linked to among those that there are.
fn add_linked(titles: &mut BTreeSet<Title>, found: &[Found]) -> Result<(), Memory>
    ensures { OnOk result (titles.new.keys ≡ with_titles titles.old.keys (titles_linked found.now)) }
{
    for link in found {
        if let What::Page(title) = &link.what {
            add(titles, title)?;
        }
    }
    Ok(())
}

/// The titles, in their order.
fn listed(alloc: Global, titles: BTreeSet<Title>) -> Result<Vec<Title>, Memory>
    ensures { IfOk result (λ listed. listed.items ≡ titles.keys) }
{
    Ok(titles.into_iter().collect(alloc)?)
}

/// The titles that were read with the kind, in their order.
pub fn titles_read(alloc: Global, reads: &[Read], kind: Kind) -> Result<Vec<Title>, Memory>
    ensures { IfOk result (λ titles. titles.items ≡ titles_in_order (titles_asked kind reads.now)) }
{
    let mut titles = BTreeSet::new(alloc);
    add_read(&mut titles, reads, kind)?;
    listed(alloc, titles)
}

/// The titles that are linked to, with those that were tested for existence, in their order.
pub fn titles_linked(alloc: Global, found: &[Found], reads: &[Read]) -> Result<Vec<Title>, Memory>
    ensures { IfOk result
        (λ titles. titles.items ≡ titles_in_order (titles_linked found.now ++ titles_asked Exists reads.now)) }
{
    let mut titles = BTreeSet::new(alloc);
    add_linked(&mut titles, found)?;
    add_read(&mut titles, reads, Kind::Exists)?;
    listed(alloc, titles)
}
