//! The titles of names that were called.
ghost use Rattle.std.specs.Prelude.{◌≡◌, IfOk, IfSome, Some, pos};
ghost use Rattle.wk_text_rules.specs.Titles.{normal};

use crate::hash::hashed;
use std::alloc::Global;
use std::marker::Model;
use wk_memory::Memory;
use wk_title::{TEMPLATE, Title, named};

/// How many names have a place at most.
const MOST_NAMES: usize = 1024;

/// How many bytes a name has at most that is kept.
const MOST_NAME_BYTES: usize = 256;

/// A name that calls a page, a template where it names no namespace, and the page's title.
#[derive(Drop)]
pub struct Called {
    name: String,
    title: Title,
}

impl Model for Called {
    ghost use Rattle.std.specs.Prelude.{◌≡◌, Some, pos, string_bytes};
    ghost use Rattle.wk_text_rules.specs.Titles.{normal};

    ghost Value = { Unit {0} };

    ghost view = { λ c. tt };

    ghost invariant = { λ c. normal (string_bytes c.name) (pos 10) ≡ Some c.title };
}

impl Called {
    fn new(alloc: Global, name: &str, title: &Title) -> Result<Called, Memory>
        requires { normal name.now (pos 10) ≡ Some title.now }
    {
        let name = String::from_str(alloc, name)?;
        let title = title.share()?;
        Ok(Called { name, title })
    }

    /// The title, where the name is this one.
    #[inline(always)]
    fn by(&self, name: &str) -> Result<Option<Title>, Memory>
        ensures { IfOk result (λ found. IfSome found (λ title. normal name.now (pos 10) ≡ Some title)) }
    {
        if self.name.as_str() != name {
            return Ok(None);
        }
        Ok(Some(self.title.share()?))
    }
}

/// Where a name stands among so many places, by the high bits of its hash.
#[inline(always)]
fn place_of(name: &str, count: usize) -> usize {
    let high = hashed(name.len() as u64, name.as_bytes()) >> 32;
    (high.wrapping_mul(count as u64) >> 32) as usize
}

/// Names that were called, each in a place that its bytes give, of those with one place the last (own). A name of more
/// than 256 bytes isn't kept, so that what is kept has a bound.
#[derive(Drop)]
pub struct Names {
    places: Vec<Option<Called>>,
}

impl Names {
    /// Places for so many names at most.
    pub fn new(alloc: Global, most: usize) -> Result<Names, Memory> {
        let mut places = Vec::new(alloc);
        for _ in 0..most.min(MOST_NAMES) {
            places.push(None)?;
        }
        Ok(Names { places })
    }

    /// The title in the place, where that is the name's.
    #[inline(always)]
    fn kept(&self, name: &str, place: usize) -> Result<Option<Title>, Memory>
        ensures { IfOk result (λ found. IfSome found (λ title. normal name.now (pos 10) ≡ Some title)) }
    {
        match self.places.get(place) {
            Some(Some(called)) => called.by(name),
            _ => Ok(None),
        }
    }

    /// Keeps the name in the place.
    fn keep(&mut self, alloc: Global, name: &str, place: usize, title: &Title) -> Result<(), Memory>
        requires { normal name.now (pos 10) ≡ Some title.now }
    {
        if let Some(kept) = self.places.get_mut(place) {
            *kept = Some(Called::new(alloc, name, title)?);
        }
        Ok(())
    }

    /// The title that a name calls, in the namespace Template where it names none. Where memory is wanting to keep it, the
    /// title is given all the same.
    #[inline(always)]
    pub fn called(&mut self, alloc: Global, name: &str) -> Result<Option<Title>, Memory>
        ensures { IfOk result (λ found. found ≡ normal name.now (pos 10)) }
    {
        let count = self.places.as_slice().len();
        if count == 0 || MOST_NAME_BYTES < name.len() {
            return named(alloc, name, TEMPLATE);
        }
        let place = place_of(name, count);
        if let Some(title) = self.kept(name, place)? {
            return Ok(Some(title));
        }
        let Some(title) = named(alloc, name, TEMPLATE)? else {
            return Ok(None);
        };
        let _ = self.keep(alloc, name, place, &title);
        Ok(Some(title))
    }
}
