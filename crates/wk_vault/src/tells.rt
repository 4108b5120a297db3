//! What is told of a store on the standard error, while it is opened, read and changed. A line that can't be written is left
//! out.
ghost use Rattle.std.specs.Prelude.{◌≡◌, ◌≢◌, ◌↔◌, None, Some, IsSome};
ghost use Rattle.wk_vault.specs.Voices.{told_after};

use wk_sqlkeeper::SqlCause;

/// Tells that the name is a new store.
pub fn tell_new(rt: &HostRuntime, name: &str) {
    let _ = eprintln!(rt; "wiki: {name} is a new store");
}

/// Tells how many frames of the log are left out, if any.
pub fn tell_lost(rt: &HostRuntime, name: &str, lost: u64) {
    if lost > 0 {
        let _ = eprintln!(rt;
            "wiki: {name}-wal isn't whole: {lost} frames behind its last whole transaction don't fit and are left out"
        );
    }
}

/// What is told of a change.
#[derive(Clone, Copy)]
pub enum News {
    /// It can't be stored, for this cause.
    Fails(SqlCause),
    /// Changes are stored again.
    Again,
}

/// What is told of a change that was refused for this cause, or was stored, where the last that was told since a change was
/// stored is that changes are refused for the other one: a cause is told once, until a change is stored. Want of memory is
/// no fault of the store.
fn news_of(told: Option<SqlCause>, cause: Option<SqlCause>) -> Option<News>
    ensures fails { (why : _) → (result ≡ Some (News.Fails why)) ↔ ((cause ≡ Some why) × (why ≢ SqlCause.Memory) × (told ≢ Some why)) }
    ensures again { (result ≡ Some News.Again) ↔ (IsSome told × (cause ≡ None)) }
{
    match cause {
        None => match told {
            None => None,
            Some(_) => Some(News::Again),
        },
        Some(SqlCause::Memory) => None,
        Some(why) => {
            if told == Some(why) {
                None
            } else {
                Some(News::Fails(why))
            }
        }
    }
}

/// What was told last, behind that change.
fn told_after(told: Option<SqlCause>, cause: Option<SqlCause>) -> Option<SqlCause>
    ensures { result ≡ told_after told cause }
{
    match cause {
        None => None,
        Some(SqlCause::Memory) => told,
        Some(why) => Some(why),
    }
}

fn tell_news(rt: &HostRuntime, news: Option<News>) {
    match news {
        None => {}
        Some(News::Fails(cause)) => {
            let _ = eprintln!(rt; "wiki: a change can't be stored: {cause}");
        }
        Some(News::Again) => {
            let _ = eprintln!(rt; "wiki: changes are stored again");
        }
    }
}

/// What tells of a store's calls that fail: each cause once where changes can't be stored, and once that they are again.
#[derive(Clone, Copy)]
pub struct Voice {
    rt: HostRuntime,
    /// Why changes can't be stored, as it was told since the last one that was stored.
    told: Option<SqlCause>,
}

impl Voice {
    /// Before the first change.
    pub fn new(rt: &HostRuntime) -> Voice
        ensures { result.told ≡ None }
    {
        Voice {
            rt: *rt,
            told: None,
        }
    }

    /// Hears why a change was refused, if it was.
    pub fn hear(&mut self, cause: Option<SqlCause>)
        ensures { self.new.told ≡ told_after self.old.told cause }
    {
        let news = news_of(self.told, cause);
        self.told = told_after(self.told, cause);
        tell_news(&self.rt, news);
    }

    /// Hears why the tables weren't given, if they weren't. It is told each time, but for want of memory.
    pub fn hear_load(&self, cause: Option<SqlCause>) {
        match cause {
            None | Some(SqlCause::Memory) => {}
            Some(why) => {
                let _ = eprintln!(self.rt; "wiki: the store can't be read: {why}");
            }
        }
    }
}
