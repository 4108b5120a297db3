//! Whether what stands at a store's name is opened.
ghost use Rattle.std.specs.Prelude.{◌≡◌, ◌↔◌, IfOk, IsOk, if◌then◌else◌, true};
ghost use Rattle.wk_vault.specs.Opening.{is_alone, is_new, may_open};

use crate::cause::StoreCause;
use crate::start::FileKind;
use wk_wal::LogKind;

/// What is done where there is no store, and nothing beside the name.
fn made_if(makes: bool) -> Result<bool, StoreCause>
    ensures { result ≡ if makes then Ok true else Err StoreCause.NoStore }
{
    if makes {
        Ok(true)
    } else {
        Err(StoreCause::NoStore)
    }
}

/// Whether the file and its log are opened, and then whether that makes a new store, which is asked for or not.
///
/// A file that is missing or empty is a new store only where its log has nothing either, or what the making of a store left
/// that was stopped. What is no log, or another database's, is never opened.
pub fn judged(file: FileKind, log: LogKind, makes: bool) -> Result<bool, StoreCause>
    ensures opened { IsOk result ↔ (may_open file log makes ≡ true) }
    ensures new { IfOk result (λ new. new ≡ is_new file) }
    ensures alone { (result ≡ Err StoreCause.LogAlone) ↔ (is_alone file log ≡ true) }
    ensures other { (result ≡ Err StoreCause.OtherLog) ↔ ((file ≡ FileKind.Filled) × (log ≡ LogKind.Other)) }
{
    match file {
        FileKind::Filled => match log {
            LogKind::Other => Err(StoreCause::OtherLog),
            LogKind::Empty | LogKind::Begun | LogKind::Stopped | LogKind::Log => Ok(false),
        },
        FileKind::Byte => Err(StoreCause::NoDatabase),
        FileKind::Missing => match log {
            LogKind::Empty => made_if(makes),
            LogKind::Begun | LogKind::Stopped | LogKind::Log | LogKind::Other => {
                Err(StoreCause::LogAlone)
            }
        },
        FileKind::Empty => match log {
            LogKind::Empty | LogKind::Begun => made_if(makes),
            LogKind::Stopped | LogKind::Log | LogKind::Other => Err(StoreCause::LogAlone),
        },
        FileKind::Zero => match log {
            LogKind::Empty => Err(StoreCause::NoDatabase),
            LogKind::Begun => made_if(makes),
            LogKind::Stopped | LogKind::Log | LogKind::Other => Err(StoreCause::LogAlone),
        },
    }
}
