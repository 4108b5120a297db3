//! Texts that no program prints, or only where memory runs out.

use std::alloc::Global;
use std::fmt::Display;
use std::test::Fail;
use wk_base::Failed;
use wk_lines::Stop;
use wk_memory::Memory;
use wk_revs::{Limit, SaveRefusal};
use wk_script_lines::no_memory;
use wk_title::TitleRefusal;

/// The texts of errors, one behind the other.
fn shown<D: Display>(alloc: Global, errors: &[D]) -> Result<String, Memory> {
    let mut told = String::new(alloc);
    'errors: for error in errors {
        told.push_str(&format!(in alloc; "{error}, ")?)?;
    }
    Ok(told)
}

/// All refusals of a save.
const REFUSALS: [SaveRefusal; 9] = [
    SaveRefusal::InvalidTitle,
    SaveRefusal::ContentTooBig,
    SaveRefusal::ArticleExists,
    SaveRefusal::MissingTitle,
    SaveRefusal::EditConflict { current: 7 },
    SaveRefusal::WikiFull(Limit::Pages),
    SaveRefusal::JournalFull,
    SaveRefusal::Memory,
    SaveRefusal::StoreFault,
];

/// Their texts.
const REFUSED: &str =
    "bad title, the text is too big, the page exists, the page is missing, edit conflict with revision 7, \
the wiki is full, the journal is full, out of memory, the store failed, ";

#[test]
fn refusals_of_a_save_have_texts(rt: HostRuntime) -> Result<(), Fail> {
    let told = shown(rt.alloc(), &REFUSALS)?;
    assert_eq!(rt; told.as_str(), REFUSED);
    Ok(())
}

/// All reasons why lines stop.
const STOPS: [Stop; 4] = [Stop::Memory, Stop::ReadFault, Stop::WriteFault, Stop::Bound];

/// Their texts.
const STOPPED: &str = "out of memory, the input failed, the output failed, the input is too long, ";

#[test]
fn stops_have_texts(rt: HostRuntime) -> Result<(), Fail> {
    let told = shown(rt.alloc(), &STOPS)?;
    assert_eq!(rt; told.as_str(), STOPPED);
    Ok(())
}

/// The texts of other errors.
fn errors(alloc: Global) -> Result<String, Memory> {
    let (illegal, memory) = (TitleRefusal::Illegal, TitleRefusal::Memory);
    Ok(format!(in alloc; "{illegal}, {memory}, {Failed}, {Memory}")?)
}

#[test]
fn errors_have_texts(rt: HostRuntime) -> Result<(), Fail> {
    let told = errors(rt.alloc())?;
    assert_eq!(rt;
        told.as_str(),
        "bad title, out of memory, the outside failed, out of memory"
    );
    Ok(())
}

/// What is told of a line for which memory ran out.
fn unanswered(alloc: Global) -> Result<String, Memory> {
    Ok(no_memory(alloc, 3)?.to_string(alloc)?)
}

#[test]
fn want_of_memory_is_told(rt: HostRuntime) -> Result<(), Fail> {
    let told = unanswered(rt.alloc())?;
    assert_eq!(rt;
        told.as_str(),
        "{\"error\":{\"code\":\"nomemory\",\"info\":\"Out of memory.\"},\"point\":3}"
    );
    Ok(())
}
