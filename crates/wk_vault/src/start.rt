//! What stands at a store's name before it is opened. `sqlite` would make a new database of a file that is missing or empty,
//! whatever its log has, and of one byte, whatever that is.
use std::fs::{self, File};
use std::io::{self, ErrorKind, Read};
use wk_wal::{LogFound, LogKind, look};

/// What stands at the name.
#[derive(Clone, Copy, PartialEq, Eq)]
pub enum FileKind {
    /// Nothing.
    Missing,
    /// A file without a byte.
    Empty,
    /// A file of one byte, 0, as a first open leaves it where it is stopped.
    Zero,
    /// A file of one other byte.
    Byte,
    /// A file of more bytes, or something else than a file.
    Filled,
}

/// A file and its log, before they are opened.
#[derive(Clone, Copy)]
pub struct Found {
    pub file: FileKind,
    pub log: LogKind,
    /// How many frames of the log stand behind its last whole transaction, and were part of one.
    pub lost: u64,
}

/// What is found where there is no log.
const NO_LOG: LogFound = LogFound {
    kind: LogKind::Empty,
    page_size: 0,
    lost: 0,
};

/// The first bytes of the file, and zeros where it has fewer.
fn first_bytes(rt: &HostRuntime, path: &str) -> io::Result<[u8; 18]> {
    let mut first = [0; 18];
    let mut file = File::open(rt, path)?;
    let count = file.metadata()?.len().min(18);
    file.read_exact(&mut first[..count as usize])?;
    Ok(first)
}

/// What the file at this path is.
fn file_kind(rt: &HostRuntime, path: &str) -> io::Result<FileKind> {
    let found = fs::metadata(rt, path)?;
    if !found.is_file() || found.len() > 1 {
        return Ok(FileKind::Filled);
    }
    if found.len() == 0 {
        return Ok(FileKind::Empty);
    }
    if first_bytes(rt, path)?[0] == 0 {
        Ok(FileKind::Zero)
    } else {
        Ok(FileKind::Byte)
    }
}

/// What the log at this path is.
fn log_at(rt: &HostRuntime, path: &str) -> io::Result<LogFound> {
    match fs::metadata(rt, path) {
        Ok(found) if found.is_file() && found.len() > 0 => {
            look(rt.alloc(), &mut File::open(rt, path)?, found.len())
        }
        // (what is no file isn't opened as a log either)
        Ok(_) => Ok(NO_LOG),
        Err(error) if error.kind() == ErrorKind::NotFound => Ok(NO_LOG),
        Err(error) => Err(error),
    }
}

/// The bytes of a page in the database that begins with these, 0 where none does.
fn page_size_of(first: &[u8; 18]) -> u32 {
    if first[..16] != b"SQLite format 3\0"[..] {
        return 0;
    }
    match first[16] as u32 * 0x100 + first[17] as u32 {
        1 => 65536,
        size => size,
    }
}

/// Whether the pages of the file at this path have another size than those of the log.
fn is_of_another(rt: &HostRuntime, path: &str, log: &LogFound) -> io::Result<bool> {
    if log.kind != LogKind::Log {
        return Ok(false);
    }
    let size = page_size_of(&first_bytes(rt, path)?);
    Ok(size != 0 && size != log.page_size)
}

/// The kind of the log of this file.
fn kind_beside(
    rt: &HostRuntime,
    file: FileKind,
    path: &str,
    log: &LogFound,
) -> io::Result<LogKind> {
    if file == FileKind::Filled && is_of_another(rt, path, log)? {
        Ok(LogKind::Other)
    } else {
        Ok(log.kind)
    }
}

/// What stands beside a file of this kind.
fn found_beside(rt: &HostRuntime, file: FileKind, path: &str) -> io::Result<Found> {
    let log = log_at(rt, format!(in rt.alloc(); "{path}-wal")?.as_str())?;
    Ok(Found {
        file,
        log: kind_beside(rt, file, path, &log)?,
        lost: log.lost,
    })
}

/// What stands at this name. Nothing is written.
pub fn found_at(rt: &HostRuntime, name: &str) -> io::Result<Found> {
    // As in SQLite, the log lies beside the file to which a link leads.
    match fs::canonicalize(rt, name) {
        Ok(real) => found_beside(rt, file_kind(rt, real.as_str())?, real.as_str()),
        Err(error) if error.kind() == ErrorKind::NotFound => {
            found_beside(rt, FileKind::Missing, name)
        }
        Err(error) => Err(error),
    }
}
