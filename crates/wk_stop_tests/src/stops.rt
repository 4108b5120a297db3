//! Stores in two files that stop at some call: what the next run finds.
use crate::opened::{make_change, new_keeper, rows_of};
use crate::same::are_both;
use crate::samples::Step;
use sqlite::{Alter, Connection, FileStore, Files, MemStore, Options};
use sqlite_disk::{Crash, Disk, Fuse, Memory};
use std::alloc::Global;
use std::test::Fail;
use wk_sqlkeeper::SqlKeeper;
use wk_tables::TableRows;

type Disks = Files<Fuse<Memory>>;

/// How many calls each file passes on before it stops.
#[derive(Clone, Copy)]
struct Fuses {
    log: u64,
    db: u64,
}

/// No stop.
const WHOLE: Fuses = Fuses {
    log: LONG,
    db: LONG,
};

/// More calls than a run makes.
const LONG: u64 = 1 << 40;

/// More stops than a run has.
const MOST: u64 = 10_000;

/// The log is copied into the database file again and again.
fn options() -> Options {
    let mut options = Options::new(1);
    options.checkpoint_frames = 4;
    options
}

/// A page is saved, refreshed and saved again.
static SAVES: [&[Step]; 3] = [
    &[
        Step::Revision(1, 1, 0, 1, "[[B]]"),
        Step::Page(1, "A", 1, 5),
        Step::Job(1, "refreshLinks", "A", ""),
        Step::Job(2, "fan", "A", "both:0"),
    ],
    &[Step::Rows(1, &["B"]), Step::DropJob(1)],
    &[
        Step::Revision(2, 1, 1, 2, "[[C]]"),
        Step::Page(1, "A", 2, 5),
        Step::Job(3, "refreshLinks", "A", ""),
        Step::SetJob(2, "fan", "A", "text:1"),
    ],
];

/// What a store of version 1 with that page has before the change that makes it one of version 2.
static OLD_SAVES: [&[Step]; 1] = [&[
    Step::Version(1),
    Step::Revision(1, 1, 0, 1, "x"),
    Step::Page(1, "A", 1, 1),
]];

/// The change that makes a store of version 1 one of version 2.
static MIGRATION: [&[Step]; 1] = [&[Step::Version(2), Step::Job(1, "refreshLinks", "A", "")]];

/// A file with these bytes, all of them synced.
fn disk_of(alloc: Global, bytes: &[u8], calls: u64) -> Result<Fuse<Memory>, Fail> {
    let mut copy = Memory::new(alloc);
    copy.write_at(0, bytes)?;
    copy.sync()?;
    Ok(Fuse::new(copy, calls))
}

/// Files with the bytes of these, which stop at these calls.
fn copies(alloc: Global, files: &Disks, fuses: Fuses) -> Result<Disks, Fail> {
    Ok(Files {
        log: disk_of(alloc, files.log.inner().bytes(), fuses.log)?,
        db: disk_of(alloc, files.db.inner().bytes(), fuses.db)?,
    })
}

/// The keeper of the store in the files, or the files where they stop before it is there.
pub fn opened<D: Disk + Drop>(
    alloc: Global,
    files: Files<D>,
) -> Result<SqlKeeper<FileStore<D>>, Files<D>> {
    if !files.may_be_used() {
        return Err(files);
    }
    let connection = match Connection::open_files(alloc, files, options()) {
        Ok(connection) => connection,
        Err((_, left)) => return Err(left.into_files()),
    };
    match SqlKeeper::adopt(alloc, connection) {
        Ok(keeper) => Ok(keeper),
        Err((back, _)) => Err(back.into_store().close()),
    }
}

/// How many of the changes are made before one is refused.
fn made<S: Alter + Drop>(
    alloc: Global,
    keeper: &mut SqlKeeper<S>,
    changes: &[&'static [Step]],
) -> Result<usize, Fail> {
    for (number, steps) in changes.iter().enumerate() {
        let answer = make_change(alloc, keeper, *steps)?;
        if answer.is_err() {
            return Ok(number);
        }
    }
    Ok(changes.len())
}

/// Opens the store and makes the changes until the files stop. How many were made, and the files.
fn run<D: Disk + Drop>(
    alloc: Global,
    files: Files<D>,
    changes: &[&'static [Step]],
) -> Result<(usize, Files<D>), Fail> {
    match opened(alloc, files) {
        Ok(mut keeper) => {
            let number = made(alloc, &mut keeper, changes);
            let files = keeper.release().into_store().close();
            match number {
                Ok(number) => Ok((number, files)),
                Err(fail) => Err(fail),
            }
        }
        Err(files) => Ok((0, files)),
    }
}

/// Whether the rows are those behind so many changes.
fn are_behind(rows: &Option<TableRows>, want: &[Option<TableRows>], number: usize) -> bool {
    match want.get(number) {
        Some(behind) => are_both(rows, behind),
        None => false,
    }
}

/// The next run finds in the files what so many changes gave, or one more.
fn find_behind<D: Disk + Drop>(
    alloc: Global,
    files: Files<D>,
    want: &[Option<TableRows>],
    number: usize,
) -> Result<(), Fail> {
    let Ok(mut keeper) = opened(alloc, files) else {
        return Err(Fail::from("the store doesn't open again"));
    };
    let rows = rows_of(&mut keeper);
    let _files = keeper.release().into_store().close();
    if are_behind(&rows, want, number) || are_behind(&rows, want, number.saturating_add(1)) {
        Ok(())
    } else {
        Err(Fail::from("other rows are found"))
    }
}

/// The next run finds what so many changes gave, or one more: where all that was written stays, and where what wasn't synced
/// is lost.
fn find_both(
    alloc: Global,
    files: Disks,
    want: &[Option<TableRows>],
    number: usize,
) -> Result<(), Fail> {
    let mut files = files;
    let kept = copies(alloc, &files, WHOLE)?;
    find_behind(alloc, kept, want, number)?;
    files.log.crash();
    files.db.crash();
    find_behind(alloc, files, want, number)
}

/// Runs the changes over files that stop so, and tells whether all were made. What the next run finds must be what the
/// changes gave that were made, or that and the one that was stopped.
fn stopped(
    alloc: Global,
    start: &Disks,
    fuses: Fuses,
    changes: &[&'static [Step]],
    want: &[Option<TableRows>],
) -> Result<bool, Fail> {
    let files = copies(alloc, start, fuses)?;
    let (number, files) = run(alloc, files, changes)?;
    find_both(alloc, files, want, number)?;
    Ok(number == changes.len())
}

/// The fuses of the stop with this number in one of the files.
fn fuses_at(in_log: bool, calls: u64) -> Fuses {
    if in_log {
        Fuses {
            log: calls,
            ..WHOLE
        }
    } else {
        Fuses { db: calls, ..WHOLE }
    }
}

/// Stops one of the files at each of its calls. How many stops there were.
fn all_stops(
    alloc: Global,
    start: &Disks,
    in_log: bool,
    changes: &[&'static [Step]],
    want: &[Option<TableRows>],
) -> Result<u64, Fail> {
    for calls in 0..MOST {
        if stopped(alloc, start, fuses_at(in_log, calls), changes, want)? {
            return Ok(calls);
        }
    }
    Err(Fail::from("a stop is always met"))
}

/// Makes the change, and appends the rows behind it.
fn push_behind(
    alloc: Global,
    keeper: &mut SqlKeeper<MemStore>,
    steps: &[Step],
    behind: &mut Vec<Option<TableRows>>,
) -> Result<(), Fail> {
    let _made = make_change(alloc, keeper, steps)?;
    behind.push(rows_of(keeper))?;
    Ok(())
}

/// The rows of a new store in memory behind the first changes, and then behind each of the others.
fn rows_behind(
    alloc: Global,
    first: &[&'static [Step]],
    changes: &[&'static [Step]],
) -> Result<Vec<Option<TableRows>>, Fail> {
    let mut keeper = new_keeper(alloc)?;
    let _made = made(alloc, &mut keeper, first)?;
    let mut behind = Vec::new(alloc);
    push_behind(alloc, &mut keeper, &[], &mut behind)?;
    'changes: for steps in changes {
        push_behind(alloc, &mut keeper, *steps, &mut behind)?;
    }
    Ok(behind)
}

/// Empty files.
fn new_files(alloc: Global) -> Disks {
    Files {
        log: Fuse::new(Memory::new(alloc), LONG),
        db: Fuse::new(Memory::new(alloc), LONG),
    }
}

/// Makes of a store one of version 1, which has no table redirect.
static OLDER: &str = "DROP TABLE redirect; UPDATE site SET site_value = '1'";

/// The connection to a new store with the page of the older one.
fn made_older<D: Disk + Drop>(
    alloc: Global,
    files: Files<D>,
) -> Result<Connection<FileStore<D>>, Fail> {
    let Ok(mut keeper) = opened(alloc, files) else {
        return Err(Fail::from("a new store is refused"));
    };
    if made(alloc, &mut keeper, &OLD_SAVES)? < 1 {
        return Err(Fail::from("a save is refused"));
    }
    Ok(keeper.release())
}

/// The files of a store of version 1 with that page.
fn older<D: Disk + Drop>(alloc: Global, files: Files<D>) -> Result<Files<D>, Fail> {
    let mut connection = made_older(alloc, files)?;
    connection.execute_batch(OLDER)?;
    Ok(connection.into_store().close())
}

/// How many stops the log's file and the database's have where the changes are made over these files.
fn both_stops(
    alloc: Global,
    start: &Disks,
    changes: &[&'static [Step]],
    want: &[Option<TableRows>],
) -> Result<(u64, u64), Fail> {
    let log = all_stops(alloc, start, true, changes, want)?;
    let db = all_stops(alloc, start, false, changes, want)?;
    Ok((log, db))
}

/// The stops of saves from an empty file on.
fn stops_of_saves(alloc: Global) -> Result<(u64, u64), Fail> {
    let want = rows_behind(alloc, &[], &SAVES)?;
    let start = new_files(alloc);
    both_stops(alloc, &start, &SAVES, &want)
}

/// The stops of the migration of a store of version 1.
fn stops_of_a_migration(alloc: Global) -> Result<(u64, u64), Fail> {
    let want = rows_behind(alloc, &OLD_SAVES, &MIGRATION)?;
    let start = older(alloc, new_files(alloc))?;
    both_stops(alloc, &start, &MIGRATION, &want)
}

#[test]
fn a_store_that_stops_has_the_rows_before_or_behind_a_change(rt: HostRuntime) -> Result<(), Fail> {
    let (log, db) = stops_of_saves(rt.alloc())?;
    assert!(rt; 20 < log);
    assert!(rt; 20 < db);
    Ok(())
}

#[test]
fn a_migration_that_stops_is_made_or_not(rt: HostRuntime) -> Result<(), Fail> {
    let (log, db) = stops_of_a_migration(rt.alloc())?;
    assert!(rt; 4 < log);
    assert!(rt; 4 < db);
    Ok(())
}
