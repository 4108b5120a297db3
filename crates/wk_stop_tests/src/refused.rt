//! Changes that a database refuses, and connections that are no keeper's.
use crate::opened::{make_change, new_keeper, rows_of};
use crate::same::are_both;
use crate::samples::Step;
use crate::stops::opened;
use sqlite::{Alter, Files};
use sqlite_disk::Memory;
use std::alloc::Global;
use std::test::Fail;
use wk_keeper::{Keeper, KeeperRefusal};
use wk_sqlkeeper::SqlKeeper;

/// A page with its revision and a job.
static ONE_PAGE: [Step; 3] = [
    Step::Revision(1, 1, 0, 5, "x"),
    Step::Page(1, "A", 1, 1),
    Step::Job(1, "refreshLinks", "A", ""),
];

/// Changes whose last edit the database refuses, or can't hold.
static REFUSED: [&[Step]; 5] = [
    &[Step::Page(2, "B", 0, 0), Step::Revision(1, 2, 0, 5, "y")],
    &[Step::DropJob(1), Step::Page(2, "A", 0, 0)],
    &[Step::Version(3), Step::Job(1, "fan", "A", "text:0")],
    &[Step::Job(9223372036854775808, "fan", "B", "text:0")],
    &[Step::DropJob(1), Step::DropJob(18446744073709551615)],
];

/// Changes in which a page's links aren't in the order of their titles, or have one twice.
static OUT_OF_ORDER: [&[Step]; 2] = [
    &[Step::DropJob(1), Step::Rows(1, &["C", "B"])],
    &[Step::DropJob(1), Step::Rows(1, &["B", "C", "C"])],
];

/// Whether the change is refused and counted, and the rows are those before.
fn changes_nothing<S: Alter + Drop>(
    alloc: Global,
    keeper: &mut SqlKeeper<S>,
    steps: &[Step],
) -> Result<bool, Fail> {
    let before = rows_of(keeper);
    let faults = keeper.faults();
    let answer = make_change(alloc, keeper, steps)?;
    let same = are_both(&before, &rows_of(keeper));
    Ok(answer == Err(KeeperRefusal::Failed) && keeper.faults() == faults.saturating_add(1) && same)
}

#[test]
fn a_refused_change_is_rolled_back(rt: HostRuntime) -> Result<(), Fail> {
    let alloc = rt.alloc();
    let mut keeper = new_keeper(alloc)?;
    assert_eq!(rt; make_change(alloc, &mut keeper, &ONE_PAGE)?, Ok(()));
    for (number, steps) in REFUSED.iter().enumerate() {
        assert!(rt;
            changes_nothing(alloc, &mut keeper, *steps)?,
            "at change {number}"
        );
    }
    Ok(())
}

/// Whether the keeper makes a page, and then refuses and counts each of the changes.
fn refuses_all<S: Alter + Drop>(
    alloc: Global,
    keeper: &mut SqlKeeper<S>,
    changes: &[&'static [Step]],
) -> Result<bool, Fail> {
    let mut refused = make_change(alloc, keeper, &ONE_PAGE)?.is_ok();
    for steps in changes {
        refused = changes_nothing(alloc, keeper, *steps)? && refused;
    }
    Ok(refused)
}

/// Whether links out of order are refused over a new store in two files.
fn refuses_in_files(alloc: Global) -> Result<bool, Fail> {
    let files = Files {
        log: Memory::new(alloc),
        db: Memory::new(alloc),
    };
    match opened(alloc, files) {
        Ok(mut keeper) => refuses_all(alloc, &mut keeper, &OUT_OF_ORDER),
        Err(_) => Ok(false),
    }
}

#[test]
fn links_out_of_order_are_refused(rt: HostRuntime) -> Result<(), Fail> {
    let alloc = rt.alloc();
    let mut keeper = new_keeper(alloc)?;
    assert!(rt; refuses_all(alloc, &mut keeper, &OUT_OF_ORDER)?);
    assert!(rt; refuses_in_files(alloc)?);
    Ok(())
}

/// Whether a connection in a transaction is refused and handed back as it was.
fn is_handed_back(alloc: Global) -> Result<bool, Fail> {
    let mut connection = new_keeper(alloc)?.release();
    connection.execute_batch("BEGIN")?;
    match SqlKeeper::adopt(alloc, connection) {
        Ok(_) => Ok(false),
        Err((back, refusal)) => Ok(refusal == KeeperRefusal::Failed && !back.is_autocommit()),
    }
}

#[test]
fn a_connection_in_a_transaction_is_refused(rt: HostRuntime) -> Result<(), Fail> {
    assert!(rt; is_handed_back(rt.alloc())?);
    Ok(())
}
