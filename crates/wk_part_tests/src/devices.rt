//! A door in memory.

use std::alloc::Global;
use std::test::Fail;
use wk_base::Failed;
use wk_door::{Door, MemDoor};
use wk_memory::Memory;

/// What a door without links answers, with room for an address of 4 bytes and a fourth call that fails: whether it listens at a
/// longer address and at this one, and whether a link comes.
fn answers(alloc: Global) -> Result<([bool; 2], [Result<bool, Failed>; 3], u64), Memory> {
    let fail = [4].to_vec(alloc)?;
    let mut door = MemDoor::new(alloc, Vec::new(alloc), 4, fail)?;
    let listens = [door.listen("abcde").is_ok(), door.listen("abcd").is_ok()];
    let came = [came(&mut door), came(&mut door), came(&mut door)];
    Ok((listens, came, door.faults()))
}

/// Whether a link comes in.
fn came<D: Door>(door: &mut D) -> Result<bool, Failed> {
    match door.accept() {
        Ok(link) => Ok(link.is_some()),
        Err(failed) => Err(failed),
    }
}

#[test]
fn a_door_in_memory(rt: HostRuntime) -> Result<(), Fail> {
    let wanted = ([false, true], [Ok(false), Err(Failed), Ok(false)], 2);
    assert_eq!(rt; answers(rt.alloc())?, wanted);
    Ok(())
}
