// Fault 21: another kind, another length, a node after a step.
use crate::tests::support::*;
use replays::RunFault;
use std::test::Fail;

const WRONG: [&'static [u8]; 8] = [
    // kinds of sheet files, and kinds that there are not
    &[6, 0, 4, 0, 1, 0, 0, 0, 0, 0],
    &[6, 0, 6, 0, 1, 0, 0, 0, 0, 0],
    &[0, 0, 16, 0],
    &[4, 0, 19, 0, 1, 0, 0, 0],
    // a node of four bytes, of eight, and of none; a step of six
    &[4, 0, 17, 0, 1, 0, 0, 0],
    &[8, 0, 17, 0, 1, 0, 0, 0, 0, 0, 0, 0],
    &[0, 0, 17, 0],
    &[6, 0, 18, 0, 1, 0, 0, 0, 0, 0],
];

#[test]
fn of_the_first_record(rt: HostRuntime) -> Result<(), Fail> {
    for bytes in &WRONG {
        expect(&rt, *bytes, 0, Err(RunFault::Kind(0)))?;
    }
    Ok(())
}

#[test]
fn of_a_node_after_a_step(rt: HostRuntime) -> Result<(), Fail> {
    let mut file = Vec::new(rt.alloc());
    file.extend_from_slice(&NODE)?;
    file.extend_from_slice(&MOVE)?;
    file.extend_from_slice(&NODE)?;
    expect(&rt, &file, 2, Err(RunFault::Kind(2)))
}

// An empty file is lawful.
#[test]
fn of_none(rt: HostRuntime) -> Result<(), Fail> {
    expect(&rt, &[], 0, Ok(()))
}
