// Fault 22: at most 512 nodes and 128 steps.
use crate::tests::support::*;
use replays::RunFault;
use std::test::Fail;

#[test]
fn of_nodes(rt: HostRuntime) -> Result<(), Fail> {
    let mut file = Vec::new(rt.alloc());
    for _ in 0..512u16 {
        file.extend_from_slice(&NODE)?;
    }
    expect(&rt, &file, 512, Ok(()))?;
    file.extend_from_slice(&NODE)?;
    expect(&rt, &file, 512, Err(RunFault::Limit(512)))
}

#[test]
fn of_steps(rt: HostRuntime) -> Result<(), Fail> {
    let mut file = Vec::new(rt.alloc());
    file.extend_from_slice(&NODE)?;
    for _ in 0..128u16 {
        file.extend_from_slice(&MOVE)?;
    }
    expect(&rt, &file, 129, Ok(()))?;
    file.extend_from_slice(&MOVE)?;
    expect(&rt, &file, 129, Err(RunFault::Limit(129)))
}

// A node too many after a step is out of order first.
#[test]
fn of_a_node_out_of_order(rt: HostRuntime) -> Result<(), Fail> {
    let mut file = Vec::new(rt.alloc());
    for _ in 0..512u16 {
        file.extend_from_slice(&NODE)?;
    }
    file.extend_from_slice(&MOVE)?;
    file.extend_from_slice(&NODE)?;
    expect(&rt, &file, 513, Err(RunFault::Kind(513)))
}
