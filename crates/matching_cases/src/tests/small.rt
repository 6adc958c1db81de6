// Small terms: clashes, repeated variables, chains, the occurs check, refusals.
use crate::tests::support::*;
use matching::{MatchFault, Matching};
use sheet::Sheet;
use std::test::Fail;
use terms::{EnvName, Node, NodeNo};

#[test]
fn variable_in_its_own_pair(rt: HostRuntime) -> Result<(), Fail> {
    let mut m = opened(rt.alloc(), &[var(0), pair(0, 0)])?;
    rows(
        &rt,
        &mut m,
        &[Row(0, 1, false, 0), Row(1, 0, false, 0), Row(0, 0, true, 0)],
    )
}

#[test]
fn variable_inside_through_bindings(rt: HostRuntime) -> Result<(), Fail> {
    // x with (y, n), then y with {x}n: x would be inside itself
    let mut m = opened(
        rt.alloc(),
        &[var(0), var(1), name(0), pair(1, 2), seal(0, 2)],
    )?;
    rows(
        &rt,
        &mut m,
        &[Row(0, 3, true, 1), Row(1, 4, false, 1), Row(1, 2, true, 2)],
    )
}

#[test]
fn names_of_both_sorts(rt: HostRuntime) -> Result<(), Fail> {
    let env = Node::Env(EnvName(0));
    let mut m = opened(
        rt.alloc(),
        &[name(0), name(0), name(1), env, env, Node::Env(EnvName(1))],
    )?;
    rows(
        &rt,
        &mut m,
        &[
            Row(0, 1, true, 0),
            Row(0, 2, false, 0),
            Row(3, 4, true, 0),
            Row(3, 5, false, 0),
            Row(0, 3, false, 0),
        ],
    )
}

#[test]
fn kinds_clash(rt: HostRuntime) -> Result<(), Fail> {
    let mut m = opened(rt.alloc(), &[name(0), pair(0, 0), seal(0, 0)])?;
    rows(
        &rt,
        &mut m,
        &[
            Row(1, 2, false, 0),
            Row(0, 1, false, 0),
            Row(2, 0, false, 0),
        ],
    )
}

#[test]
fn repeated_variable(rt: HostRuntime) -> Result<(), Fail> {
    // (x, x) with (n, k), and with (n, n)
    let mut m = opened(
        rt.alloc(),
        &[var(0), name(0), name(1), pair(0, 0), pair(1, 2), pair(1, 1)],
    )?;
    rows(
        &rt,
        &mut m,
        &[
            Row(3, 4, false, 0),
            Row(3, 5, true, 1),
            Row(0, 1, true, 1),
            Row(0, 2, false, 1),
        ],
    )
}

#[test]
fn chain_of_variables(rt: HostRuntime) -> Result<(), Fail> {
    let mut m = opened(rt.alloc(), &[var(0), var(1), var(2), name(0), name(1)])?;
    rows(
        &rt,
        &mut m,
        &[
            Row(0, 1, true, 1),
            Row(1, 2, true, 2),
            Row(0, 2, true, 2),
            Row(2, 3, true, 3),
            Row(0, 3, true, 3),
            Row(1, 4, false, 3),
        ],
    )
}

#[test]
fn oldest_binding_first(rt: HostRuntime) -> Result<(), Fail> {
    let mut m = opened(rt.alloc(), &[var(7), var(3), name(0), name(1)])?;
    rows(&rt, &mut m, &[Row(0, 2, true, 1), Row(3, 1, true, 2)])?;
    assert_eq!(rt; m.bindings(), [binding(7, 2), binding(3, 3)].as_slice());
    Ok(())
}

#[test]
fn no_such_node(rt: HostRuntime) -> Result<(), Fail> {
    let mut m = opened(rt.alloc(), &[var(0), name(0)])?;
    rows(&rt, &mut m, &[Row(0, 1, true, 1)])?;
    let none = Err(MatchFault::NoSuchNode);
    assert_eq!(rt; m.matches(NodeNo(2), NodeNo(0)), none);
    assert_eq!(rt; m.matches(NodeNo(0), NodeNo(2)), none);
    assert_eq!(rt; m.matches(NodeNo(65535), NodeNo(65535)), none);
    assert_eq!(rt; MatchFault::NoSuchNode.number(), 50);
    assert_eq!(rt; m.bindings().len(), 1);
    Ok(())
}

#[test]
fn nodes_of_a_sheet(rt: HostRuntime) -> Result<(), Fail> {
    let sheet = Sheet::new(rt.alloc())?;
    let mut m = Matching::open(rt.alloc(), &sheet)?;
    rows(&rt, &mut m, &[Row(0, 0, true, 0)])?;
    assert_eq!(rt;
        m.matches(NodeNo(0), NodeNo(1)),
        Err(MatchFault::NoSuchNode)
    );
    Ok(())
}
