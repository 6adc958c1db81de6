// Variables with values.
use crate::tests::support::*;
use std::test::Fail;
use terms::NodeNo;

#[test]
fn value_taken_apart(rt: HostRuntime) -> Result<(), Fail> {
    // x is (a, y)
    expect(
        &rt,
        rt.alloc(),
        &[var(0), name(4), var(1), pair(1, 2)],
        &[(0, 3)],
        &[NodeNo(0)],
        Parts {
            names: &[4],
            seals: &[],
            variables: &[1],
        },
    )
}

#[test]
fn chain_of_variables(rt: HostRuntime) -> Result<(), Fail> {
    // x is y, and y is z
    expect(
        &rt,
        rt.alloc(),
        &[var(0), var(1), var(2)],
        &[(0, 1), (1, 2)],
        &[NodeNo(0)],
        Parts {
            names: &[],
            seals: &[],
            variables: &[2],
        },
    )
}

#[test]
fn key_with_a_value(rt: HostRuntime) -> Result<(), Fail> {
    // {m}x, where x is y and y is k: shut without k
    let nodes = [name(0), name(1), var(0), var(1), seal(0, 2)];
    let pairs = [(2, 3), (3, 1)];
    expect(
        &rt,
        rt.alloc(),
        &nodes,
        &pairs,
        &[NodeNo(4)],
        Parts {
            names: &[],
            seals: &[4],
            variables: &[],
        },
    )?;
    expect(
        &rt,
        rt.alloc(),
        &nodes,
        &pairs,
        &[NodeNo(4), NodeNo(1)],
        Parts {
            names: &[0, 1],
            seals: &[4],
            variables: &[],
        },
    )
}

#[test]
fn key_bound_to_a_variable(rt: HostRuntime) -> Result<(), Fail> {
    // {m}x, where x is y and y is unbound
    expect(
        &rt,
        rt.alloc(),
        &[name(0), var(0), var(1), seal(0, 1)],
        &[(1, 2)],
        &[NodeNo(3)],
        Parts {
            names: &[0],
            seals: &[3],
            variables: &[],
        },
    )
}
