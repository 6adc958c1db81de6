// No variable is bound.
use crate::tests::support::*;
use reach::reach;
use std::test::Fail;
use terms::{EnvName, Node, NodeNo};

#[test]
fn halves_of_halves(rt: HostRuntime) -> Result<(), Fail> {
    expect(
        &rt,
        rt.alloc(),
        &[name(5), name(6), var(3), pair(0, 1), pair(3, 2), name(7)],
        &[],
        &[NodeNo(4)],
        Parts {
            names: &[5, 6],
            seals: &[],
            variables: &[3],
        },
    )
}

#[test]
fn seal_without_its_key(rt: HostRuntime) -> Result<(), Fail> {
    expect(
        &rt,
        rt.alloc(),
        &[name(0), name(1), seal(0, 1)],
        &[],
        &[NodeNo(2)],
        Parts {
            names: &[],
            seals: &[2],
            variables: &[],
        },
    )
}

#[test]
fn key_found_later(rt: HostRuntime) -> Result<(), Fail> {
    // {{m}k}l, then (k, l): the inner key is found after the seal that it opens
    expect(
        &rt,
        rt.alloc(),
        &[
            name(0),
            name(1),
            name(2),
            seal(0, 1),
            seal(3, 2),
            pair(1, 2),
        ],
        &[],
        &[NodeNo(4), NodeNo(5)],
        Parts {
            names: &[0, 1, 2],
            seals: &[3, 4],
            variables: &[],
        },
    )
}

#[test]
fn keys_taken_for_known(rt: HostRuntime) -> Result<(), Fail> {
    // an unbound variable, and a name of the environment; no pair opens
    expect(
        &rt,
        rt.alloc(),
        &[
            name(0),
            name(1),
            name(2),
            var(0),
            Node::Env(EnvName(0)),
            pair(0, 1),
            seal(0, 3),
            seal(1, 4),
            seal(2, 5),
        ],
        &[],
        &[NodeNo(6), NodeNo(7), NodeNo(8)],
        Parts {
            names: &[0, 1],
            seals: &[6, 7, 8],
            variables: &[],
        },
    )
}

#[test]
fn nothing_from_no_heads(rt: HostRuntime) -> Result<(), Fail> {
    expect(
        &rt,
        rt.alloc(),
        &[name(0), var(0), seal(0, 0)],
        &[],
        &[],
        Parts {
            names: &[],
            seals: &[],
            variables: &[],
        },
    )
}

#[test]
fn head_past_the_end(rt: HostRuntime) -> Result<(), Fail> {
    let table = table_of(rt.alloc(), &[name(0), name(1)])?;
    assert!(rt; reach(&table, &[], &[NodeNo(0), NodeNo(2)]).is_none());
    Ok(())
}
