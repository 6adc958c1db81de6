// Shared nodes: terms with more leaves than can be counted are matched at once.
ghost use Rattle.std.specs.Prelude.{◌≤◌};

use crate::tests::support::*;
use matching::Matching;
use std::alloc::Global;
use std::test::Fail;
use terms::{Node, NodeFault, NodeNo, NodeTable};
use unification::Ask;

// A tower of 255 pairs over a leaf, the first of them the node with this number: each pair is of the node before with itself.
fn tower(table: &mut NodeTable, leaf: Node, first: u16) -> Result<(), NodeFault>
    requires { first ≤ 256 }
{
    table.push(leaf)?;
    for i in first..first + 255 {
        table.push(pair(i, i))?;
    }
    Ok(())
}

#[test]
fn towers(rt: HostRuntime) -> Result<(), Fail> {
    // two towers of 255 pairs over x and over n: each has 2 ^ 255 leaves
    let mut table = NodeTable::new(rt.alloc());
    tower(&mut table, var(0), 0)?;
    tower(&mut table, name(0), 256)?;
    let mut m = Matching::over(rt.alloc(), table)?;
    rows(
        &rt,
        &mut m,
        &[
            Row(255, 511, true, 1),
            Row(0, 256, true, 1),
            Row(254, 511, false, 1),
            Row(254, 510, true, 1),
        ],
    )
}

#[test]
fn towers_of_variables(rt: HostRuntime) -> Result<(), Fail> {
    // x with the tower over y, then y with the tower over x: the occurs check sees through 2 ^ 255 leaves
    let mut table = NodeTable::new(rt.alloc());
    tower(&mut table, var(0), 0)?;
    tower(&mut table, var(1), 256)?;
    let mut m = Matching::over(rt.alloc(), table)?;
    rows(
        &rt,
        &mut m,
        &[
            Row(0, 511, true, 1),
            Row(256, 255, false, 1),
            Row(255, 511, false, 1),
        ],
    )
}

// The variables x0 to x31 and y0 to y31, and then for each the pair of it with itself.
fn doubles(heap: Global) -> Result<NodeTable, NodeFault> {
    let mut table = NodeTable::new(heap);
    for x in 0..64u16 {
        table.push(var(x))?;
    }
    for x in 0..64u16 {
        table.push(pair(x, x))?;
    }
    Ok(table)
}

#[test]
fn doubling_chain(rt: HostRuntime) -> Result<(), Fail> {
    // x1 is (x0, x0), x2 is (x1, x1) and so on, and the same of y: the values of x31 and y31 have 2 ^ 31 leaves each
    let mut m = Matching::over(rt.alloc(), doubles(rt.alloc())?)?;
    for x in 0..31u16 {
        assert_eq!(rt; m.matches(NodeNo(x + 1), NodeNo(x + 64))?, true);
        assert_eq!(rt; m.matches(NodeNo(x + 33), NodeNo(x + 96))?, true);
    }
    // the two chains, from their ends: only x0 and y0 are left to bind
    rows(
        &rt,
        &mut m,
        &[
            Row(31, 63, true, 63),
            Row(0, 32, true, 63),
            Row(5, 37, true, 63),
            Row(5, 38, false, 63),
        ],
    )
}

// Two terms over those nodes: the rows that begin with these two and go on with x1 and (x0, x0), y1 and (y0, y0), and so on
// to x31 and y31. They are the nodes 128 to 251.
fn chains(table: &mut NodeTable, begin: Ask) -> Result<Ask, NodeFault> {
    let mut row = begin;
    for x in 0..31u16 {
        table.push(pair(x + 1, row.left.0))?;
        table.push(pair(x + 64, row.right.0))?;
        table.push(pair(x + 33, 128 + 4 * x))?;
        table.push(pair(x + 96, 129 + 4 * x))?;
        row = ask(130 + 4 * x, 131 + 4 * x);
    }
    Ok(row)
}

#[test]
fn chains_in_one_match(rt: HostRuntime) -> Result<(), Fail> {
    // x31 with y31 begins the rows, and is matched before all else
    let mut table = doubles(rt.alloc())?;
    let whole = chains(&mut table, ask(31, 63))?;
    let mut m = Matching::over(rt.alloc(), table)?;
    assert_eq!(rt; m.matches(whole.left, whole.right)?, true);
    assert_eq!(rt; m.bindings().len(), 63);
    rows(&rt, &mut m, &[Row(0, 32, true, 63), Row(5, 38, false, 63)])
}

#[test]
fn chains_from_their_ends(rt: HostRuntime) -> Result<(), Fail> {
    // the same, but x31 with y31 is matched last: their values have 2 ^ 31 leaves each by then
    let mut table = doubles(rt.alloc())?;
    let rest = chains(&mut table, ask(0, 0))?;
    table.push(pair(31, rest.left.0))?;
    table.push(pair(63, rest.right.0))?;
    let mut m = Matching::over(rt.alloc(), table)?;
    rows(
        &rt,
        &mut m,
        &[
            Row(252, 253, true, 63),
            Row(0, 32, true, 63),
            Row(5, 38, false, 63),
        ],
    )
}
