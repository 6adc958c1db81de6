// Trials: what they bind is undone, whichever way they end.
use crate::tests::support::*;
use matching::{MatchFault, Matching, Trial, all_match, already_equal};
use std::test::Fail;
use terms::NodeNo;

// n, k, x, y, (x, y), (n, k), (y, n)
fn start(rt: &HostRuntime) -> Result<Matching, Fail> {
    opened(
        rt.alloc(),
        &[
            name(0),
            name(1),
            var(0),
            var(1),
            pair(2, 3),
            pair(0, 1),
            pair(3, 0),
        ],
    )
}

#[test]
fn undone_at_the_end(rt: HostRuntime) -> Result<(), Fail> {
    let mut m = start(&rt)?;
    rows(&rt, &mut m, &[Row(2, 0, true, 1)])?;
    {
        let mut t = Trial::of(&mut m);
        assert_eq!(rt; t.matches(NodeNo(4), NodeNo(5))?, true);
        assert_eq!(rt; t.bindings().len(), 2);
        assert_eq!(rt; t.matches(NodeNo(3), NodeNo(0))?, false);
    }
    assert_eq!(rt; m.bindings().len(), 1);
    rows(&rt, &mut m, &[Row(3, 0, true, 2)])
}

#[test]
fn one_after_another(rt: HostRuntime) -> Result<(), Fail> {
    let mut m = start(&rt)?;
    // twice the same: what the first bound is bound no more
    for _ in 0..2u8 {
        let mut t = Trial::of(&mut m);
        assert_eq!(rt; t.matches(NodeNo(2), NodeNo(0))?, true);
        assert_eq!(rt; t.bindings().len(), 1);
        assert_eq!(rt; t.matches(NodeNo(3), NodeNo(1))?, true);
        assert_eq!(rt; t.bindings().len(), 2);
    }
    assert_eq!(rt; m.bindings().len(), 0);
    // a match between them stays, and y is free for k
    rows(&rt, &mut m, &[Row(2, 0, true, 1)])?;
    {
        let mut u = Trial::of(&mut m);
        assert_eq!(rt; u.matches(NodeNo(3), NodeNo(1))?, true);
        assert_eq!(rt; u.bindings().len(), 2);
    }
    rows(&rt, &mut m, &[Row(3, 0, true, 2)])
}

// Returns in the middle of a trial: at a refusal by the question mark, at a no by return.
fn tried(m: &mut Matching, a: u16, b: u16) -> Result<usize, Fail> {
    let mut t = Trial::of(m);
    if !t.matches(NodeNo(2), NodeNo(0))? {
        return Ok(0);
    }
    if !t.matches(NodeNo(a), NodeNo(b))? {
        return Ok(1);
    }
    Ok(t.bindings().len())
}

#[test]
fn early_returns(rt: HostRuntime) -> Result<(), Fail> {
    let mut m = start(&rt)?;
    assert_eq!(rt; tried(&mut m, 4, 5)?, 2);
    assert_eq!(rt; m.bindings().len(), 0);
    assert_eq!(rt; tried(&mut m, 2, 1)?, 1);
    assert_eq!(rt; m.bindings().len(), 0);
    assert_eq!(rt;
        all_match(&mut m, &[ask(2, 0), ask(9, 0)]),
        Err(MatchFault::NoSuchNode)
    );
    assert_eq!(rt; m.bindings().len(), 0);
    Ok(())
}

#[test]
fn rows_of_pairs(rt: HostRuntime) -> Result<(), Fail> {
    let mut m = start(&rt)?;
    let both = [ask(4, 5), ask(2, 0)];
    assert_eq!(rt; all_match(&mut m, &both)?, true);
    let clash = [ask(4, 5), ask(4, 6)];
    assert_eq!(rt; all_match(&mut m, &clash)?, false);
    assert_eq!(rt; all_match(&mut m, &[])?, true);
    assert_eq!(rt; m.bindings().len(), 0);
    Ok(())
}

#[test]
fn equal_already(rt: HostRuntime) -> Result<(), Fail> {
    let mut m = start(&rt)?;
    assert_eq!(rt; already_equal(&mut m, NodeNo(4), NodeNo(5))?, false);
    assert_eq!(rt; m.bindings().len(), 0);
    rows(&rt, &mut m, &[Row(4, 5, true, 2)])?;
    assert_eq!(rt; already_equal(&mut m, NodeNo(4), NodeNo(5))?, true);
    assert_eq!(rt; already_equal(&mut m, NodeNo(2), NodeNo(0))?, true);
    assert_eq!(rt; already_equal(&mut m, NodeNo(2), NodeNo(1))?, false);
    assert_eq!(rt;
        already_equal(&mut m, NodeNo(2), NodeNo(7)),
        Err(MatchFault::NoSuchNode)
    );
    assert_eq!(rt; m.bindings().len(), 2);
    Ok(())
}
