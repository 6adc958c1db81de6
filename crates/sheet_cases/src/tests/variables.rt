// Refusal 7: a variable that is bound twice, or used before its strand has bound it.
use crate::entry::Entry;
use crate::entry::Entry::*;
use crate::kind::*;
use crate::tests::base::*;
use crate::tests::support::*;
use std::test::Fail;

const TWICE: [Case<'static>; 10] = [
    // in one strand
    Case(&[Step(INPUT, 0, 0), Step(INPUT, 1, 0)], refused!(7, 29)),
    Case(&[Step(INPUT, 0, 0), Step(OPEN, N, X_K)], refused!(7, 29)),
    Case(&[Step(OPEN, N, X_K), Step(INPUT, 0, 0)], refused!(7, 29)),
    Case(&[Step(INPUT, 0, 0), Step(SPLIT, N, XY)], refused!(7, 29)),
    Case(&[Step(INPUT, 0, 1), Step(SPLIT, N, XY)], refused!(7, 29)),
    Case(&[Step(SPLIT, N, XY), Step(INPUT, 0, 1)], refused!(7, 29)),
    // a key that the same open binds
    Case(&[Step(INPUT, 0, 0), Step(OPEN, N, X_X)], refused!(7, 29)),
    // in two strands
    Case(
        &[Step(INPUT, 0, 0), Strand, Step(INPUT, 0, 0)],
        refused!(7, 30),
    ),
    Case(
        &[Step(OPEN, N, X_K), Strand, Step(OPEN, N, X_K)],
        refused!(7, 30),
    ),
    Case(
        &[Step(SPLIT, N, XY), Strand, Step(SPLIT, N, YZ)],
        refused!(7, 30),
    ),
];

#[test]
fn bound_twice(rt: HostRuntime) -> Result<(), Fail> {
    let t = Tester::new(&rt);
    t.expect_cases(&Place::Strand.file(t.heap)?, &TWICE, 0)
}

const EARLY: [Case<'static>; 16] = [
    Case(&[Step(OUTPUT, 0, X)], refused!(7, 28)),
    Case(&[Step(OUTPUT, 0, XY_K)], refused!(7, 28)),
    Case(&[Step(OUTPUT, 0, N_X)], refused!(7, 28)),
    Case(&[Step(SAME, X, N)], refused!(7, 28)),
    Case(&[Step(SAME, N, X)], refused!(7, 28)),
    // the subject of an open and of a split
    Case(&[Step(OPEN, Y, X_K)], refused!(7, 28)),
    Case(&[Step(SPLIT, Z, XY)], refused!(7, 28)),
    // a step does not bind for itself
    Case(&[Step(OPEN, X, X_K)], refused!(7, 28)),
    Case(&[Step(SPLIT, X, XY)], refused!(7, 28)),
    Case(&[Step(OPEN, N, X_X)], refused!(7, 28)),
    // the key of an open
    Case(&[Step(OPEN, N, X_Y)], refused!(7, 28)),
    // only one of two is bound
    Case(&[Step(INPUT, 0, 0), Step(OUTPUT, 0, XY)], refused!(7, 29)),
    Case(&[Step(INPUT, 0, 0), Step(SAME, X, Y)], refused!(7, 29)),
    // bound too late
    Case(&[Step(OUTPUT, 0, X), Step(INPUT, 0, 0)], refused!(7, 28)),
    // bound in another strand
    Case(
        &[Step(INPUT, 0, 0), Strand, Step(OUTPUT, 0, X)],
        refused!(7, 30),
    ),
    Case(
        &[Step(INPUT, 0, 1), Strand, Step(OPEN, N, X_Y)],
        refused!(7, 30),
    ),
];

#[test]
fn used_too_soon(rt: HostRuntime) -> Result<(), Fail> {
    let t = Tester::new(&rt);
    t.expect_cases(&Place::Strand.file(t.heap)?, &EARLY, 0)
}

const GOOD: [&'static [Entry<'static>]; 6] = [
    &[Step(INPUT, 0, 0), Step(OUTPUT, 1, X)],
    &[
        Step(INPUT, 0, 0),
        Strand,
        Step(INPUT, 0, 1),
        Step(OUTPUT, 0, Y),
    ],
    &[Step(INPUT, 0, 1), Step(OPEN, Y, X_Y), Step(OUTPUT, 0, XY)],
    &[Step(OPEN, N, X_K), Step(OUTPUT, 0, X_X), Step(SAME, X, X)],
    &[Step(INPUT, 0, 2), Step(SPLIT, Z, XY), Step(SAME, XYZ, XY_K)],
    &[
        Step(OUTPUT, 0, N),
        Step(SAME, N, K),
        Strand,
        Step(SPLIT, N_K, YZ),
    ],
];

#[test]
fn bound_in_time(rt: HostRuntime) -> Result<(), Fail> {
    let t = Tester::new(&rt);
    t.expect_taken(&Place::Strand.file(t.heap)?, &GOOD, &[Property(NEVER_N)])
}
