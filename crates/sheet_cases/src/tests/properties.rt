// Refusal 8: the property.
use crate::entry::Entry;
use crate::entry::Entry::*;
use crate::kind::*;
use crate::tests::base::*;
use crate::tests::support::*;
use std::test::Fail;

// after a strand that binds x, and leaves y and z free
const BAD: [Entry<'static>; 24] = [
    // the later action has no direction; 258 has the low byte of an output's
    Property([NONE, 0, 0, NONE, 0, N]),
    Property([NONE, 0, 0, 3, 0, N]),
    Property([NONE, 0, 0, 258, 0, N]),
    Property([OUTPUT, 0, N, NONE, 0, N]),
    // the earlier action has a direction that is none
    Property([3, 0, N, OUTPUT, 0, N]),
    Property([256, 0, N, OUTPUT, 0, N]),
    // no earlier action, and yet a label or a node
    Property([NONE, 1, 0, OUTPUT, 0, N]),
    Property([NONE, 0, 1, OUTPUT, 0, N]),
    Property([NONE, 256, 0, OUTPUT, 0, N]),
    // an undeclared label, though there is a variable 2
    Property([NONE, 0, 0, OUTPUT, 2, N]),
    Property([OUTPUT, 2, N, OUTPUT, 0, N]),
    // no such node
    Property([NONE, 0, 0, OUTPUT, 0, NO_NODE]),
    Property([OUTPUT, 0, NO_NODE, OUTPUT, 0, N]),
    Property([NONE, 0, 0, OUTPUT, 0, 65535]),
    // a variable of the earlier action that the later one lacks
    Property([OUTPUT, 0, Y, OUTPUT, 0, N]),
    Property([OUTPUT, 0, YZ, OUTPUT, 0, Y]),
    Property([INPUT, 0, Z, INPUT, 0, N_Y]),
    Property([OUTPUT, 0, N_Y, OUTPUT, 0, Z]),
    // a variable that a step binds
    Property([NONE, 0, 0, OUTPUT, 0, X]),
    Property([NONE, 0, 0, OUTPUT, 0, N_X]),
    Property([NONE, 0, 0, INPUT, 0, XY_K]),
    Property([OUTPUT, 0, X, OUTPUT, 0, X]),
    Property([OUTPUT, 0, N, OUTPUT, 0, XY]),
    Property([OUTPUT, 0, Y, OUTPUT, 0, XYZ]),
];

#[test]
fn bad_properties(rt: HostRuntime) -> Result<(), Fail> {
    let t = Tester::new(&rt);
    t.expect_each(&[Place::Input], &BAD, 8)
}

const NEVER_Y: [u16; 6] = [NONE, 0, 0, OUTPUT, 0, Y];

// whichever step of whichever strand binds y
const BOUND: [Case<'static>; 4] = [
    Case(&[Step(INPUT, 0, 1), Property(NEVER_Y)], refused!(8, 29)),
    Case(&[Step(SPLIT, N, XY), Property(NEVER_Y)], refused!(8, 29)),
    Case(
        &[Step(INPUT, 0, 1), Strand, Property(NEVER_Y)],
        refused!(8, 30),
    ),
    Case(
        &[Strand, Step(SPLIT, N, YZ), Property(NEVER_Y)],
        refused!(8, 30),
    ),
];

#[test]
fn bound_by_a_step(rt: HostRuntime) -> Result<(), Fail> {
    let t = Tester::new(&rt);
    t.expect_cases(&Place::Strand.file(t.heap)?, &BOUND, 0)
}

// free variables in the later action, and some or all of them in the earlier one
const GOOD: [&'static [Entry<'static>]; 9] = [
    &[Property([NONE, 0, 0, INPUT, 0, N])],
    &[Property([NONE, 0, 0, OUTPUT, 1, N_K])],
    &[Property([NONE, 0, 0, OUTPUT, 0, YZ])],
    &[Property([INPUT, 1, K, OUTPUT, 0, N])],
    &[Property([OUTPUT, 0, N, OUTPUT, 0, N])],
    &[Property([OUTPUT, 0, Y, OUTPUT, 1, Y])],
    &[Property([OUTPUT, 0, N, OUTPUT, 1, Y])],
    &[Property([INPUT, 0, Z, INPUT, 1, YZ])],
    &[Property([OUTPUT, 0, Y, OUTPUT, 0, N_Y])],
];

#[test]
fn good_properties(rt: HostRuntime) -> Result<(), Fail> {
    let t = Tester::new(&rt);
    t.expect_taken(&Place::Input.file(t.heap)?, &GOOD, &[])
}
