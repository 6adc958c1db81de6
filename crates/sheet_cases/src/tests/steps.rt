// Refusal 6: a step.
use crate::entry::Entry;
use crate::entry::Entry::*;
use crate::kind::*;
use crate::tests::base::*;
use crate::tests::support::*;
use std::test::Fail;

// what no step may be; n is closed, so that no variable is in the way
const BAD: [Entry<'static>; 30] = [
    // a kind that no step has; 257 has the low byte of an input's kind
    Step(0, 0, 0),
    Step(6, 0, 0),
    Step(257, 0, 0),
    Step(65535, 0, 0),
    // an undeclared label, though there is a variable 2
    Step(INPUT, 2, 0),
    Step(OUTPUT, 2, N),
    Step(OUTPUT, 65535, N),
    // an undeclared variable
    Step(INPUT, 0, 3),
    Step(INPUT, 0, 64),
    // no such node
    Step(OUTPUT, 0, NO_NODE),
    Step(OPEN, NO_NODE, X_K),
    Step(OPEN, N, NO_NODE),
    Step(SPLIT, NO_NODE, XY),
    Step(SPLIT, N, NO_NODE),
    Step(SAME, NO_NODE, N),
    Step(SAME, N, NO_NODE),
    Step(SAME, N, 65535),
    // an open by a pattern that is not sealed
    Step(OPEN, N, N),
    Step(OPEN, N, X),
    Step(OPEN, N, XY),
    // an open by a pattern whose body is no variable
    Step(OPEN, N, N_K),
    Step(OPEN, N, XY_K),
    // a split by one variable twice, through one node and through two
    Step(SPLIT, N, YY),
    Step(SPLIT, N, YY2),
    // a split by a half that is no variable
    Step(SPLIT, N, YN),
    Step(SPLIT, N, NY),
    Step(SPLIT, N, XYZ),
    // a split by what is no pair
    Step(SPLIT, N, N),
    Step(SPLIT, N, X),
    Step(SPLIT, N, X_Y),
];

#[test]
fn bad_steps(rt: HostRuntime) -> Result<(), Fail> {
    let t = Tester::new(&rt);
    t.expect_each(&[Place::Strand], &BAD, 6)
}

// Where x is bound and y is not, each of these binds x again or uses y too, which would be refused 7.
const BAD_TWICE: [Entry<'static>; 11] = [
    Step(INPUT, 2, 0),
    Step(OUTPUT, 2, Y),
    Step(OPEN, NO_NODE, X_K),
    Step(OPEN, Y, NO_NODE),
    Step(OPEN, Y, N_K),
    Step(OPEN, N, N_Y),
    Step(SPLIT, Y, YY),
    Step(SPLIT, Y, YN),
    Step(SPLIT, N, XYZ),
    Step(SAME, NO_NODE, Y),
    Step(SAME, Y, NO_NODE),
];

#[test]
fn before_variables(rt: HostRuntime) -> Result<(), Fail> {
    let t = Tester::new(&rt);
    t.expect_each(&[Place::Input], &BAD_TWICE, 6)
}
