// The sheets whose verdicts are known.
use crate::tests::support::*;
use sheet_cases::Entry;
use sheet_cases::Entry::*;
use sheet_cases::kind::*;
use std::test::Fail;

// nodes: d, k, d sealed under k, and the pair of that and k
const SECRET: [Entry<'static>; 9] = [
    Label(b"n"),
    Label(b"g"),
    Name(b"d"),
    Name(b"k"),
    Variable(b"x"),
    Node(NAME, 0, 0),
    Node(NAME, 1, 0),
    Node(SEAL, 0, 1),
    Node(PAIR, 2, 1),
];

const OF_SECRET: [Case<'static>; 3] = [
    Case(
        &[
            Strand,
            Step(OUTPUT, 0, 2),
            Strand,
            Step(INPUT, 1, 0),
            Property([NONE, 0, 0, INPUT, 1, 0]),
        ],
        [1, 1, 0, 0, 0, 0, 0, 0],
    ),
    Case(
        &[
            Strand,
            Step(OUTPUT, 0, 3),
            Strand,
            Step(INPUT, 1, 0),
            Property([NONE, 0, 0, INPUT, 1, 0]),
        ],
        [1, 1, 0, 0, 0, 0, 0, 0],
    ),
    Case(
        &[
            Strand,
            Step(INPUT, 1, 0),
            Strand,
            Step(OUTPUT, 0, 3),
            Property([NONE, 0, 0, INPUT, 1, 0]),
        ],
        [1, 1, 0, 0, 0, 0, 0, 0],
    ),
];

#[test]
fn a_secret(rt: HostRuntime) -> Result<(), Fail> {
    expect_cases(&rt, rt.alloc(), &SECRET, &OF_SECRET)
}

const OTHERS: [Case<'static>; 4] = [
    // output b of n; output a of v before output b of v
    Case(
        &[
            Label(b"a"),
            Label(b"b"),
            Name(b"n"),
            Variable(b"v"),
            Node(NAME, 0, 0),
            Node(VARIABLE, 0, 0),
            Strand,
            Step(OUTPUT, 1, 0),
            Property([OUTPUT, 0, 1, OUTPUT, 1, 1]),
        ],
        [1, 0, 0, 0, 0, 0, 0, 0],
    ),
    // input x, input y, output a of x, output b of y
    Case(
        &[
            Label(b"a"),
            Label(b"b"),
            Label(b"c"),
            Variable(b"v"),
            Variable(b"x"),
            Variable(b"y"),
            Node(VARIABLE, 0, 0),
            Node(VARIABLE, 1, 0),
            Node(VARIABLE, 2, 0),
            Strand,
            Step(INPUT, 2, 1),
            Step(INPUT, 2, 2),
            Step(OUTPUT, 0, 1),
            Step(OUTPUT, 1, 2),
            Property([OUTPUT, 0, 0, OUTPUT, 1, 0]),
        ],
        [4, 0, 0, 0, 0, 0, 0, 0],
    ),
    // input x, same x and the pair of x and x
    Case(
        &[
            Label(b"a"),
            Label(b"b"),
            Name(b"n"),
            Variable(b"x"),
            Node(NAME, 0, 0),
            Node(VARIABLE, 0, 0),
            Node(PAIR, 1, 1),
            Strand,
            Step(INPUT, 0, 0),
            Step(SAME, 1, 2),
            Property([NONE, 0, 0, OUTPUT, 1, 0]),
        ],
        [1, 0, 0, 0, 0, 0, 0, 0],
    ),
    // input x, output b of n sealed under x
    Case(
        &[
            Label(b"a"),
            Label(b"b"),
            Label(b"c"),
            Name(b"n"),
            Variable(b"x"),
            Node(NAME, 0, 0),
            Node(VARIABLE, 0, 0),
            Node(SEAL, 0, 1),
            Strand,
            Step(INPUT, 0, 0),
            Step(OUTPUT, 1, 2),
            Property([NONE, 0, 0, OUTPUT, 2, 0]),
        ],
        [2, 0, 0, 0, 0, 0, 0, 0],
    ),
];

#[test]
fn the_others(rt: HostRuntime) -> Result<(), Fail> {
    expect_cases(&rt, rt.alloc(), &[], &OTHERS)
}
