// Keys that a later step makes none, and keys that stay names.
use crate::tests::support::*;
use sheet_cases::Entry;
use sheet_cases::Entry::*;
use sheet_cases::kind::*;
use std::test::Fail;

// the numbers of the nodes: N_X is n sealed under x, and N_N_Y the pair of n and n sealed under y
const N: u16 = 0;

const K: u16 = 1;

const X: u16 = 2;

const Y: u16 = 3;

const Z: u16 = 4;

const U: u16 = 5;

const YZ: u16 = 6;

const ZU: u16 = 7;

const N_X: u16 = 8;

const N_Y: u16 = 9;

const Y_K: u16 = 10;

const Z_Y: u16 = 11;

const N_N_Y: u16 = 12;

const U_K: u16 = 13;

const BASE: [Entry<'static>; 22] = [
    Label(b"a"),
    Name(b"n"),
    Name(b"k"),
    Variable(b"x"),
    Variable(b"y"),
    Variable(b"z"),
    Variable(b"u"),
    Node(NAME, 0, 0),
    Node(NAME, 1, 0),
    Node(VARIABLE, 0, 0),
    Node(VARIABLE, 1, 0),
    Node(VARIABLE, 2, 0),
    Node(VARIABLE, 3, 0),
    Node(PAIR, Y, Z),
    Node(PAIR, Z, U),
    Node(SEAL, N, X),
    Node(SEAL, N, Y),
    Node(SEAL, Y, K),
    Node(SEAL, Z, Y),
    Node(PAIR, N, N_Y),
    Node(SEAL, U, K),
    Strand,
];

// never an output of n
const END: Entry<'static> = Property([NONE, 0, 0, OUTPUT, 0, N]);

const CASES: [Case<'static>; 12] = [
    // a key that a split makes a pair, and an open a seal
    Case(
        &[
            Step(INPUT, 0, 0),
            Step(OUTPUT, 0, N_X),
            Step(SPLIT, X, YZ),
            END,
        ],
        [2, 0, 0, 0, 0, 0, 0, 0],
    ),
    Case(
        &[
            Step(INPUT, 0, 0),
            Step(OUTPUT, 0, N_X),
            Step(OPEN, X, Y_K),
            END,
        ],
        [2, 0, 0, 0, 0, 0, 0, 0],
    ),
    // the other way about
    Case(
        &[
            Step(INPUT, 0, 0),
            Step(SPLIT, X, YZ),
            Step(OUTPUT, 0, N_X),
            END,
        ],
        [2, 0, 0, 0, 0, 0, 0, 0],
    ),
    // one that becomes a name
    Case(
        &[
            Step(INPUT, 0, 0),
            Step(OUTPUT, 0, N_X),
            Step(SAME, X, K),
            END,
        ],
        [3, 0, 0, 0, 0, 0, 0, 0],
    ),
    // a half may be a key, where the whole is none
    Case(
        &[
            Step(INPUT, 0, 0),
            Step(SPLIT, X, YZ),
            Step(OUTPUT, 0, N_Y),
            Step(OUTPUT, 0, N_X),
            END,
        ],
        [3, 0, 0, 0, 0, 0, 0, 0],
    ),
    // by way of another variable
    Case(
        &[
            Step(INPUT, 0, 0),
            Step(INPUT, 0, 1),
            Step(OUTPUT, 0, N_X),
            Step(SAME, X, Y),
            Step(SPLIT, Y, ZU),
            END,
        ],
        [4, 0, 0, 0, 0, 0, 0, 0],
    ),
    // the key of what came in: an input is an action too
    Case(
        &[
            Step(INPUT, 0, 0),
            Step(INPUT, 0, 1),
            Step(OPEN, X, Z_Y),
            Step(OPEN, Y, U_K),
            END,
        ],
        [3, 0, 0, 0, 0, 0, 0, 0],
    ),
    // a key deep in what came in
    Case(
        &[
            Step(INPUT, 0, 0),
            Step(INPUT, 0, 1),
            Step(SAME, X, N_N_Y),
            Step(SPLIT, Y, ZU),
            END,
        ],
        [3, 0, 0, 0, 0, 0, 0, 0],
    ),
    // a value inside itself
    Case(
        &[Step(INPUT, 0, 0), Step(OPEN, X, Y_K), Step(SAME, X, Y), END],
        [2, 0, 0, 0, 0, 0, 0, 0],
    ),
    // names that differ, and what follows such a step
    Case(
        &[Step(SAME, N, K), Step(OUTPUT, 0, N), END],
        [0, 0, 0, 0, 0, 0, 0, 0],
    ),
    // no step
    Case(&[END], [0, 0, 0, 0, 0, 0, 0, 0]),
    // each strand on its own
    Case(
        &[
            Step(INPUT, 0, 0),
            Step(OUTPUT, 0, N_X),
            Strand,
            Step(SAME, N, K),
            Strand,
            Strand,
            Step(INPUT, 0, 1),
            Step(SPLIT, Y, ZU),
            Step(OUTPUT, 0, N_Y),
            END,
        ],
        [2, 0, 0, 2, 0, 0, 0, 0],
    ),
];

#[test]
fn keys_that_become_none(rt: HostRuntime) -> Result<(), Fail> {
    expect_cases(&rt, rt.alloc(), &BASE, &CASES)
}
