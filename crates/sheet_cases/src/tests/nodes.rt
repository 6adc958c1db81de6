// Refusal 5: a node.
use crate::entry::Entry;
use crate::entry::Entry::*;
use crate::file::SheetFile;
use crate::kind::*;
use crate::tests::base::*;
use crate::tests::support::*;
use std::alloc::{AllocError, Global};
use std::test::Fail;

// what no node may be after the 20 nodes of the base
const BAD: [Entry<'static>; 25] = [
    // a kind that no node of a sheet has; 257 has the low byte of a name's kind
    Node(0, 0, 0),
    Node(5, 0, 0),
    Node(6, 0, 0),
    Node(257, 0, 0),
    Node(65535, 0, 0),
    // an undeclared name, though there is a variable 2
    Node(NAME, 2, 0),
    Node(NAME, 65535, 0),
    // an undeclared variable
    Node(VARIABLE, 3, 0),
    Node(VARIABLE, 64, 0),
    // a second field where there is none
    Node(NAME, 0, 1),
    Node(NAME, 0, 256),
    Node(VARIABLE, 0, 1),
    Node(VARIABLE, 0, 65535),
    // a reference to the node itself, or to a later one
    Node(PAIR, 20, N),
    Node(PAIR, N, 20),
    Node(PAIR, 21, N),
    Node(PAIR, N, 21),
    Node(PAIR, 65535, N),
    Node(SEAL, 20, K),
    Node(SEAL, N, 20),
    Node(SEAL, 21, K),
    Node(SEAL, N, 21),
    // a key that is a pair, and one that is sealed
    Node(SEAL, N, XY),
    Node(SEAL, N, N_K),
    Node(SEAL, X, X_Y),
];

#[test]
fn bad_nodes(rt: HostRuntime) -> Result<(), Fail> {
    let t = Tester::new(&rt);
    t.expect_each(&[Place::Nodes], &BAD, 5)
}

// the first node has none to refer to, not even itself
const SELF: [Entry<'static>; 2] = [Node(PAIR, 0, 0), Node(SEAL, 0, 0)];

#[test]
fn no_node_of_itself(rt: HostRuntime) -> Result<(), Fail> {
    let t = Tester::new(&rt);
    t.expect_each(&[Place::Texts], &SELF, 5)
}

// where nothing is declared
const UNDECLARED: [Case<'static>; 4] = [
    Case(&[Node(NAME, 0, 0)], refused!(5, 0)),
    Case(&[Node(VARIABLE, 0, 0)], refused!(5, 0)),
    Case(&[Variable(b"x"), Node(NAME, 0, 0)], refused!(5, 1)),
    Case(&[Name(b"n"), Node(VARIABLE, 0, 0)], refused!(5, 1)),
];

#[test]
fn undeclared(rt: HostRuntime) -> Result<(), Fail> {
    let t = Tester::new(&rt);
    t.expect_cases(&SheetFile::new(t.heap), &UNDECLARED, 0)
}

// the last name and variable, the latest node, and keys that are names and variables
const GOOD: [&'static [Entry<'static>]; 6] = [
    &[Node(NAME, 1, 0)],
    &[Node(VARIABLE, 2, 0)],
    &[Node(PAIR, 19, 19)],
    &[Node(SEAL, 19, K)],
    &[Node(SEAL, 19, Z)],
    &[Node(SEAL, K, K), Node(PAIR, 20, 20)],
];

#[test]
fn good_nodes(rt: HostRuntime) -> Result<(), Fail> {
    let t = Tester::new(&rt);
    t.expect_taken(
        &Place::Nodes.file(t.heap)?,
        &GOOD,
        &[Strand, Property(NEVER_N)],
    )
}

// A label, a name and a variable, then node 0 of this kind, and 255 pairs, each of the node before with itself.
// The next record is 259. The last tree has 2 to the 255 leaves: to walk it would never end.
fn tower(heap: Global, kind: u16) -> Result<SheetFile, AllocError> {
    let mut file = SheetFile::new(heap);
    file.entry(Label(b"a"))?;
    file.entry(Name(b"n"))?;
    file.entry(Variable(b"x"))?;
    file.entry(Node(kind, 0, 0))?;
    for below in 0..255 {
        file.entry(Node(PAIR, below, below))?;
    }
    Ok(file)
}

const HIGH: [u16; 6] = [OUTPUT, 0, 254, OUTPUT, 0, 255];

const HIGH_GOOD: [&'static [Entry<'static>]; 2] = [
    &[Strand],
    &[
        Strand,
        Step(INPUT, 0, 0),
        Step(SAME, 254, 255),
        Step(OUTPUT, 0, 255),
    ],
];

#[test]
fn a_tower_of_names(rt: HostRuntime) -> Result<(), Fail> {
    let t = Tester::new(&rt);
    t.expect_taken(&tower(t.heap, NAME)?, &HIGH_GOOD, &[Property(HIGH)])
}

const HIGH_BAD: [Case<'static>; 3] = [
    // x is not bound
    Case(&[Strand, Step(OUTPUT, 0, 255)], refused!(7, 260)),
    Case(&[Strand, Step(SAME, 254, 255)], refused!(7, 260)),
    // x is bound, and stands in the property
    Case(
        &[
            Strand,
            Step(INPUT, 0, 0),
            Step(OUTPUT, 0, 255),
            Property(HIGH),
        ],
        refused!(8, 262),
    ),
];

#[test]
fn a_tower_of_variables(rt: HostRuntime) -> Result<(), Fail> {
    let t = Tester::new(&rt);
    let file = tower(t.heap, VARIABLE)?;
    t.expect_taken(&file, &[&[Strand]], &[Property(HIGH)])?;
    t.expect_cases(&file, &HIGH_BAD, 0)
}
