// Refusal 2: the kind of a record, its order or its fixed length.
use crate::entry::Entry;
use crate::entry::Entry::*;
use crate::file::SheetFile;
use crate::kind::*;
use crate::tests::base::*;
use crate::tests::support::*;
use std::test::Fail;

// no record is of these kinds; 257 has the low byte of a label's
const UNKNOWN: [Entry<'static>; 4] = [
    Record(0, b"a"),
    Record(8, b""),
    Record(257, b"a"),
    Record(65535, b"a"),
];

#[test]
fn unknown_kinds(rt: HostRuntime) -> Result<(), Fail> {
    let t = Tester::new(&rt);
    t.expect_each(
        &[Place::Start, Place::Texts, Place::Strand, Place::End],
        &UNKNOWN,
        2,
    )
}

const SOON: [Entry<'static>; 4] = [
    // a step and a property before the first strand
    Step(INPUT, 0, 0),
    Property(NEVER_N),
    // the same, where the step would be refused 6 and the property 8
    Step(0, 0, 0),
    Property([3, 0, 0, 3, 0, 0]),
];

#[test]
fn before_a_strand(rt: HostRuntime) -> Result<(), Fail> {
    let t = Tester::new(&rt);
    t.expect_each(&[Place::Start, Place::Texts, Place::Nodes], &SOON, 2)
}

// each kind of text after each later kind, where nothing else is before it
const TEXTS_LATE: [Case<'static>; 12] = [
    Case(&[Name(b"n"), Label(b"a")], refused!(2, 1)),
    Case(&[Variable(b"x"), Label(b"a")], refused!(2, 1)),
    Case(&[Variable(b"x"), Name(b"n")], refused!(2, 1)),
    Case(&[Name(b"n"), Node(NAME, 0, 0), Label(b"a")], refused!(2, 2)),
    Case(&[Name(b"n"), Node(NAME, 0, 0), Name(b"k")], refused!(2, 2)),
    Case(
        &[Name(b"n"), Node(NAME, 0, 0), Variable(b"x")],
        refused!(2, 2),
    ),
    Case(&[Strand, Label(b"a")], refused!(2, 1)),
    Case(&[Strand, Name(b"n")], refused!(2, 1)),
    Case(&[Strand, Variable(b"x")], refused!(2, 1)),
    // the same, where the text would be refused 4
    Case(&[Name(b"n"), Label(b"")], refused!(2, 1)),
    Case(&[Variable(b"x"), Label(b" ")], refused!(2, 1)),
    Case(&[Variable(b"x"), Name(b"\x7f")], refused!(2, 1)),
];

#[test]
fn texts_in_order(rt: HostRuntime) -> Result<(), Fail> {
    let t = Tester::new(&rt);
    t.expect_cases(&SheetFile::new(t.heap), &TEXTS_LATE, 0)
}

const TEXTS: [Entry<'static>; 6] = [
    Label(b"a"),
    Name(b"n"),
    Variable(b"x"),
    // the same, where the text would be refused 4
    Label(b""),
    Name(b""),
    Variable(b"seventeen-letters"),
];

#[test]
fn texts_before_nodes(rt: HostRuntime) -> Result<(), Fail> {
    let t = Tester::new(&rt);
    t.expect_each(
        &[Place::Nodes, Place::Strand, Place::Input, Place::End],
        &TEXTS,
        2,
    )
}

// a node, and one that would be refused 5
const NODES: [Entry<'static>; 2] = [Node(NAME, 0, 0), Node(0, 0, 0)];

#[test]
fn nodes_before_strands(rt: HostRuntime) -> Result<(), Fail> {
    let t = Tester::new(&rt);
    t.expect_each(&[Place::Strand, Place::Input, Place::End], &NODES, 2)
}

// nothing comes after the property
const LATE: [Entry<'static>; 7] = [
    Strand,
    Step(OUTPUT, 0, N),
    Property(NEVER_N),
    // a step that would be refused 6, and one that would be refused 7
    Step(0, 0, 0),
    Step(OUTPUT, 0, X),
    // a property that would be refused 8
    Property([3, 0, 0, OUTPUT, 0, N]),
    // a strand of a wrong length
    Record(5, b"a"),
];

#[test]
fn after_the_property(rt: HostRuntime) -> Result<(), Fail> {
    let t = Tester::new(&rt);
    t.expect_each(&[Place::End], &LATE, 2)
}

// nodes and strands of another length than 6 and 0
const LONG_OR_SHORT: [Entry<'static>; 7] = [
    Record(4, &[]),
    Record(4, &[1, 0, 0, 0]),
    Record(4, &[1, 0, 0, 0, 0]),
    Record(4, &[1, 0, 0, 0, 0, 0, 0]),
    // would be refused 5
    Record(4, &[0, 0, 0, 0, 0]),
    Record(4, &[6, 0, 0, 0, 0, 0, 0, 0]),
    Record(5, &[0]),
];

#[test]
fn fixed_lengths(rt: HostRuntime) -> Result<(), Fail> {
    let t = Tester::new(&rt);
    t.expect_each(&[Place::Texts, Place::Nodes], &LONG_OR_SHORT, 2)
}

// steps, strands and properties of another length than 6, 0 and 12
const LONG_OR_SHORT_LATER: [Entry<'static>; 10] = [
    Record(5, &[0, 0, 0, 0, 0, 0]),
    Record(6, &[]),
    Record(6, &[2, 0, 0, 0, 0]),
    Record(6, &[2, 0, 0, 0, 0, 0, 0]),
    // would be refused 6
    Record(6, &[0, 0, 0, 0, 0]),
    Record(7, &[]),
    Record(7, &[0, 0, 0, 0, 0, 0, 2, 0, 0, 0, 0]),
    Record(7, &[0, 0, 0, 0, 0, 0, 2, 0, 0, 0, 0, 0, 0]),
    Record(7, &[2, 0, 0, 0, 0, 0]),
    // would be refused 8
    Record(7, &[3, 0, 0, 0, 0, 0, 3, 0, 0, 0, 0]),
];

#[test]
fn later_fixed_lengths(rt: HostRuntime) -> Result<(), Fail> {
    let t = Tester::new(&rt);
    t.expect_each(&[Place::Strand, Place::Input], &LONG_OR_SHORT_LATER, 2)
}
