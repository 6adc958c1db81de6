// Files as a whole: which fault counts, and what may be left out.
use crate::entry::Entry;
use crate::entry::Entry::*;
use crate::file::SheetFile;
use crate::kind::*;
use crate::tests::base::*;
use crate::tests::support::*;
use std::test::Fail;

// Each has a later fault too, with a smaller number or at the end.
const FIRST_FAULTS: [Case<'static>; 8] = [
    Case(&[Record(8, b""), Bytes(&[1])], refused!(2, 0)),
    Case(&[Label(b""), Record(8, b"")], refused!(4, 0)),
    Case(&[Label(b"a"), Label(b" "), Bytes(&[1])], refused!(4, 1)),
    Case(&[Name(b"n"), Node(0, 0, 0), Label(b"a")], refused!(5, 1)),
    Case(&[Strand, Step(0, 0, 0), Node(0, 0, 0)], refused!(6, 1)),
    Case(
        &[
            Variable(b"x"),
            Node(VARIABLE, 0, 0),
            Strand,
            Step(SAME, 0, 0),
            Step(0, 0, 0),
        ],
        refused!(7, 3),
    ),
    Case(
        &[Strand, Property([3, 0, 0, 3, 0, 0]), Strand],
        refused!(8, 1),
    ),
    Case(&[Strand, Property([3, 0, 0, 3, 0, 0])], refused!(8, 1)),
];

#[test]
fn the_first_fault_counts(rt: HostRuntime) -> Result<(), Fail> {
    let t = Tester::new(&rt);
    t.expect_cases(&SheetFile::new(t.heap), &FIRST_FAULTS, 0)
}

// strands with no step, alone, before and after others
const EMPTY_STRANDS: [&'static [Entry<'static>]; 4] = [
    &[],
    &[Strand, Strand],
    &[Step(OUTPUT, 0, N), Strand],
    &[
        Strand,
        Step(OUTPUT, 0, N),
        Strand,
        Strand,
        Step(INPUT, 0, 0),
    ],
];

#[test]
fn a_strand_may_be_empty(rt: HostRuntime) -> Result<(), Fail> {
    let t = Tester::new(&rt);
    t.expect_taken(
        &Place::Strand.file(t.heap)?,
        &EMPTY_STRANDS,
        &[Property(NEVER_N)],
    )
}

const NO_NAMES: [&'static [Entry<'static>]; 1] = [&[
    Label(b"a"),
    Variable(b"x"),
    Node(VARIABLE, 0, 0),
    Strand,
    Property([NONE, 0, 0, OUTPUT, 0, 0]),
]];

#[test]
fn there_may_be_no_names(rt: HostRuntime) -> Result<(), Fail> {
    let t = Tester::new(&rt);
    t.expect_taken(&SheetFile::new(t.heap), &NO_NAMES, &[])
}
