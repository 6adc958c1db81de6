// Refusal 9: the file ends and no property has come. The record is the number of records read.
use crate::entry::Entry::*;
use crate::file::SheetFile;
use crate::kind::*;
use crate::tests::base::Place;
use crate::tests::support::*;
use std::test::Fail;

const SHORT: [Case<'static>; 6] = [
    // the empty file
    Case(&[], refused!(9, 0)),
    Case(&[Label(b"a")], refused!(9, 1)),
    Case(&[Label(b"a"), Name(b"n")], refused!(9, 2)),
    Case(&[Label(b"a"), Name(b"n"), Variable(b"x")], refused!(9, 3)),
    Case(&[Label(b"a"), Name(b"n"), Node(NAME, 0, 0)], refused!(9, 3)),
    Case(&[Strand], refused!(9, 1)),
];

const LONG: [Case<'static>; 4] = [
    Case(&[], refused!(9, 27)),
    Case(&[Strand], refused!(9, 28)),
    Case(&[Strand, Step(INPUT, 0, 0)], refused!(9, 29)),
    Case(&[Strand, Step(INPUT, 0, 0), Strand], refused!(9, 30)),
];

#[test]
fn without_a_property(rt: HostRuntime) -> Result<(), Fail> {
    let t = Tester::new(&rt);
    t.expect_cases(&SheetFile::new(t.heap), &SHORT, 0)?;
    t.expect_cases(&Place::Nodes.file(t.heap)?, &LONG, 0)
}
