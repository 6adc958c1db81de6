// The sheet of fifty bytes, which a new sheet is too.
use crate::entry::Entry;
use crate::file::SheetFile;
use crate::kind::*;
use crate::tests::support::*;
use protocol::{Action, Direction, Property, Step, Strand};
use sheet::{Sheet, Text};
use std::process::Abort;
use std::test::Fail;
use terms::{Label, LocalName, Node, NodeNo};

// A line for each record: label a, name n, node 0 of name 0, a strand, its output on label 0 of node 0,
// and the property that forbids it.
pub const FIRST: &'static [u8; 50] = b"\x01\0\x01\0a\
    \x01\0\x02\0n\
    \x06\0\x04\0\x01\0\0\0\0\0\
    \0\0\x05\0\
    \x06\0\x06\0\x02\0\0\0\0\0\
    \x0c\0\x07\0\0\0\0\0\0\0\x02\0\0\0\0\0";

// There is one text, and it is this one.
fn is_text(texts: &[Text], expected: &[u8]) -> bool {
    matches!(texts, [text] if text.as_bytes() == expected)
}

// There is one strand, with one step: an output on label 0 of node 0.
fn is_output(strands: &[Strand]) -> bool {
    let output = Step::Output {
        label: Label(0),
        node: NodeNo(0),
    };
    matches!(strands, [strand] if strand.steps() == [output].as_slice())
}

fn expect_first(rt: &impl Abort, sheet: &Sheet) {
    assert!(rt; is_text(sheet.labels(), b"a"), "labels");
    assert!(rt; is_text(sheet.names(), b"n"), "names");
    assert!(rt; sheet.variables().is_empty(), "variables");
    assert!(rt;
        sheet.nodes() == [Node::Name(LocalName(0))].as_slice(),
        "nodes"
    );
    assert!(rt; is_output(sheet.strands()), "strands");
    let never = Property {
        earlier: None,
        later: Action {
            direction: Direction::Output,
            label: Label(0),
            node: NodeNo(0),
        },
    };
    assert!(rt; sheet.property() == never, "property");
}

#[test]
fn is_taken(rt: HostRuntime) -> Result<(), Fail> {
    let t = Tester::new(&rt);
    let mut sheet = Sheet::new(t.heap)?;
    t.expect_into(&mut sheet, FIRST, Ok(()))?;
    expect_first(&rt, &sheet);
    t.expect_sheet(&sheet, FIRST)
}

#[test]
fn is_new(rt: HostRuntime) -> Result<(), Fail> {
    let t = Tester::new(&rt);
    let sheet = Sheet::new(t.heap)?;
    expect_first(&rt, &sheet);
    t.expect_sheet(&sheet, FIRST)
}

#[test]
fn is_made_of_its_records(rt: HostRuntime) -> Result<(), Fail> {
    let mut file = SheetFile::new(rt.alloc());
    file.entry(Entry::Label(b"a"))?;
    file.entry(Entry::Name(b"n"))?;
    file.entry(Entry::Node(NAME, 0, 0))?;
    file.entry(Entry::Strand)?;
    file.entry(Entry::Step(OUTPUT, 0, 0))?;
    file.entry(Entry::Property([NONE, 0, 0, OUTPUT, 0, 0]))?;
    assert_eq!(rt; file.as_bytes(), FIRST.as_slice());
    Ok(())
}

// one to three bytes more, and a whole record
const MORE: [Case<'static>; 6] = [
    Case(&[Entry::Bytes(&[0])], refused!(1, 6)),
    Case(&[Entry::Bytes(&[0, 0])], refused!(1, 6)),
    Case(&[Entry::Bytes(&[0, 0, 0])], refused!(1, 6)),
    Case(&[Entry::Bytes(&[0, 0, 0, 0])], refused!(2, 6)),
    Case(&[Entry::Strand], refused!(2, 6)),
    Case(&[Entry::Bytes(FIRST)], refused!(2, 6)),
];

#[test]
fn is_the_whole_file(rt: HostRuntime) -> Result<(), Fail> {
    let t = Tester::new(&rt);
    let mut file = SheetFile::new(t.heap);
    file.raw(FIRST)?;
    t.expect_cases(&file, &MORE, 0)
}
