// Refusal 3: a table that is full, and what a full one still takes.
use crate::entry::Entry;
use crate::entry::Entry::*;
use crate::file::SheetFile;
use crate::kind::*;
use crate::tests::support::*;
use std::alloc::{AllocError, Global};
use std::process::Abort;
use std::test::Fail;

// A table of the sheet, and the file round it.
struct Table<'a> {
    before: &'a [Entry<'a>],
    // fills the table, said again and again
    each: Entry<'a>,
    most: usize,
    // ends the file, and refers to the last of the table
    after: &'a [Entry<'a>],
    // one more, good or bad, and what is refused with a smaller number
    past: &'a [Case<'a>],
}

const LABELS: Table<'static> = Table {
    before: &[],
    each: Label(b"l"),
    most: 32,
    after: &[
        Name(b"n"),
        Node(NAME, 0, 0),
        Strand,
        Property([NONE, 0, 0, OUTPUT, 31, 0]),
    ],
    past: &[
        Case(&[Label(b"l")], refused!(3, 32)),
        Case(&[Label(b"")], refused!(3, 32)),
        Case(&[Name(b"n"), Label(b"l")], refused!(2, 33)),
        Case(&[Bytes(&[1, 0, 1, 0])], refused!(1, 32)),
    ],
};

const NAMES: Table<'static> = Table {
    before: &[Label(b"a")],
    each: Name(b"n"),
    most: 64,
    after: &[
        Node(NAME, 63, 0),
        Strand,
        Property([NONE, 0, 0, OUTPUT, 0, 0]),
    ],
    past: &[
        Case(&[Name(b"n")], refused!(3, 65)),
        Case(&[Name(b"seventeen-letters")], refused!(3, 65)),
        Case(&[Variable(b"x"), Name(b"n")], refused!(2, 66)),
        Case(&[Bytes(&[1, 0, 2, 0])], refused!(1, 65)),
    ],
};

const VARIABLES: Table<'static> = Table {
    before: &[Label(b"a"), Name(b"n")],
    each: Variable(b"v"),
    most: 64,
    after: &[
        Node(VARIABLE, 63, 0),
        Strand,
        Property([NONE, 0, 0, OUTPUT, 0, 0]),
    ],
    past: &[
        Case(&[Variable(b"v")], refused!(3, 66)),
        Case(&[Variable(b" ")], refused!(3, 66)),
        Case(&[Node(NAME, 0, 0), Variable(b"v")], refused!(2, 67)),
        Case(&[Bytes(&[1, 0, 3, 0])], refused!(1, 66)),
    ],
};

const NODES: Table<'static> = Table {
    before: &[Label(b"a"), Name(b"n")],
    each: Node(NAME, 0, 0),
    most: 256,
    after: &[Strand, Property([NONE, 0, 0, OUTPUT, 0, 255])],
    past: &[
        Case(&[Node(NAME, 0, 0)], refused!(3, 258)),
        Case(&[Node(PAIR, 255, 255)], refused!(3, 258)),
        Case(&[Node(0, 0, 0)], refused!(3, 258)),
        Case(&[Record(4, &[1, 0, 0, 0, 0])], refused!(2, 258)),
        Case(&[Strand, Node(NAME, 0, 0)], refused!(2, 259)),
        Case(&[Strand, Step(OUTPUT, 0, 256)], refused!(6, 259)),
        Case(&[Bytes(&[6, 0, 4, 0])], refused!(1, 258)),
    ],
};

const STRANDS: Table<'static> = Table {
    before: &[Label(b"a"), Name(b"n"), Node(NAME, 0, 0)],
    each: Strand,
    most: 8,
    after: &[Property([NONE, 0, 0, OUTPUT, 0, 0])],
    past: &[
        Case(&[Strand], refused!(3, 11)),
        Case(&[Step(OUTPUT, 0, 0), Strand], refused!(3, 12)),
        Case(&[Record(5, &[0])], refused!(2, 11)),
        Case(
            &[Property([NONE, 0, 0, OUTPUT, 0, 0]), Strand],
            refused!(2, 12),
        ),
        Case(&[Bytes(&[0, 0, 5])], refused!(1, 11)),
    ],
};

// node 1 is a variable that no step binds
const STEPS: Table<'static> = Table {
    before: &[
        Label(b"a"),
        Name(b"n"),
        Variable(b"x"),
        Node(NAME, 0, 0),
        Node(VARIABLE, 0, 0),
        Strand,
    ],
    each: Step(OUTPUT, 0, 0),
    most: 16,
    after: &[
        Strand,
        Step(OUTPUT, 0, 0),
        Property([NONE, 0, 0, OUTPUT, 0, 1]),
    ],
    past: &[
        Case(&[Step(OUTPUT, 0, 0)], refused!(3, 22)),
        Case(&[Step(0, 0, 0)], refused!(3, 22)),
        Case(&[Step(OUTPUT, 1, 1)], refused!(3, 22)),
        Case(&[Step(OUTPUT, 0, 1)], refused!(3, 22)),
        Case(&[Record(6, &[2, 0, 0, 0, 0])], refused!(2, 22)),
        Case(
            &[Property([NONE, 0, 0, OUTPUT, 0, 0]), Step(OUTPUT, 0, 0)],
            refused!(2, 23),
        ),
        Case(&[Bytes(&[6, 0, 6, 0])], refused!(1, 22)),
    ],
};

const TABLES: [Table<'static>; 6] = [LABELS, NAMES, VARIABLES, NODES, STRANDS, STEPS];

fn fill(file: &mut SheetFile, table: &Table) -> Result<(), AllocError> {
    file.repeat(table.each, table.most)
}

// A full table is taken, and nothing more in it.
fn expect_table<R: Abort>(t: &Tester<'_, R>, table: &Table, i: usize) -> Result<(), Fail> {
    let mut file = SheetFile::new(t.heap);
    file.entries(table.before)?;
    fill(&mut file, table)?;
    t.expect_cases(&file, table.past, i)?;
    file.entries(table.after)?;
    t.expect_whole(&file, i)
}

#[test]
fn each_table(rt: HostRuntime) -> Result<(), Fail> {
    let t = Tester::new(&rt);
    for (i, table) in TABLES.iter().enumerate() {
        expect_table(&t, table, i)?;
    }
    Ok(())
}

// Every table full, and no property yet: 32 + 64 + 64 + 256 + 8 * 17 records.
fn fullest(heap: Global) -> Result<SheetFile, AllocError> {
    let mut file = SheetFile::new(heap);
    fill(&mut file, &LABELS)?;
    fill(&mut file, &NAMES)?;
    fill(&mut file, &VARIABLES)?;
    fill(&mut file, &NODES)?;
    for _ in 0..8 {
        file.entry(Strand)?;
        fill(&mut file, &STEPS)?;
    }
    Ok(file)
}

const FULLEST_GOOD: [&'static [Entry<'static>]; 1] = [&[Property([
    INPUT, 31, 255, OUTPUT, 31, 255,
])]];

const FULLEST_BAD: [Case<'static>; 4] = [
    Case(&[Strand], refused!(3, 552)),
    Case(&[Step(OUTPUT, 0, 0)], refused!(3, 552)),
    Case(&[Node(NAME, 0, 0)], refused!(2, 552)),
    Case(&[], refused!(9, 552)),
];

#[test]
fn all_at_once(rt: HostRuntime) -> Result<(), Fail> {
    let t = Tester::new(&rt);
    let file = fullest(t.heap)?;
    t.expect_taken(&file, &FULLEST_GOOD, &[])?;
    t.expect_cases(&file, &FULLEST_BAD, 0)
}
