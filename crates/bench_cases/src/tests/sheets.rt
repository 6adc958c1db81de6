// The sheets that more than one subject plays, and the largest ones.
use crate::tests::script::read_sheet;
use sheet::Sheet;
use sheet_cases::kind::{INPUT, NAME, NONE, OUTPUT, PAIR, SEAL, VARIABLE};
use sheet_cases::{Entry, SheetFile};
use std::alloc::Global;
use std::test::Fail;

// names d and k: strand 0 sends ({d}k, k), strand 1 takes x; d is never to be taken
pub(crate) const SECRET_TOLD: [Entry; 14] = [
    Entry::Label(b"n"),
    Entry::Label(b"g"),
    Entry::Name(b"d"),
    Entry::Name(b"k"),
    Entry::Variable(b"x"),
    Entry::Node(NAME, 0, 0),
    Entry::Node(NAME, 1, 0),
    Entry::Node(SEAL, 0, 1),
    Entry::Node(PAIR, 2, 1),
    Entry::Strand,
    Entry::Step(OUTPUT, 0, 3),
    Entry::Strand,
    Entry::Step(INPUT, 1, 0),
    Entry::Property([NONE, 0, 0, INPUT, 1, 0]),
];

// name n goes out on b; what goes out on b is to go out on a before
pub(crate) const NOT_PASSED_ON: [Entry; 9] = [
    Entry::Label(b"a"),
    Entry::Label(b"b"),
    Entry::Name(b"n"),
    Entry::Variable(b"v"),
    Entry::Node(NAME, 0, 0),
    Entry::Node(VARIABLE, 0, 0),
    Entry::Strand,
    Entry::Step(OUTPUT, 1, 0),
    Entry::Property([OUTPUT, 0, 1, OUTPUT, 1, 1]),
];

// name n: strand 0 has no step; strand 1 takes x and sends {n}x
pub(crate) const SEALED_UNDER_FED: [Entry; 12] = [
    Entry::Label(b"a"),
    Entry::Label(b"b"),
    Entry::Name(b"n"),
    Entry::Variable(b"x"),
    Entry::Node(NAME, 0, 0),
    Entry::Node(VARIABLE, 0, 0),
    Entry::Node(SEAL, 0, 1),
    Entry::Strand,
    Entry::Strand,
    Entry::Step(INPUT, 0, 0),
    Entry::Step(OUTPUT, 1, 2),
    Entry::Property([NONE, 0, 0, OUTPUT, 1, 0]),
];

// 64 names and 192 pairs, each of the one before with itself; every strand sends the last of them 16 times.
pub(crate) fn all_outputs(heap: Global) -> Result<Sheet, Fail> {
    let mut file = SheetFile::new(heap);
    file.entry(Entry::Label(b"a"))?;
    file.repeat(Entry::Name(b"n"), 64)?;
    for i in 0..64u16 {
        file.entry(Entry::Node(NAME, i, 0))?;
    }
    for i in 63..255u16 {
        file.entry(Entry::Node(PAIR, i, i))?;
    }
    for _ in 0..8u16 {
        file.entry(Entry::Strand)?;
        file.repeat(Entry::Step(OUTPUT, 0, 255), 16)?;
    }
    file.entry(Entry::Property([NONE, 0, 0, OUTPUT, 0, 255]))?;
    read_sheet(heap, &file)
}

// Four strands of 16 inputs, and so all 64 variables.
pub(crate) fn all_inputs(heap: Global) -> Result<Sheet, Fail> {
    let mut file = SheetFile::new(heap);
    file.entry(Entry::Label(b"a"))?;
    file.entry(Entry::Name(b"n"))?;
    file.repeat(Entry::Variable(b"x"), 64)?;
    file.entry(Entry::Node(NAME, 0, 0))?;
    for strand in 0..4u16 {
        file.entry(Entry::Strand)?;
        for i in 0..16u16 {
            file.entry(Entry::Step(INPUT, 0, strand * 16 + i))?;
        }
    }
    file.entry(Entry::Property([NONE, 0, 0, OUTPUT, 0, 0]))?;
    read_sheet(heap, &file)
}
