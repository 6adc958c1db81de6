// A refusal leaves the sheet as it was.
use crate::entry::Entry;
use crate::entry::Entry::*;
use crate::file::SheetFile;
use crate::kind::*;
use crate::tests::base::*;
use crate::tests::first::FIRST;
use crate::tests::support::*;
use sheet::Sheet;
use std::alloc::{AllocError, Global};
use std::process::Abort;
use std::test::Fail;

const RICH: [Entry<'static>; 8] = [
    Step(INPUT, 0, 1),
    Step(OPEN, Y, X_Y),
    Step(SAME, X, YY),
    Step(OUTPUT, 1, XY_K),
    Strand,
    Strand,
    Step(OUTPUT, 1, N_K),
    Property([INPUT, 1, K, OUTPUT, 0, N_K]),
];

fn rich(heap: Global) -> Result<SheetFile, AllocError> {
    let mut file = Place::Strand.file(heap)?;
    file.entries(&RICH)?;
    Ok(file)
}

// after seven records of texts, one for each number
const BAD: [Case<'static>; 9] = [
    Case(&[Node(NAME, 1, 0), Bytes(&[1])], refused!(1, 8)),
    Case(&[Node(NAME, 1, 0), Label(b"c")], refused!(2, 8)),
    Case(
        &[
            Strand, Strand, Strand, Strand, Strand, Strand, Strand, Strand, Strand,
        ],
        refused!(3, 15),
    ),
    Case(&[Variable(b"v"), Variable(b"")], refused!(4, 8)),
    Case(&[Node(NAME, 1, 0), Node(0, 0, 0)], refused!(5, 8)),
    Case(&[Node(NAME, 1, 0), Strand, Step(0, 0, 0)], refused!(6, 9)),
    Case(
        &[Node(VARIABLE, 0, 0), Strand, Step(OUTPUT, 0, 0)],
        refused!(7, 9),
    ),
    Case(
        &[Node(NAME, 1, 0), Strand, Property([3, 0, 0, 3, 0, 0])],
        refused!(8, 9),
    ),
    Case(
        &[Node(NAME, 1, 0), Strand, Step(OUTPUT, 1, 0)],
        refused!(9, 10),
    ),
];

// Each bad file is refused, and the sheet still says what these bytes say.
fn expect_kept<R: Abort>(t: &Tester<'_, R>, sheet: &mut Sheet, bytes: &[u8]) -> Result<(), Fail> {
    let texts = Place::Texts.file(t.heap)?;
    for Case(next, refused) in &BAD {
        let mut file = texts.clone()?;
        file.entries(*next)?;
        t.expect_into(sheet, file.as_bytes(), Err(*refused))?;
        t.expect_sheet(sheet, bytes)?;
    }
    Ok(())
}

#[test]
fn a_sheet_that_was_read(rt: HostRuntime) -> Result<(), Fail> {
    let t = Tester::new(&rt);
    let file = rich(t.heap)?;
    let mut sheet = Sheet::new(t.heap)?;
    t.expect_into(&mut sheet, file.as_bytes(), Ok(()))?;
    t.expect_sheet(&sheet, file.as_bytes())?;
    expect_kept(&t, &mut sheet, file.as_bytes())
}

#[test]
fn a_new_sheet(rt: HostRuntime) -> Result<(), Fail> {
    let t = Tester::new(&rt);
    let mut sheet = Sheet::new(t.heap)?;
    expect_kept(&t, &mut sheet, FIRST)
}

#[test]
fn another_file_takes_its_place(rt: HostRuntime) -> Result<(), Fail> {
    let t = Tester::new(&rt);
    let file = rich(t.heap)?;
    let mut sheet = Sheet::new(t.heap)?;
    t.expect_into(&mut sheet, file.as_bytes(), Ok(()))?;
    t.expect_into(&mut sheet, FIRST, Ok(()))?;
    t.expect_sheet(&sheet, FIRST)
}

#[test]
fn a_clone_is_a_sheet_of_its_own(rt: HostRuntime) -> Result<(), Fail> {
    let t = Tester::new(&rt);
    let file = rich(t.heap)?;
    let mut sheet = Sheet::new(t.heap)?;
    t.expect_into(&mut sheet, file.as_bytes(), Ok(()))?;
    let clone = sheet.clone()?;
    t.expect_into(&mut sheet, FIRST, Ok(()))?;
    t.expect_sheet(&clone, file.as_bytes())?;
    t.expect_sheet(&sheet, FIRST)
}
