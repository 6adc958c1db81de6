// What the cases share.
use limits::limits;
use sheet::Sheet;
use sheet_cases::{Entry, SheetFile};
use std::alloc::Global;
use std::process::Abort;
use std::test::Fail;
use terms::StrandNo;

// What a sheet file says, and how far each strand can go; none can where there is no such strand.
pub(crate) struct Case<'a>(pub &'a [Entry<'a>], pub [usize; 8]);

// The sheet that the file with this number says has these limits.
pub(crate) fn expect_file(
    rt: &impl Abort,
    heap: Global,
    file: &SheetFile,
    numbers: &[usize; 8],
    i: usize,
) -> Result<(), Fail> {
    let mut sheet = Sheet::new(heap)?;
    sheet.read(heap, file.as_bytes())?;
    let found = limits(heap, &sheet)?;
    for k in 0..8u16 {
        assert_eq!(rt;
            found.most(StrandNo(k)),
            numbers[k as usize],
            "file {i}, strand {k}"
        );
    }
    assert_eq!(rt; found.most(StrandNo(8)), 0, "file {i}");
    Ok(())
}

pub(crate) fn expect(
    rt: &impl Abort,
    heap: Global,
    file: &SheetFile,
    numbers: &[usize; 8],
) -> Result<(), Fail> {
    expect_file(rt, heap, file, numbers, 0)
}

// Each of these goes on from the base.
pub(crate) fn expect_cases(
    rt: &impl Abort,
    heap: Global,
    base: &[Entry],
    cases: &[Case],
) -> Result<(), Fail> {
    for (i, Case(next, numbers)) in cases.iter().enumerate() {
        let mut file = SheetFile::new(heap);
        file.entries(base)?;
        file.entries(*next)?;
        expect_file(rt, heap, &file, numbers, i)?;
    }
    Ok(())
}
