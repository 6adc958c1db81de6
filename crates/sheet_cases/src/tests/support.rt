// What the cases share.
use crate::entry::Entry;
use crate::file::SheetFile;
use crate::reply::{Refused, Reply, reply_of, reply_to};
use crate::tests::base::Place;
use crate::tests::written::file_of;
use sheet::Sheet;
use std::alloc::{AllocError, Global};
use std::process::Abort;
use std::test::Fail;

// A refusal by its number and its record. A macro, since tables of cases are constants, and a constant calls no function.
macro_rules! refused {
    ($number:expr, $record:expr) => {
        $crate::Refused {
            number: $number,
            record: $record,
        }
    };
}

pub(crate) use refused;

// What follows a base, and how the file is refused.
pub struct Case<'a>(pub &'a [Entry<'a>], pub Refused);

// What every case needs: the handle that ends it where it fails, and memory. The notebooks' tests have the like, in a crate
// of their own: one more crate for both would be longer.
#[derive(Drop)]
pub struct Tester<'a, R> {
    pub rt: &'a R,
    pub heap: Global,
}

impl<'a, R: AllocGlobal> Tester<'a, R> {
    pub fn new(rt: &'a R) -> Tester<'a, R> {
        Tester {
            rt,
            heap: rt.alloc(),
        }
    }
}

impl<R: Abort> Tester<'_, R> {
    // The file, read into a new sheet, has this reply.
    pub fn expect(&self, file: &SheetFile, expected: Reply) -> Result<(), Fail> {
        assert_eq!(self.rt; reply_to(self.heap, file.as_bytes())?, expected);
        Ok(())
    }

    // Reads the file into this sheet, and sees to the reply.
    pub fn expect_into(
        &self,
        sheet: &mut Sheet,
        bytes: &[u8],
        expected: Reply,
    ) -> Result<(), Fail> {
        assert_eq!(self.rt; reply_of(sheet.read(self.heap, bytes))?, expected);
        Ok(())
    }

    // The queries of the sheet say what the file says: written out again they are its bytes.
    pub fn expect_sheet(&self, sheet: &Sheet, bytes: &[u8]) -> Result<(), Fail> {
        assert_eq!(self.rt; file_of(self.heap, sheet)?.as_bytes(), bytes);
        Ok(())
    }

    // The reply to a file that goes on with these.
    fn reply_after(&self, base: &SheetFile, next: &[Entry]) -> Result<Reply, AllocError> {
        let mut file = base.clone()?;
        file.entries(next)?;
        reply_to(self.heap, file.as_bytes())
    }

    // The replies to these cases, in a row of tables that has the number.
    pub fn expect_cases(&self, base: &SheetFile, cases: &[Case], row: usize) -> Result<(), Fail> {
        for (i, Case(next, refused)) in cases.iter().enumerate() {
            let reply = self.reply_after(base, *next)?;
            assert_eq!(self.rt; reply, Err(*refused), "row {row}, case {i}");
        }
        Ok(())
    }

    // Each of these is refused with this number, as the next record at each place.
    pub fn expect_each(&self, places: &[Place], next: &[Entry], number: u16) -> Result<(), Fail> {
        for place in places {
            let base = place.file(self.heap)?;
            for (i, e) in next.iter().enumerate() {
                let reply = self.reply_after(&base, &[*e])?;
                assert_eq!(self.rt; reply, Err(refused!(number, place.record())), "entry {i}");
            }
        }
        Ok(())
    }

    // The file is taken, and the queries of the sheet then say what it says: as `expect` and
    // `expect_sheet`, but a failure names the file.
    pub fn expect_whole(&self, file: &SheetFile, i: usize) -> Result<(), Fail> {
        let mut sheet = Sheet::new(self.heap)?;
        let reply = reply_of(sheet.read(self.heap, file.as_bytes()))?;
        assert_eq!(self.rt; reply, Ok(()), "file {i}");
        let written = file_of(self.heap, &sheet)?;
        assert_eq!(self.rt; written.as_bytes(), file.as_bytes(), "file {i}");
        Ok(())
    }

    // Each of these may come next, where the rest then ends the file.
    pub fn expect_taken(
        &self,
        base: &SheetFile,
        next: &[&[Entry]],
        rest: &[Entry],
    ) -> Result<(), Fail> {
        for (i, entries) in next.iter().enumerate() {
            let mut file = base.clone()?;
            file.entries(*entries)?;
            file.entries(rest)?;
            self.expect_whole(&file, i)?;
        }
        Ok(())
    }
}
