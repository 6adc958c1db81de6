// Reading a sheet file.
ghost use Rattle.std.specs.Prelude.{◌≡◌, IfOk};
ghost use Rattle.entries.specs.Format.{file};
ghost use Rattle.entries.specs.Reading.{OneReply, LawfulExactly, FilesAreBytes, first_file};
ghost use Rattle.sheet.specs.Loading.{Drafted, ReadInto};
ghost use Rattle.sheet.specs.Sheets.{content_of};

use crate::draft::Draft;
use crate::sheet::Sheet;
use crate::tables::Tables;
use entries::{Rule, SheetFault};
use records::Records;
use std::alloc::{AllocError, Global};

// The smallest sheet there is to speak of: one strand that sends one name, and a property that forbids it.
// Its records: label a, name n, node 0, a strand, its step, the property.
const FIRST: &[u8; 50] =
    b"\x01\0\x01\0a\x01\0\x02\0n\x06\0\x04\0\x01\0\0\0\0\0\0\0\x05\0\x06\0\x06\0\x02\0\0\0\0\0\x0c\0\x07\0\0\0\0\0\0\0\x02\0\0\0\0\0";

// The tables that a file describes.
fn read_tables(heap: Global, bytes: &[u8]) -> Result<Tables, SheetFault>
    ensures { Drafted bytes.now result }
{
    let mut draft = Draft::new(heap);
    let mut records = Records::new(bytes);
    while let Some(found) = records.next()? {
        let place = records.count() - 1;
        draft.add(found).map_err(|refusal| refusal.at(place))?;
    }
    if draft.tables.property.is_none() {
        return Err(SheetFault::Refused {
            rule: Rule::Ended,
            record: records.count(),
        });
    }
    let Draft { tables, .. } = draft;
    Ok(tables)
}

impl Sheet {
    // The sheet that the program starts from.
    #[tactic(auto, using(crate::proofs::Loading::first_drafted))]
    pub fn new(heap: Global) -> Result<Sheet, AllocError>
        ensures { IfOk result (λ s. file (content_of s) ≡ first_file) }
    {
        match read_tables(heap, FIRST) {
            Ok(tables) => Ok(Sheet { tables }),
            // by hand: the fault keeps no error of the library, and a From would have to answer a refused file too
            Err(SheetFault::NoMemory) => Err(AllocError),
            Err(SheetFault::Refused { .. }) => unreachable(),
        }
    }

    // Reads a file into this sheet. Where the file is refused, the sheet stays as it was.
    #[tactic(auto, using(crate::proofs::Loading::lawful_taken, crate::proofs::Loading::lawful_exactly, entries::proofs::OneReply::one_reply, entries::proofs::Filing::files_are_bytes))]
    pub fn read(&mut self, heap: Global, bytes: &[u8]) -> Result<(), SheetFault>
        ensures reply { ReadInto (content_of self.old) bytes.now result (content_of self.new) }
        ensures one { OneReply }
        ensures lawful { LawfulExactly }
        ensures bytes { FilesAreBytes }
    {
        let tables = read_tables(heap, bytes)?;
        *self = Sheet { tables };
        Ok(())
    }
}
