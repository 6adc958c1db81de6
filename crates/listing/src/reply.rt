// What is shown of a sheet file: its listing, or its refusal.
ghost use Rattle.std.specs.Prelude.{◌≡◌, IfOk, string_bytes};
ghost use Rattle.listing.specs.Showing.{Shown};

use crate::listing;
use sheet::{Sheet, SheetFault};
use std::alloc::{AllocError, Global};

// The text for the bytes of a file. Want of memory is the only other outcome.
pub fn show(heap: Global, bytes: &[u8]) -> Result<String, AllocError>
    ensures { IfOk result (λ t. Shown bytes.now (string_bytes t)) }
{
    let mut sheet = Sheet::new(heap)?;
    match sheet.read(heap, bytes) {
        Ok(()) => listing(heap, &sheet),
        Err(SheetFault::Refused { rule, record }) => {
            // in words here, since the fault's other case has none
            let number = rule.number();
            format!(in heap; "refused {number} {record}\n")
        }
        // by hand: the fault keeps no error of the library, and a From would have to answer a refused file too
        Err(SheetFault::NoMemory) => Err(AllocError),
    }
}
