// Why a sheet file is refused.
ghost use Rattle.std.specs.Prelude.{◌≡◌};
ghost use Rattle.entries.specs.Faults.{of_file};
ghost use Rattle.entries.specs.declared.fault.SheetFault.TheVariants.{NoMemory};

use records::FileFault;
use std::alloc::AllocFailed;

// what a file has to keep, with the number of the refusal where it does not
#[derive(Clone, Copy, Debug, PartialEq, Eq)]
pub enum Rule {
    // a whole record stands in the bytes that are left
    Whole = 1,
    // its kind is known and in order, and its length fits the kind
    Kind = 2,
    // its table has room
    Limit = 3,
    Text = 4,
    Node = 5,
    Step = 6,
    // a variable is bound once, and before it is used
    Variable = 7,
    Property = 8,
    // a property has come when the file ends
    Ended = 9,
}

#[derive(Clone, Copy, Debug, PartialEq, Eq)]
pub enum SheetFault {
    // the rule that is broken, and the number of the record
    Refused { rule: Rule, record: usize },
    NoMemory,
}

// Each fault has a case of its own for want of memory.
impl<T: Drop> From<AllocFailed<T>> for SheetFault {
    ghost from_gives = { λ _ r. r ≡ NoMemory };

    fn from(_: AllocFailed<T>) -> SheetFault {
        SheetFault::NoMemory
    }
}

impl From<FileFault> for SheetFault {
    ghost from_gives = { λ f r. r ≡ of_file f };

    fn from(fault: FileFault) -> SheetFault {
        match fault {
            FileFault::Cut(record) => SheetFault::Refused {
                rule: Rule::Whole,
                record,
            },
        }
    }
}
