// Why a match, or a table of nodes, is not taken.
ghost use Rattle.std.specs.Prelude.{◌≡◌};
ghost use Rattle.matching.specs.Faults.{fault_number};
ghost use Rattle.matching.specs.declared.fault.TableFault.TheVariants.{NoMemory};

use std::alloc::AllocError;

#[derive(Clone, Copy, Debug, PartialEq, Eq)]
pub enum MatchFault {
    // a number that is no node's
    NoSuchNode = 50,
}

impl MatchFault {
    // The number of the refusal. Each enum of faults has its own such call: a cast is of one enum.
    pub fn number(self) -> u16
        ensures { result ≡ fault_number self }
    {
        self as u16
    }
}

#[derive(Clone, Copy, Debug, PartialEq, Eq)]
pub enum TableFault {
    // more nodes than there are node numbers
    TooLong,
    NoMemory,
}

// Each fault has a case of its own for want of memory.
impl From<AllocError> for TableFault {
    ghost from_gives = { λ _ r. r ≡ NoMemory };

    fn from(_: AllocError) -> TableFault {
        TableFault::NoMemory
    }
}
