// Why a record is not added to a draft; where it stands is known to the reader alone.
ghost use Rattle.sheet.specs.Refusing.{at, of_node};
ghost use Rattle.std.specs.Prelude.{◌≡◌};
ghost use Rattle.sheet.specs.declared.refusal.Refusal.TheVariants.{Broken, NoMemory};

use entries::{Rule, SheetFault};
use std::alloc::AllocFailed;
use terms::NodeFault;

#[derive(Clone, Copy, Debug, PartialEq, Eq)]
pub enum Refusal {
    // the first rule that the record breaks
    Broken(Rule),
    NoMemory,
}

impl Refusal {
    // The refusal as a fault of the sheet file, with the number of the record.
    pub(crate) fn at(self, place: usize) -> SheetFault
        ensures { result ≡ at self place }
    {
        match self {
            Refusal::Broken(rule) => SheetFault::Refused {
                rule,
                record: place,
            },
            Refusal::NoMemory => SheetFault::NoMemory,
        }
    }
}

impl From<Rule> for Refusal {
    ghost from_gives = { λ q r. r ≡ Broken q };

    fn from(rule: Rule) -> Refusal {
        Refusal::Broken(rule)
    }
}

// Each fault has a case of its own for want of memory.
impl<T: Drop> From<AllocFailed<T>> for Refusal {
    ghost from_gives = { λ _ r. r ≡ NoMemory };

    fn from(_: AllocFailed<T>) -> Refusal {
        Refusal::NoMemory
    }
}

// A node that its table does not take is a bad node.
impl From<NodeFault> for Refusal {
    ghost from_gives = { λ f r. r ≡ of_node f };

    fn from(fault: NodeFault) -> Refusal {
        match fault {
            NodeFault::Reference | NodeFault::Variable => Refusal::Broken(Rule::Node),
            NodeFault::NoMemory => Refusal::NoMemory,
        }
    }
}
