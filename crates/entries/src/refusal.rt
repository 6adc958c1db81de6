// The number and the record of a refusal.
ghost use Rattle.std.specs.Prelude.{◌≡◌};
ghost use Rattle.entries.specs.Faults.{number as number_of, fault_number, fault_record};

use crate::fault::{Rule, SheetFault};

impl Rule {
    // The number of the refusal where the rule is broken. Each enum of faults has its own such call: a cast is of one enum.
    pub fn number(self) -> u16
        ensures { result ≡ number_of self }
    {
        self as u16
    }
}

impl SheetFault {
    // The number of the refusal; want of memory has none. A public call, as the one for the record is; who wants both
    // matches on the fault.
    pub fn number(self) -> Option<u16>
        ensures { result ≡ fault_number self }
    {
        match self {
            SheetFault::Refused { rule, .. } => Some(rule.number()),
            SheetFault::NoMemory => None,
        }
    }

    // The number of the refused record; want of memory has none.
    pub fn record(self) -> Option<usize>
        ensures { result ≡ fault_record self }
    {
        match self {
            SheetFault::Refused { record, .. } => Some(record),
            SheetFault::NoMemory => None,
        }
    }
}
