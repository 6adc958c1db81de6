// What a reader answers to a file.
ghost use Rattle.std.specs.Prelude.{◌≡◌, IfOk, Err, MatchResult};
ghost use Rattle.entries.specs.declared.fault.SheetFault.TheVariants.{NoMemory};
ghost use Rattle.sheet_cases.specs.Replies.{Told, Answers};

use sheet::{Sheet, SheetFault};
use std::alloc::{AllocError, Global};

// the number of the refusal, and the record that is refused; a number, since that is what is tested
#[derive(Clone, Copy, Debug, PartialEq, Eq)]
pub struct Refused {
    pub number: u16,
    pub record: usize,
}

pub type Reply = Result<(), Refused>;

// The reply that a reading gave. Want of memory is no reply.
pub fn reply_of(res: Result<(), SheetFault>) -> Result<Reply, AllocError>
    ensures { MatchResult result (Told res) (λ _. res ≡ Err NoMemory) }
{
    match res {
        Ok(()) => Ok(Ok(())),
        Err(SheetFault::Refused { rule, record }) => Ok(Err(Refused {
            number: rule.number(),
            record,
        })),
        // by hand: the fault keeps no error of the library, and a From would have to answer a refused file too
        Err(SheetFault::NoMemory) => Err(AllocError),
    }
}

// The reply to a file that is read into a new sheet.
#[tactic(auto, using(crate::proofs::Replying::answered))]
pub fn reply_to(heap: Global, bytes: &[u8]) -> Result<Reply, AllocError>
    ensures { IfOk result (Answers bytes.now) }
{
    let mut sheet = Sheet::new(heap)?;
    reply_of(sheet.read(heap, bytes))
}
