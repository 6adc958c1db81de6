// What the reader does.
ghost use Rattle.std.specs.Prelude.{◌≡◌, ℕ, List, ◌++◌, MatchOption};
ghost use Rattle.records.specs.Bytes.{Rec, encode};
ghost use Rattle.records.specs.Reading.{rest, handed_out, rec_of, Next, Scanned, OneScan, OneList};

use crate::reader::Records;
use crate::record::{FileFault, Record};

// The record at the front of the bytes, and the bytes after it; none where no whole record stands there.
#[tactic(auto, using(crate::proofs::Fronts::front_whole))]
fn front<'a>(bytes: &'a [u8]) -> Option<(Record<'a>, &'a [u8])>
    ensures { MatchOption result ((r : Rec) (more : List ℕ) → ¬ (bytes.now ≡ encode r ++ more)) (λ p. bytes.now ≡ encode (rec_of p.0) ++ p.1.now) }
{
    let (head, tail) = bytes.split_first_chunk::<4>()?;
    let [low, high, kind_low, kind_high] = *head;
    let len = u16::from_le_bytes([low, high]) as usize;
    let kind = u16::from_le_bytes([kind_low, kind_high]);
    let (body, after) = tail.split_at_checked(len)?;
    Some((Record { kind, body }, after))
}

impl<'a> Records<'a> {
    pub fn new(bytes: &'a [u8]) -> Records<'a>
        ensures left { rest result ≡ bytes.now }
        ensures count { handed_out result ≡ 0 }
    {
        Records {
            bytes,
            at: 0,
            count: 0,
        }
    }

    // The next record, or none at the end of the bytes.
    #[tactic(auto, using(crate::proofs::Fronts::moved, crate::proofs::Fronts::shorter))]
    pub fn next(&mut self) -> Result<Option<Record<'a>>, FileFault>
        ensures { Next (rest self.old) (handed_out self.old) result (rest self.new) (handed_out self.new) }
    {
        let left = &self.bytes[self.at..];
        if left.is_empty() {
            return Ok(None);
        }
        let Some((found, after)) = front(left) else {
            return Err(FileFault::Cut(self.count));
        };
        self.at = self.bytes.len() - after.len();
        self.count += 1;
        Ok(Some(found))
    }
}

// How many records the bytes are, or after how many they are cut; and these are the records of one list.
pub fn scan(bytes: &[u8]) -> Result<usize, FileFault>
    ensures cases { Scanned bytes.now result }
    ensures unique { OneScan }
    ensures list { OneList }
{
    let mut records = Records::new(bytes);
    while let Some(_) = records.next()? {}
    Ok(records.count())
}
