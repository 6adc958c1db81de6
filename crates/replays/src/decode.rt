// From records to the lines of a run file.
ghost use Rattle.std.specs.Prelude.{◌≡◌, ◌++◌, length, MatchResult};
ghost use Rattle.records.specs.Reading.{rec_of};
ghost use Rattle.records.specs.Bytes.{word};
ghost use Rattle.replays.specs.Decoding.{LineDecoded};

use crate::line::{Line, NoLine};
use entries::Fields;
use records::{Record, words};
use terms::{NodeNo, StrandNo};

impl TryFrom<Record<'_>> for Line {
    type Error = NoLine;

    ghost try_from_gives = { λ x r. LineDecoded (rec_of x) r };

    fn try_from(found: Record<'_>) -> Result<Line, NoLine> {
        match found.kind {
            17 => node(found.body),
            18 => step(found.body),
            _ => Err(NoLine),
        }
    }
}

fn node(body: &[u8]) -> Result<Line, NoLine>
    ensures { LineDecoded (record { kind = 17; body = body.now }) result }
{
    let [kind, a, b] = words::<3>(body).ok_or(NoLine)?;
    Ok(Line::Node(Fields { kind, a, b }))
}

fn step(body: &[u8]) -> Result<Line, NoLine>
    ensures { LineDecoded (record { kind = 18; body = body.now }) result }
{
    let [strand, place] = words::<2>(body).ok_or(NoLine)?;
    Ok(Line::Step {
        strand: StrandNo(strand),
        place: NodeNo(place),
    })
}
