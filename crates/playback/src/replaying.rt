// A run file on a new bench.
ghost use Rattle.std.specs.Prelude.{◌≡◌, length, IfOk};
ghost use Rattle.sheet.specs.Sheets.{content_of};
ghost use Rattle.runs.specs.Tables.{described};
ghost use Rattle.playing.specs.Calls.{opened};
ghost use Rattle.replays.specs.Laws.{OneReplay};
ghost use Rattle.replays.specs.Replaying.{Replays};
ghost use Rattle.replays.specs.Decoding.{line_of};
ghost use Rattle.replays.specs.Reading.{left, nodes_read, steps_read, records_read};
ghost use Rattle.bench.specs.Benches.{sheet_of, protocol_of, situation_of, sheet_ended};
ghost use Rattle.playback.specs.Following.{Followed, PlayedOut};

use bench::{Bench, EndedRun};
use notebook::Notebook;
use playing::{Verdict, WriteFault};
use replays::{BenchFault, Line, ReplayFault, RunReader};
use sheet::Sheet;
use std::alloc::{AllocError, Global};
use terms::{Node, NodeNo};

// in place of a place, where a step is a move
const NO_PLACE: NodeNo = NodeNo(65535);

// Makes the call of a line on a bench.
pub fn follow<N: Notebook + Drop>(bench: &mut Bench<N>, line: Line) -> Result<(), BenchFault>
    ensures followed { Followed (length (sheet_of bench.old).names) (protocol_of bench.old) (line_of line) (situation_of bench.old) result (situation_of bench.new) }
    ensures sheet { sheet_of bench.new ≡ sheet_of bench.old }
{
    match line {
        Line::Node(fields) => {
            let node = Node::try_from(fields).or(Err(WriteFault::Unlawful))?;
            bench.write(node)?;
        }
        Line::Step { strand, place } if place == NO_PLACE => bench.make_move(strand)?,
        Line::Step { strand, place } => bench.feed(strand, place)?,
    }
    Ok(())
}

// Makes the calls of a run file on a bench that is new, and ends it; or stops at the first fault.
fn run_through<N: Notebook + Drop>(bench: Bench<N>, bytes: &[u8]) -> Result<EndedRun, ReplayFault>
    requires { situation_of bench ≡ opened }
    ensures played { PlayedOut (length (sheet_of bench).names) (protocol_of bench) bytes.now result }
    ensures sheet { IfOk result (λ e. sheet_ended e ≡ sheet_of bench) }
{
    let mut bench = bench;
    let mut reader = RunReader::new(bytes);
    let mut record = 0;
    while let Some(line) = reader.next()? {
        if let Err(fault) = follow(&mut bench, line) {
            return Err(ReplayFault::Bench { fault, record });
        }
        record += 1;
    }
    Ok(bench.end())
}

// Replays a run file: opens a bench, makes each record's call in turn, ends it, and answers how the run is judged, or the
// first fault. The notebook is used up.
#[tactic(auto, using(replays::proofs::Once::one_replay, crate::proofs::Followed::played_on))]
pub fn replay<N: Notebook + Drop>(
    heap: Global,
    sheet: &Sheet,
    book: N,
    bytes: &[u8],
) -> Result<Result<Verdict, ReplayFault>, AllocError>
    ensures replays { let C = content_of sheet.now in IfOk result (λ r. Replays (length C.names) (described C) bytes.now r) }
    ensures one { OneReplay }
{
    let bench = Bench::open(heap, sheet, book)?;
    match run_through(bench, bytes) {
        Ok(ended) => Ok(Ok(ended.judgement())),
        Err(fault) => Ok(Err(fault)),
    }
}
