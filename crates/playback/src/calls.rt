// A row of calls on a new bench.
ghost use Rattle.std.specs.Prelude.{◌≡◌, length, IfOk};
ghost use Rattle.sheet.specs.Sheets.{content_of};
ghost use Rattle.runs.specs.Tables.{described};
ghost use Rattle.playing.specs.Calls.{opened, Called, Plays};
ghost use Rattle.bench.specs.Benches.{sheet_of, protocol_of, situation_of, sheet_ended, situation_ended};

use bench::{Bench, EndedRun};
use notebook::Notebook;
use playing::Call;
use sheet::Sheet;
use std::alloc::{AllocError, Global};

// A call is data, since the definitions speak of rows of calls; so there is a match, and no function in a row. A call that
// is turned down leaves the bench as it was.
fn make<N: Notebook + Drop>(bench: &mut Bench<N>, call: Call)
    ensures called { Called (length (sheet_of bench.old).names) (protocol_of bench.old) call (situation_of bench.old) (situation_of bench.new) }
    ensures sheet { sheet_of bench.new ≡ sheet_of bench.old }
{
    match call {
        Call::Write(node) => {
            let _ = bench.write(node);
        }
        Call::Feed(strand, place) => {
            let _ = bench.feed(strand, place);
        }
        Call::Move(strand) => {
            let _ = bench.make_move(strand);
        }
    }
}

// Opens a bench, makes the calls on it in turn, whatever each answers, and ends it.
#[tactic(auto, using(crate::proofs::Played::plays_none))]
pub fn play<N: Notebook + Drop>(
    heap: Global,
    sheet: &Sheet,
    book: N,
    calls: &[Call],
) -> Result<EndedRun, AllocError>
    ensures sheet { IfOk result (λ e. sheet_ended e ≡ content_of sheet.now) }
    ensures plays { let C = content_of sheet.now in IfOk result (λ e. Plays (length C.names) (described C) calls.now opened (situation_ended e)) }
{
    let mut bench = Bench::open(heap, sheet, book)?;
    for call in calls {
        make(&mut bench, *call);
    }
    Ok(bench.end())
}
