// Plays the run file on standard input, which stands after a sheet and the sheet's length: a line for each step that is
// taken, in words, and then how the run is judged, or why it is refused.
#![tactic(auto)]

use bench::Bench;
use input::read_input;
use notebook::Notebook;
use notebooks::{AskingNotebook, KeepingNotebook};
use playback::{follow, replay};
use playing::Verdict;
use protocol::{Action, Direction, Step};
use replays::{Layer, Line, ReplayFault, RunReader};
use sheet::{Sheet, SheetFault, text_at};
use std::alloc::{AllocError, Global};
use std::io;
use terms::{Node, NodeNo, StrandNo};

// The length of a sheet, a sheet, and a run file.
const LONGEST_INPUT: usize = 16388;

// How deep a message is written out; deeper parts are two points.
const DEPTH: usize = 6;

// The bytes of the sheet, and those of the run file.
fn parts(bytes: &[u8]) -> (&[u8], &[u8]) {
    let Some((head, rest)) = bytes.split_first_chunk::<4>() else {
        return (&bytes[..0], &bytes[..0]);
    };
    let length = u32::from_le_bytes(*head) as usize;
    rest.split_at(length.min(rest.len()))
}

// A message in the sheet's texts.
fn words<N: Notebook + Drop>(
    heap: Global,
    sheet: &Sheet,
    bench: &Bench<N>,
    place: NodeNo,
    depth: usize,
) -> Result<String, AllocError> {
    if depth == 0 {
        return format!(in heap; "..");
    }
    match bench.node(place) {
        Some(Node::Name(name)) => format!(in heap; "{}", text_at(sheet.names(), name.0)),
        Some(Node::Env(name)) => format!(in heap; "env {}", name.0),
        Some(Node::Var(variable)) => {
            format!(in heap; "{}", text_at(sheet.variables(), variable.0))
        }
        Some(Node::Pair { left, right }) => {
            let left = words(heap, sheet, bench, left, depth - 1)?;
            let right = words(heap, sheet, bench, right, depth - 1)?;
            format!(in heap; "({left}, {right})")
        }
        Some(Node::Seal { body, key }) => {
            let body = words(heap, sheet, bench, body, depth - 1)?;
            let key = words(heap, sheet, bench, key, depth - 1)?;
            format!(in heap; "{{{body}}}{key}")
        }
        None => format!(in heap; ".."),
    }
}

fn show_action<N: Notebook + Drop>(
    rt: &HostRuntime,
    sheet: &Sheet,
    bench: &Bench<N>,
    strand: StrandNo,
    action: Action,
) -> io::Result<()> {
    let message = words(rt.alloc(), sheet, bench, action.node, DEPTH)?;
    let label = text_at(sheet.labels(), action.label.0);
    match action.direction {
        Direction::Input => println!(rt; "strand {} is fed {message} on {label}", strand.0),
        Direction::Output => println!(rt; "strand {} sends {message} on {label}", strand.0),
    }
}

// The step that a strand took as its n-th.
fn show_step<N: Notebook + Drop>(
    rt: &HostRuntime,
    sheet: &Sheet,
    bench: &Bench<N>,
    strand: StrandNo,
    before: usize,
) -> io::Result<()> {
    match bench.actions().get(before) {
        Some(action) => show_action(rt, sheet, bench, strand, *action),
        None => println!(rt; "strand {} goes on", strand.0),
    }
}

// The steps of a run file, up to its end or its first fault.
fn show_steps(rt: &HostRuntime, sheet: &Sheet, bytes: &[u8]) -> io::Result<()> {
    let book = KeepingNotebook::new(rt.alloc())?;
    let mut bench = Bench::open(rt.alloc(), sheet, book)?;
    let mut reader = RunReader::new(bytes);
    while let Ok(Some(line)) = reader.next() {
        let before = bench.actions().len();
        if follow(&mut bench, line).is_err() {
            break;
        }
        if let Line::Step { strand, .. } = line {
            show_step(rt, sheet, &bench, strand, before)?;
        }
    }
    Ok(())
}

fn layer_word(layer: Layer) -> &'static str {
    match layer {
        Layer::File => "file",
        Layer::Run => "run",
        Layer::Bench => "bench",
    }
}

fn show_reply(rt: &HostRuntime, reply: Result<Verdict, ReplayFault>) -> io::Result<()> {
    match reply {
        Ok(Verdict::Kept) => println!(rt; "kept"),
        Ok(Verdict::Broken) => println!(rt; "broken"),
        Err(fault) => {
            let layer = layer_word(fault.layer());
            println!(rt; "refused {} {} {layer}", fault.number(), fault.record())
        }
    }
}

fn show(rt: &HostRuntime, sheet: &Sheet, bytes: &[u8]) -> io::Result<()> {
    show_steps(rt, sheet, bytes)?;
    let book = AskingNotebook::new(rt.alloc())?;
    show_reply(rt, replay(rt.alloc(), sheet, book, bytes)?)
}

fn main(rt: HostRuntime) -> io::Result<()> {
    let mut buf = [0u8; LONGEST_INPUT];
    let n = read_input(&rt, &mut buf)?;
    let (sheet_bytes, run_bytes) = parts(&buf[..n]);
    let mut sheet = Sheet::new(rt.alloc())?;
    match sheet.read(rt.alloc(), sheet_bytes) {
        Ok(()) => show(&rt, &sheet, run_bytes),
        Err(SheetFault::Refused { rule, record }) => {
            // in words here, since the fault's other case has none
            println!(rt; "refused {} {record} sheet", rule.number())
        }
        // by hand: the fault keeps no error of the library, and a From would have to answer a refused file too
        Err(SheetFault::NoMemory) => Err(io::Error::from(AllocError)),
    }
}
