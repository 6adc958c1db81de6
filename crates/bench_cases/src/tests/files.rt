// Run files that are replayed: how they are judged, or the number, the record and the layer of their first fault.
use crate::tests::script::*;
use crate::tests::sheets::{SEALED_UNDER_FED, SECRET_TOLD, all_outputs};
use notebook::Notebook;
use notebooks::{AskingNotebook, KeepingNotebook};
use playback::replay;
use playing::Verdict;
use replays::{Layer, ReplayFault};
use sheet::Sheet;
use sheet_cases::kind::{ENV, NAME, PAIR, SEAL, VARIABLE};
use std::alloc::{AllocError, Global};
use std::process::Abort;
use std::test::Fail;

#[derive(Clone, Copy)]
enum Record {
    // kind, a and b
    Node(u16, u16, u16),
    // a strand and a place
    Feed(u16, u16),
    Move(u16),
}

fn words(bytes: &mut Vec<u8>, words: &[u16]) -> Result<(), AllocError> {
    for w in words {
        bytes.extend_from_slice(&w.to_le_bytes())?;
    }
    Ok(())
}

// A record is data, a row of which is a file; so there is a match, and no function in a row.
fn add(bytes: &mut Vec<u8>, record: Record) -> Result<(), AllocError> {
    match record {
        Record::Node(kind, a, b) => words(bytes, &[6, 17, kind, a, b]),
        Record::Feed(strand, place) => words(bytes, &[4, 18, strand, place]),
        Record::Move(strand) => words(bytes, &[4, 18, strand, 65535]),
    }
}

fn file_of(heap: Global, records: &[Record]) -> Result<Vec<u8>, AllocError> {
    let mut bytes = Vec::new(heap);
    for r in records {
        add(&mut bytes, *r)?;
    }
    Ok(bytes)
}

// number, record and layer
#[derive(Clone, Copy, Debug, PartialEq, Eq)]
struct Fault(u16, usize, Layer);

fn told(fault: ReplayFault) -> Fault {
    Fault(fault.number(), fault.record(), fault.layer())
}

fn answer<N: Notebook + Drop>(
    t: &Tester<'_, impl Abort>,
    sheet: &Sheet,
    bytes: &[u8],
) -> Result<Result<Verdict, Fault>, Fail> {
    Ok(replay(t.heap, sheet, N::new(t.heap)?, bytes)?.map_err(told))
}

// The same answer over each notebook.
fn expect(
    t: &Tester<'_, impl Abort>,
    sheet: &Sheet,
    bytes: &[u8],
    wanted: Result<Verdict, Fault>,
) -> Result<(), Fail> {
    let len = bytes.len();
    assert_eq!(t.rt;
        answer::<AskingNotebook>(t, sheet, bytes)?,
        wanted,
        "asking, {len} bytes"
    );
    assert_eq!(t.rt;
        answer::<KeepingNotebook>(t, sheet, bytes)?,
        wanted,
        "keeping, {len} bytes"
    );
    Ok(())
}

// d is written, strand 0 moves, and strand 1 is fed d
const D_IS_TAKEN: [u8; 26] = [
    6, 0, 17, 0, 1, 0, 0, 0, 0, 0, 4, 0, 18, 0, 0, 0, 255, 255, 4, 0, 18, 0, 1, 0, 0, 0,
];

#[test]
fn cut_at_every_byte(rt: HostRuntime) -> Result<(), Fail> {
    let t = Tester::new(&rt);
    let sheet = sheet_of(t.heap, &SECRET_TOLD)?;
    for len in 0..27 {
        let wanted = match len {
            0 | 10 | 18 => Ok(Verdict::Kept),
            1..=9 => Err(Fault(20, 0, Layer::File)),
            11..=17 => Err(Fault(20, 1, Layer::File)),
            19..=25 => Err(Fault(20, 2, Layer::File)),
            _ => Ok(Verdict::Broken),
        };
        expect(&t, &sheet, &D_IS_TAKEN[..len], wanted)?;
    }
    Ok(())
}

// a file whose last record is turned down by the bench, and the number
#[derive(Clone, Copy)]
struct Case<'a>(&'a [Record], u16);

fn expect_cases(t: &Tester<'_, impl Abort>, sheet: &Sheet, cases: &[Case]) -> Result<(), Fail> {
    for Case(records, number) in cases {
        let mut file = file_of(t.heap, *records)?;
        let fault = Fault(*number, records.len().saturating_sub(1), Layer::Bench);
        expect(t, sheet, &file, Err(fault))?;
        // nothing after it is looked at
        file.push(0)?;
        expect(t, sheet, &file, Err(fault))?;
    }
    Ok(())
}

const D: Record = Record::Node(NAME, 0, 0);

#[test]
fn what_cannot_be_written(rt: HostRuntime) -> Result<(), Fail> {
    let t = Tester::new(&rt);
    let sheet = sheet_of(t.heap, &SECRET_TOLD)?;
    let cases = [
        Case(&[Record::Node(0, 0, 0)], 30),
        Case(&[Record::Node(6, 0, 0)], 30),
        Case(&[Record::Node(VARIABLE, 0, 0)], 30),
        Case(&[Record::Node(NAME, 0, 1)], 30),
        Case(&[Record::Node(NAME, 2, 0)], 30),
        Case(&[Record::Node(ENV, 256, 0)], 30),
        Case(&[Record::Node(ENV, 255, 1)], 30),
        Case(&[Record::Node(PAIR, 0, 0)], 30),
        Case(&[D, Record::Node(PAIR, 0, 1)], 30),
        Case(&[D, Record::Node(SEAL, 1, 0)], 30),
        Case(&[D, Record::Node(PAIR, 0, 0), Record::Node(SEAL, 0, 1)], 30),
    ];
    expect_cases(&t, &sheet, &cases)
}

#[test]
fn what_cannot_be_stepped(rt: HostRuntime) -> Result<(), Fail> {
    let t = Tester::new(&rt);
    let sheet = sheet_of(t.heap, &SECRET_TOLD)?;
    let cases = [
        Case(&[Record::Move(2)], 32),
        Case(&[Record::Feed(65535, 0)], 32),
        Case(&[Record::Move(0), Record::Move(0)], 33),
        Case(&[Record::Move(0), Record::Feed(0, 0)], 33),
        Case(&[Record::Move(1)], 34),
        Case(&[D, Record::Feed(0, 0)], 34),
        Case(&[Record::Feed(1, 0)], 35),
        Case(&[Record::Move(0), Record::Feed(1, 65534)], 35),
        Case(&[D, Record::Feed(1, 0)], 36),
    ];
    expect_cases(&t, &sheet, &cases)?;
    let stuck = Case(
        &[
            Record::Node(ENV, 0, 0),
            Record::Node(PAIR, 0, 0),
            Record::Feed(1, 1),
            Record::Move(1),
        ],
        37,
    );
    expect_cases(&t, &sheet_of(t.heap, &SEALED_UNDER_FED)?, &[stuck])
}

// A record is looked at as a part of the file, then of the run, then as a call.
#[test]
fn the_smallest_number_of_a_record(rt: HostRuntime) -> Result<(), Fail> {
    let t = Tester::new(&rt);
    let sheet = sheet_of(t.heap, &SECRET_TOLD)?;
    let mut file = file_of(t.heap, &[Record::Move(0), Record::Node(VARIABLE, 0, 0)])?;
    expect(&t, &sheet, &file, Err(Fault(21, 1, Layer::Run)))?;
    file.truncate(17);
    expect(&t, &sheet, &file, Err(Fault(20, 1, Layer::File)))
}

#[test]
fn the_largest_file(rt: HostRuntime) -> Result<(), Fail> {
    let t = Tester::new(&rt);
    let sheet = all_outputs(t.heap)?;
    let mut file = file_of(t.heap, &[D])?;
    for i in 0..511u16 {
        add(&mut file, Record::Node(PAIR, i, i))?;
    }
    expect(&t, &sheet, &file, Ok(Verdict::Kept))?;
    let mut longer = file.clone()?;
    add(&mut longer, Record::Node(VARIABLE, 0, 0))?;
    // the limit of the file is found before the bench is asked, which has no place left and takes no variable
    expect(&t, &sheet, &longer, Err(Fault(22, 512, Layer::Run)))?;
    for _ in 0..16u16 {
        for strand in 0..8u16 {
            add(&mut file, Record::Move(strand))?;
        }
    }
    assert_eq!(rt; file.len(), 6144);
    expect(&t, &sheet, &file, Ok(Verdict::Broken))?;
    add(&mut file, Record::Move(8))?;
    expect(&t, &sheet, &file, Err(Fault(22, 640, Layer::Run)))
}
