// The number, the record and the layer of each fault of a replay.
use playing::{StepFault, WriteFault};
use records::FileFault;
use replays::{BenchFault, Layer, ReplayFault, RunFault};
use std::process::Abort;
use std::test::Fail;

fn expect_fault(rt: &impl Abort, fault: ReplayFault, number: u16, record: usize, layer: Layer) {
    assert_eq!(rt; fault.number(), number);
    assert_eq!(rt; fault.record(), record);
    assert_eq!(rt; fault.layer(), layer);
}

#[test]
fn of_files_and_runs(rt: HostRuntime) -> Result<(), Fail> {
    let cut = ReplayFault::from(RunFault::from(FileFault::Cut(3)));
    expect_fault(&rt, cut, 20, 3, Layer::File);
    expect_fault(&rt, ReplayFault::from(RunFault::Kind(4)), 21, 4, Layer::Run);
    expect_fault(
        &rt,
        ReplayFault::from(RunFault::Limit(5)),
        22,
        5,
        Layer::Run,
    );
    Ok(())
}

#[test]
fn of_benches(rt: HostRuntime) -> Result<(), Fail> {
    let faults = [
        (BenchFault::from(WriteFault::Unlawful), 30),
        (BenchFault::from(WriteFault::Full), 31),
        (BenchFault::from(StepFault::NoStrand), 32),
        (BenchFault::from(StepFault::Finished), 33),
        (BenchFault::from(StepFault::WrongCall), 34),
        (BenchFault::from(StepFault::NotWritten), 35),
        (BenchFault::from(StepFault::NotDerivable), 36),
        (BenchFault::from(StepFault::Stuck), 37),
    ];
    for (fault, number) in &faults {
        let found = ReplayFault::Bench {
            fault: *fault,
            record: 6,
        };
        expect_fault(&rt, found, *number, 6, Layer::Bench);
    }
    Ok(())
}
