// Fault 20: a file cut at every byte.
use crate::tests::support::*;
use entries::Fields;
use records::FileFault;
use replays::{Line, RunFault};
use std::test::Fail;
use terms::{NodeNo, StrandNo};

// a node and a move
const FILE: [u8; 18] = [6, 0, 17, 0, 1, 0, 0, 0, 0, 0, 4, 0, 18, 0, 1, 0, 255, 255];

fn cut(record: usize) -> Result<(), RunFault> {
    Err(RunFault::File(FileFault::Cut(record)))
}

#[test]
fn at_every_byte(rt: HostRuntime) -> Result<(), Fail> {
    for len in 0..19 {
        let (count, end) = match len {
            0 => (0, Ok(())),
            1..=9 => (0, cut(0)),
            10 => (1, Ok(())),
            11..=17 => (1, cut(1)),
            _ => (2, Ok(())),
        };
        expect(&rt, &FILE[..len], count, end)?;
    }
    Ok(())
}

#[test]
fn whole(rt: HostRuntime) -> Result<(), Fail> {
    let read = lines_of(rt.alloc(), &FILE)?;
    let node = Line::Node(Fields {
        kind: 1,
        a: 0,
        b: 0,
    });
    let step = Line::Step {
        strand: StrandNo(1),
        place: NodeNo(65535),
    };
    assert!(rt; read.lines.as_slice() == [node, step].as_slice());
    assert_eq!(rt; read.end, Ok(()));
    Ok(())
}
