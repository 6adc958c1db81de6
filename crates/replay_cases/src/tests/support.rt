// What the cases share.
use replays::{Line, RunFault, RunReader};
use std::alloc::{AllocError, Global};
use std::process::Abort;
use std::test::Fail;

// name 0, as a node
pub(crate) const NODE: [u8; 10] = [6, 0, 17, 0, 1, 0, 0, 0, 0, 0];

// a move of strand 1: its place is 65535
pub(crate) const MOVE: [u8; 8] = [4, 0, 18, 0, 1, 0, 255, 255];

// The lines of a file up to its end or its first fault.
#[derive(Drop)]
pub(crate) struct Lines {
    pub(crate) lines: Vec<Line>,
    pub(crate) end: Result<(), RunFault>,
}

// More lines than a run file can have.
const MOST: usize = 700;

pub(crate) fn lines_of(heap: Global, bytes: &[u8]) -> Result<Lines, AllocError> {
    let mut reader = RunReader::new(bytes);
    let mut lines = Vec::new(heap);
    for _ in 0..MOST {
        match reader.next() {
            Ok(Some(line)) => lines.push(line)?,
            Ok(None) => return Ok(Lines { lines, end: Ok(()) }),
            Err(fault) => {
                return Ok(Lines {
                    lines,
                    end: Err(fault),
                });
            }
        }
    }
    Ok(Lines { lines, end: Ok(()) })
}

// So many lines, and then this.
pub(crate) fn expect(
    rt: &(impl Abort + AllocGlobal),
    bytes: &[u8],
    count: usize,
    end: Result<(), RunFault>,
) -> Result<(), Fail> {
    let read = lines_of(rt.alloc(), bytes)?;
    assert_eq!(rt; read.lines.len(), count);
    assert_eq!(rt; read.end, end);
    Ok(())
}
