// A reader of run files: at most 512 nodes, and then at most 128 steps.
use records::Records;

mod reading;

#[derive(Drop)]
pub struct RunReader<'a> {
    records: Records<'a>,
    nodes: usize,
    steps: usize,
}
