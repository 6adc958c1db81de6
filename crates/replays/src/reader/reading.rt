// What the reader of run files does.
ghost use Rattle.std.specs.Prelude.{◌≡◌, ℕ};
ghost use Rattle.replays.specs.Reading.{left, nodes_read, steps_read, records_read, NextLine};

use crate::faults::RunFault;
use crate::line::Line;
use crate::reader::RunReader;
use records::Records;

const MOST_NODES: usize = 512;

const MOST_STEPS: usize = 128;

impl<'a> RunReader<'a> {
    pub fn new(bytes: &'a [u8]) -> RunReader<'a>
        ensures left { left result ≡ bytes.now }
        ensures read { (nodes_read result ≡ 0) × (steps_read result ≡ 0) × (records_read result ≡ 0) }
    {
        RunReader {
            records: Records::new(bytes),
            nodes: 0,
            steps: 0,
        }
    }

    // The next line, or none at the end. After a fault of the run file its record is behind the reader.
    pub fn next(&mut self) -> Result<Option<Line>, RunFault>
        ensures { NextLine (left self.old) (nodes_read self.old) (steps_read self.old) (records_read self.old) result (left self.new) (nodes_read self.new) (steps_read self.new) (records_read self.new) }
    {
        let place = self.records.count();
        let Some(found) = self.records.next()? else {
            return Ok(None);
        };
        let line = Line::try_from(found).or(Err(RunFault::Kind(place)))?;
        match line {
            Line::Node(_) if self.steps > 0 => return Err(RunFault::Kind(place)),
            Line::Node(_) if self.nodes >= MOST_NODES => return Err(RunFault::Limit(place)),
            Line::Node(_) => self.nodes += 1,
            Line::Step { .. } if self.steps >= MOST_STEPS => return Err(RunFault::Limit(place)),
            Line::Step { .. } => self.steps += 1,
        }
        Ok(Some(line))
    }
}
