// A sheet file while it is written.
ghost use Rattle.std.specs.Prelude.{◌≡◌, [], ◌∷◌, replicate};
ghost use Rattle.std.specs.List.{flat_map};
ghost use Rattle.records.specs.Bytes.{word};
ghost use Rattle.sheet_cases.specs.Files.{record_bytes, entry_bytes, held, Wrote};

use crate::entry::Entry;
use std::alloc::{AllocError, Global};

#[derive(Clone, Drop)]
pub struct SheetFile {
    bytes: Vec<u8>,
}

impl SheetFile {
    pub fn new(heap: Global) -> SheetFile
        ensures { held result ≡ [] }
    {
        SheetFile {
            bytes: Vec::new(heap),
        }
    }

    pub fn as_bytes(&self) -> &[u8]
        ensures { result.now ≡ held self.now }
    {
        self.bytes.as_slice()
    }

    // Bytes as they are, also such as make no whole record.
    pub fn raw(&mut self, bytes: &[u8]) -> Result<(), AllocError>
        ensures { Wrote self.old bytes.now result self.new }
    {
        self.bytes.extend_from_slice(bytes)
    }

    fn words(&mut self, words: &[u16]) -> Result<(), AllocError>
        ensures { Wrote self.old (flat_map word words.now) result self.new }
    {
        for w in words {
            self.raw(&w.to_le_bytes())?;
        }
        Ok(())
    }

    // A record. A body of more than 65535 bytes, which no test makes, has a header that says less.
    pub fn record(&mut self, kind: u16, body: &[u8]) -> Result<(), AllocError>
        ensures { Wrote self.old (record_bytes kind body.now) result self.new }
    {
        let len = body.len().min(65535) as u16;
        self.words(&[len, kind])?;
        self.raw(body)
    }

    // Direction, label and node of the earlier action, and then of the later one.
    fn property(&mut self, actions: [u16; 6]) -> Result<(), AllocError>
        ensures { Wrote self.old (flat_map word (12 ∷ 7 ∷ actions)) result self.new }
    {
        self.words(&[12, 7])?;
        self.words(&actions)
    }

    // An entry is data, a row of which is a file; so there is a match, and no function in a row.
    pub fn entry(&mut self, e: Entry) -> Result<(), AllocError>
        ensures { Wrote self.old (entry_bytes e.entry) result self.new }
    {
        match e {
            Entry::Label(text) => self.record(1, text),
            Entry::Name(text) => self.record(2, text),
            Entry::Variable(text) => self.record(3, text),
            Entry::Node(kind, a, b) => self.words(&[6, 4, kind, a, b]),
            Entry::Strand => self.words(&[0, 5]),
            Entry::Step(kind, a, b) => self.words(&[6, 6, kind, a, b]),
            Entry::Property(actions) => self.property(actions),
            Entry::Record(kind, body) => self.record(kind, body),
            Entry::Bytes(bytes) => self.raw(bytes),
        }
    }

    pub fn entries(&mut self, es: &[Entry]) -> Result<(), AllocError>
        ensures { Wrote self.old (flat_map entry_bytes es.now) result self.new }
    {
        for e in es {
            self.entry(*e)?;
        }
        Ok(())
    }

    // One entry again and again.
    pub fn repeat(&mut self, e: Entry, times: usize) -> Result<(), AllocError>
        ensures { Wrote self.old (flat_map entry_bytes (replicate times e.entry)) result self.new }
    {
        for _ in 0..times {
            self.entry(e)?;
        }
        Ok(())
    }
}
