// The files that most cases start from.
use crate::entry::Entry;
use crate::entry::Entry::*;
use crate::file::SheetFile;
use crate::kind::*;
use std::alloc::{AllocError, Global};

// records 0 to 6
const TEXTS: [Entry<'static>; 7] = [
    Label(b"a"),
    Label(b"b"),
    Name(b"n"),
    Name(b"k"),
    Variable(b"x"),
    Variable(b"y"),
    Variable(b"z"),
];

// the numbers of the nodes: XY is the pair of x and y, X_K is x sealed under k
pub const N: u16 = 0;

pub const K: u16 = 1;

pub const X: u16 = 2;

pub const Y: u16 = 3;

pub const Z: u16 = 4;

pub const XY: u16 = 5;

pub const YZ: u16 = 6;

pub const YY: u16 = 7;

pub const YN: u16 = 8;

pub const NY: u16 = 9;

// y once more, as another node
pub const Y2: u16 = 10;

pub const YY2: u16 = 11;

pub const X_K: u16 = 12;

pub const X_Y: u16 = 13;

pub const X_X: u16 = 14;

pub const N_K: u16 = 15;

pub const XY_K: u16 = 16;

pub const N_Y: u16 = 17;

pub const N_X: u16 = 18;

pub const XYZ: u16 = 19;

pub const NO_NODE: u16 = 20;

// records 7 to 26
const NODES: [Entry<'static>; 20] = [
    Node(NAME, 0, 0),
    Node(NAME, 1, 0),
    Node(VARIABLE, 0, 0),
    Node(VARIABLE, 1, 0),
    Node(VARIABLE, 2, 0),
    Node(PAIR, X, Y),
    Node(PAIR, Y, Z),
    Node(PAIR, Y, Y),
    Node(PAIR, Y, N),
    Node(PAIR, N, Y),
    Node(VARIABLE, 1, 0),
    Node(PAIR, Y, Y2),
    Node(SEAL, X, K),
    Node(SEAL, X, Y),
    Node(SEAL, X, X),
    Node(SEAL, N, K),
    Node(SEAL, XY, K),
    Node(SEAL, N, Y),
    Node(SEAL, N, X),
    Node(PAIR, X, YZ),
];

// forbids that n goes out on label a
pub const NEVER_N: [u16; 6] = [NONE, 0, 0, OUTPUT, 0, N];

// A file up to some place of the order, which the next record stands at.
#[derive(Clone, Copy)]
pub enum Place {
    Start,
    // after two labels, two names and three variables
    Texts,
    // after the texts and 20 nodes
    Nodes,
    // after the nodes and a strand
    Strand,
    // after a strand that has an input of x on label a
    Input,
    // after a strand and the property
    End,
}

impl Place {
    // The number of the next record: so many come before it.
    pub fn record(self) -> usize {
        match self {
            Place::Start => 0,
            Place::Texts => 7,
            Place::Nodes => 27,
            Place::Strand => 28,
            Place::Input => 29,
            Place::End => 29,
        }
    }

    pub fn file(self, heap: Global) -> Result<SheetFile, AllocError> {
        let mut file = SheetFile::new(heap);
        match self {
            Place::Start => {}
            Place::Texts => file.entries(&TEXTS)?,
            Place::Nodes => write_nodes(&mut file)?,
            Place::Strand => write_strand(&mut file)?,
            Place::Input => {
                write_strand(&mut file)?;
                file.entry(Step(INPUT, 0, 0))?;
            }
            Place::End => {
                write_strand(&mut file)?;
                file.entry(Property(NEVER_N))?;
            }
        }
        Ok(file)
    }
}

fn write_nodes(file: &mut SheetFile) -> Result<(), AllocError> {
    file.entries(&TEXTS)?;
    file.entries(&NODES)
}

fn write_strand(file: &mut SheetFile) -> Result<(), AllocError> {
    write_nodes(file)?;
    file.entry(Strand)
}
