// Records of a run file: what each says, before anything is known of the bench.
use entries::Fields;
use terms::{NodeNo, StrandNo};

#[derive(Clone, Copy, Debug, PartialEq, Eq)]
pub enum Line {
    Node(Fields),
    Step { strand: StrandNo, place: NodeNo },
}

// There is no such record in a run file.
#[derive(Clone, Copy, Debug, PartialEq, Eq)]
pub struct NoLine;
