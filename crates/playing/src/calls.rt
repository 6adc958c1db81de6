// The calls of a bench, as data.
use terms::{Node, NodeNo, StrandNo};

#[derive(Clone, Copy, Debug, PartialEq, Eq)]
pub enum Call {
    // the caller's next node; the parts of one are the caller's places
    Write(Node),
    // the message at a caller's place, for a strand that waits for one
    Feed(StrandNo, NodeNo),
    // a strand's next step, where that is no input
    Move(StrandNo),
}
