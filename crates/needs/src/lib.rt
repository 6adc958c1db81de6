// What the need of a term comes down to, over a table of nodes and the bindings of a matching.
//
// A term can be far larger than its table, so nothing walks a tree: heads of nodes are asked for, and what such a node needs
// is asked for too, until nothing is left to ask.
#![tactic(auto)]

mod answer;
mod asked;
mod asking;
mod settling;

pub use answer::Need;
pub use settling::need;
