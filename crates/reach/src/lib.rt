// What taking apart reaches from some nodes of a table, under the bindings of a matching.
//
// A term can be far larger than its table, so nothing walks a tree: nodes are marked, and what a marked node comes apart
// into is marked too, until nothing changes.
#![tactic(auto)]

mod numbers;
mod parts;
mod reached;
mod reaching;
mod taking;

pub use reached::Reach;
pub use reaching::reach;
