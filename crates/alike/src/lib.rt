// Which nodes of a table have one value, under the bindings of a matching.
//
// A term can be far larger than its table, so no two trees are compared: each node is given the first node found with its
// value, after its parts have theirs.
#![tactic(auto)]

mod finding;
mod heads;

pub use finding::alike;
pub use heads::Alike;
