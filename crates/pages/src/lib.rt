// A list of nodes as every notebook has one, where each node has the first place of its term beside it.
//
// Equal trees at different places are one term, and a tree can be far larger than the list. So two places hold one term
// exactly when their first places are equal, and nothing walks a tree.
#![tactic(auto)]

mod filling;
mod messages;
mod page;
mod reading;

pub use page::{Page, PageTable};
