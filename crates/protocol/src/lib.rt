// A protocol as strands of steps and one property, over the numbers of nodes, labels and variables.
#![tactic(auto)]

mod step;
mod strand;

pub use step::{Action, Direction, Property, Step};
pub use strand::Strand;
