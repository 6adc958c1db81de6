#![tactic(auto)]

mod node;
mod number;
mod table;
mod variables;

pub use node::{Node, NodeFault};
pub use number::{EnvName, Label, LocalName, NodeNo, StrandNo, VARIABLES, Variable};
pub use table::{NodeTable, terms_unfold};
pub use variables::VarSet;
