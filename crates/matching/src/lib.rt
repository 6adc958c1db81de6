// Matching: bindings of variables under which terms are equal, exactly those and no others; and trials of it.
#![tactic(auto)]

mod bindings;
mod calls;
mod classes;
mod fault;
mod matching;
mod solver;
mod trial;

pub use fault::{MatchFault, TableFault};
pub use matching::Matching;
pub use trial::{Trial, all_match, already_equal};
pub use unification::Binding;
