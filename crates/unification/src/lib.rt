// Bindings of variables to nodes, what two nodes ask of each other, and the laws by which matching keeps the instances.
#![tactic(auto)]

mod ask;
mod binding;
mod laws;

pub use ask::{Ask, Compared, compare};
pub use binding::Binding;
pub use laws::unification_stands;
