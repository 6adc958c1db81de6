// The notebook: what the environment was given, behind an interface. Whatever uses a notebook relies on this alone.
#![tactic(auto)]

mod calls;
mod faults;
mod interface;
mod limits;

pub use calls::{Call, Reply, agree, replies};
pub use faults::{NoteFault, PutFault};
pub use interface::Notebook;
pub use limits::{ENV_NAMES, LOCAL_NAMES, MOST_NODES, MOST_NOTES, limits_stand};
