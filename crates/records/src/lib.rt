// Records of a file: a length, a kind and a body each, and a reader that hands them out one by one.
#![tactic(auto)]

mod body;
mod reader;
mod record;

pub use body::words;
pub use reader::{Records, scan};
pub use record::{FileFault, Record};
