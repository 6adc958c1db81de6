// Rows of calls and run files, played on a bench over any notebook. What is answered mentions no notebook.
#![tactic(auto)]

mod calls;
mod replaying;

pub use calls::play;
pub use replaying::{follow, replay};
