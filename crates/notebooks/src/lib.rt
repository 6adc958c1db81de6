// Two notebooks: one works derivability out at each question, one keeps the parts of what was noted.
//
// They pass the same calls on to their pages. One notebook over a type of what is kept would need the same calls of that
// type, but for `read`, so it would be no shorter.
#![tactic(auto)]

mod asking;
mod calls;
mod composing;
mod keeping;
mod marking;
mod marks;
mod noted;

pub use asking::AskingNotebook;
pub use keeping::KeepingNotebook;
