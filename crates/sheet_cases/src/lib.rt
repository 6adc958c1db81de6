// Sheet files made entry by entry, lawful or not, and what a reader of them answers.
#![tactic(auto)]

mod entry;
mod file;
pub mod kind;
mod reply;
#[cfg(test)]
mod tests;

pub use entry::Entry;
pub use file::SheetFile;
pub use reply::{Refused, Reply, reply_of, reply_to};
