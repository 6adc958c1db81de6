// How far each strand of a sheet can go on its own, worked out by matching.
#![tactic(auto)]

mod demands;
mod follow;
mod keys;
mod most;
mod strands;
mod walk;

pub use most::Limits;
pub use strands::limits;
