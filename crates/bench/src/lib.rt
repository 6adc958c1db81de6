// A bench plays runs of a sheet, call by call, over any notebook.
#![tactic(auto)]

mod bench;
mod calls;
mod copying;
mod effect;
mod ended;
mod opening;
mod patterns;
mod performing;
mod placing;
mod shapes;
mod standing;
mod stepping;
mod tables;
mod taking;
mod writing;

pub use bench::Bench;
pub use ended::EndedRun;
