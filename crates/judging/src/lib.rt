// Judging an ended run: whether it breaks the property of a sheet, told over the tables of the sheet and of the run's terms.
#![tactic(auto)]

mod fitting;
mod judgement;

pub use judgement::judge;
