// A sheet: the strands of one exchange and one property, read from a file and lawful by its type.
#![tactic(auto)]

mod add;
mod check;
mod draft;
mod query;
mod read;
mod refusal;
mod sheet;
mod tables;

pub use entries::{Rule, SheetFault, Text, text_at};
pub use sheet::Sheet;
pub use tables::Tables;
