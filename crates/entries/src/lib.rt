// A sheet file as entries: what its records say, the rules they keep, and the refusals.
#![tactic(auto)]

mod decode;
mod entry;
mod fault;
mod lookup;
mod refusal;
mod text;

pub use entry::{Entry, Fields, PropertyFields, Unknown};
pub use fault::{Rule, SheetFault};
pub use lookup::text_at;
pub use text::Text;
