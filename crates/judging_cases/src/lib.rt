// The cases of judgements: runs written out by hand over pages, and how they are judged by the property of a sheet.
#![tactic(auto)]

#[cfg(test)]
mod tests;
