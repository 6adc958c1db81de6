// Tests of how far the strands of sheets can go: known sheets, keys that later steps make none, and large terms.
#![tactic(auto)]

#[cfg(test)]
mod tests;
