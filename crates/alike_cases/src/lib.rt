// Tests of which nodes have one value, on tables written out by hand.
#![tactic(auto)]

#[cfg(test)]
mod tests;
