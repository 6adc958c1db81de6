// Tests of matching on tables of nodes written out by hand, and on large shared ones, and of the tables themselves.
#![tactic(auto)]

#[cfg(test)]
mod tests;
