// Tests of what taking apart reaches, on tables of nodes written out by hand.
#![tactic(auto)]

#[cfg(test)]
mod tests;
