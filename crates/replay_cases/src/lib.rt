// The cases of run files: which lines a file has, and where it is turned down.
#![tactic(auto)]

#[cfg(test)]
mod tests;
