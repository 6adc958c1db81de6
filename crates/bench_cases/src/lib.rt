// The cases of benches: calls with the answers that they are to get, rows of calls that are played and run files that are replayed,
// each over both notebooks.
#![tactic(auto)]

#[cfg(test)]
mod tests;
