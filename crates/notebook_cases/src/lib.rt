// The cases of the notebooks: scripts of calls with the replies they are to get, each followed on every notebook; and
// those of the table of pages that both have.
#![tactic(auto)]

#[cfg(test)]
mod tests;
