#![tactic(auto)]

// Examples of calls of a ledger, at the edges; a crate of their own, so that the ledger is proved once.
#[cfg(test)]
mod tests;
