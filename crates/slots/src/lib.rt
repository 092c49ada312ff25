// One list over lent slots, for every record that the ledger and its books keep.
#![tactic(auto)]

pub mod list;
mod methods;

pub use list::List;

#[cfg(test)]
mod tests;
