// Books, in which the ledger's money lies: what one means, two kinds of them, and code that works over any.
#![tactic(auto)]

pub mod admission;
pub mod book;
pub mod clients;
pub mod deposits;
pub mod entry;
pub mod journal;
pub mod running;

pub use book::Book;
pub use entry::Entry;
pub use journal::JournalBook;
pub use running::RunningBook;

#[cfg(test)]
mod tests;
