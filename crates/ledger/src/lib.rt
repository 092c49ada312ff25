// The ledger: what it holds, its calls and its queries.
#![tactic(auto)]

pub mod ledger;
pub mod status;

pub use ledger::Ledger;
pub use status::Status;
