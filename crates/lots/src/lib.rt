// Lots: what they are worth at a price, and what each account holds of them.
#![tactic(auto)]

pub mod holding;
pub mod laws;
pub mod lots;
pub mod positions;
pub mod valuation;

pub use holding::Holding;
pub use lots::Lots;
