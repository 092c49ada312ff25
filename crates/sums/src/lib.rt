// Sums over records of accounts: of the units of one account and side, and of what every account comes to.
#![tactic(auto)]

pub mod accounts;
pub mod sided;
pub mod units;

pub use accounts::by_account;
pub use sided::Sided;
pub use units::units_on;
