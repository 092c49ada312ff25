// The state of each account, and what a review decides of one.
#![tactic(auto)]

pub mod accounts;
pub mod review;
pub mod standing;
pub mod state;
pub mod withdrawals;

pub use accounts::Accounts;
pub use standing::{Decision, Standing};
pub use state::AccountState;

#[cfg(test)]
mod tests;
