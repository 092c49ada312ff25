// Orders: their margins, what remains of them, finding one, and voiding an account's.
#![tactic(auto)]

pub mod margins;
pub mod order;
pub mod orders;
pub mod search;
pub mod voids;

pub use order::Order;
pub use orders::Orders;

#[cfg(test)]
mod tests;
