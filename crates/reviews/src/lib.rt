// Reviews: how every account stands by book, lots and orders, and what follows from it.
#![tactic(auto)]

pub mod exposure;
pub mod held;
pub mod review;
pub mod standing;

pub use exposure::Exposure;

#[cfg(test)]
mod tests;
