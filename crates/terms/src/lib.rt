// The terms of the trade: units and ranges, refusals, sides and outcomes, settings, and the arithmetic of charges, margins and settlements.
#![tactic(auto)]

pub mod bands;
pub mod calendar;
pub mod charges;
pub mod closing;
mod codes;
pub mod laws;
pub mod lot;
pub mod margins;
pub mod moments;
pub mod outcome;
pub mod price;
pub mod ranges;
pub mod refusal;
pub mod settings;
pub mod side;
pub mod valuation;

pub use lot::Lot;
pub use moments::{Due, Moment};
pub use outcome::Outcome;
pub use price::Price;
pub use refusal::Refusal;
pub use settings::Settings;
pub use side::Side;
pub use valuation::Valuation;

#[cfg(test)]
mod tests;
