ghost use Rattle.std.specs.Prelude.{◌≡◌, ◌*◌, pos, ◌-ℤ◌};
ghost use Rattle.terms.specs.Margins.{requirement, short_of, at_cut_level, shortfall};

use crate::charges::product;
use crate::settings::Settings;

// The margin in yen that a position needs at spot, or an order at its price, rounded up.
#[tactic(auto, using(crate::proofs::Divisions::ceiling_is), unfolding(crate::specs::Margins::requirement))]
pub fn requirement(settings: &Settings, price: u32, quantity: u32) -> u64
    ensures { result ≡ requirement settings.now.margin_percent price quantity }
{
    product(price, quantity, settings.margin_percent()).div_ceil(10_000) as u64
}

// Equity in sen is below 100 % of the margin.
// Equity and margin are two parameters, as callers set one equity against a margin, a requirement and a margin with an order's added.
// One function for this and the next would take the percent and the comparison, and be called with all that stands here.
pub fn is_short_of(equity: i64, margin: u64) -> bool
    ensures { result ≡ short_of equity margin }
{
    (equity as i128) < 100 * margin as i128
}

// Equity is at or below 50 % of the requirement.
pub fn is_at_cut_level(equity: i64, margin: u64) -> bool
    ensures { result ≡ at_cut_level equity margin }
{
    equity as i128 <= 50 * margin as i128
}

// The sen by which equity misses 100 % of the margin; below nought it exceeds that.
// `accounts` subtracts the other way round, to set what is left against a payment: either is shorter than the other negated.
fn missing(equity: i64, margin: u64) -> i128
    ensures { result ≡ pos (100 * margin) -ℤ equity }
{
    100 * margin as i128 - equity as i128
}

// The yen that are missing to 100 % of the margin, rounded up: nought where none are.
pub fn shortfall(equity: i64, margin: u64) -> u128
    ensures { result ≡ shortfall equity margin }
{
    let missing = missing(equity, margin).max(0);
    (missing as u128).div_ceil(100)
}
