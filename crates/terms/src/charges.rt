ghost use Rattle.std.specs.Prelude.{◌≡◌, ◌*◌, ◌/◌, ◌^◌, ◌<◌, ◌≤◌, pos, ◌-ℤ◌, int_div, unsigned_abs};
ghost use Rattle.terms.specs.Rounding.{within};
ghost use Rattle.terms.specs.Charges.{points, difference, payer, paid, received, funding};

use crate::settings::Settings;
use crate::side::Side;
use std::cmp::Ordering;

// Price times quantity times a rate: points and margins are this, divided.
pub fn product(price: u32, quantity: u32, rate: u32) -> u128
    ensures { result ≡ price * quantity * rate }
{
    price as u128 * quantity as u128 * rate as u128
}

// Yen that a rollover charges a lot, rounded down.
// Any spot is taken, here and below, and the bound alone supposes a price: a `Price` would ask more of callers.
#[tactic(auto, unfolding(crate::specs::Charges::points))]
pub fn points(settings: &Settings, spot: u32, quantity: u32) -> u64
    ensures value { result ≡ points settings.now.points_rate spot quantity }
    ensures bound { spot ≤ 100000000 → result ≤ 1000 * quantity }
{
    (product(spot, quantity, settings.points_rate()) / 100_000_000) as u64
}

// The difference of the prices, divided, truncated toward nought.
pub fn premium(last: u32, spot: u32, divisor: u32) -> i64
    requires { 1 ≤ divisor }
    ensures { result ≡ int_div (pos last -ℤ pos spot) (pos divisor) }
{
    (last as i64 - spot as i64) / divisor as i64
}

// How far from nought a funding difference may lie, in yen a BTC: so many millionths of spot.
pub fn bound(spot: u32, cap: u32) -> u64
    ensures { result ≡ spot * cap / 1000000 }
{
    spot as u64 * cap as u64 / 1_000_000
}

// A number held within a bound on either side of nought.
fn hold(z: i64, bound: u32) -> i32
    requires { bound < 2 ^ 31 }
    ensures { result ≡ within bound z }
{
    let bound = bound as i64;
    z.clamp(-bound, bound) as i32
}

// The funding difference in yen a BTC: divided first and held within the cap after.
#[tactic(auto, unfolding(crate::specs::Charges::difference))]
pub fn funding_difference(settings: &Settings, last: u32, spot: u32) -> i32
    ensures value { result ≡ difference settings.now.funding_divisor settings.now.funding_cap last spot }
    ensures bound { spot ≤ 100000000 → unsigned_abs result ≤ 400000 }
{
    hold(
        premium(last, spot, settings.funding_divisor()),
        bound(spot, settings.funding_cap()) as u32,
    )
}

// The side that pays, if any does.
pub fn payer(difference: i32) -> Option<Side>
    ensures { result ≡ payer difference }
{
    match difference.cmp(&0) {
        Ordering::Greater => Some(Side::Buy),
        Ordering::Equal => None,
        Ordering::Less => Some(Side::Sell),
    }
}

// What a round comes to for a lot, in sen, before it is rounded to yen.
// The difference is a round's and the quantity a lot's: a struct of both would be made at each call, to be taken apart here.
fn sen(difference: i32, quantity: u32) -> u64
    ensures { result ≡ unsigned_abs difference * quantity }
{
    difference.unsigned_abs() as u64 * quantity as u64
}

// Yen that a paying lot pays, rounded up.
#[tactic(auto, using(crate::proofs::Divisions::ceiling_is), unfolding(crate::specs::Charges::paid))]
pub fn paid(difference: i32, quantity: u32) -> u64
    ensures value { result ≡ paid difference quantity }
    ensures bound { result < 2 ^ 57 }
{
    sen(difference, quantity).div_ceil(100)
}

// Yen that a receiving lot gets, rounded down.
#[tactic(auto, unfolding(crate::specs::Charges::received))]
pub fn received(difference: i32, quantity: u32) -> u64
    ensures value { result ≡ received difference quantity }
    ensures bound { result < 2 ^ 57 }
{
    sen(difference, quantity) / 100
}

// What a funding round adds to a lot's charge: a payer's rises, a receiver's falls.
pub fn funding(difference: i32, side: Side, quantity: u32) -> i64
    ensures { result ≡ funding difference side quantity }
{
    match payer(difference) {
        None => 0,
        Some(payer) if payer == side => paid(difference, quantity) as i64,
        Some(_) => -(received(difference, quantity) as i64),
    }
}
