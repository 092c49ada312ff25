ghost use Rattle.std.specs.Prelude.{◌≡◌, ℕ, ◌-◌, ◌*◌, ◌≤◌, pos, ◌+ℤ◌, ◌-ℤ◌, ◌*ℤ◌, unsigned_abs};
ghost use Rattle.terms.specs.Closing.{share, sided, settlement};

use crate::price::Price;
use crate::side::Side;

// The share of a lot's charge that closing some of its units takes, truncated toward nought.
// What `split_charge` asks is handed on to this one step of it; a type for both numbers would ask the same of who makes one.
fn share_of(charge: i64, closed: u32, quantity: u32) -> i64
    requires some { 1 ≤ quantity }
    requires part { closed ≤ quantity }
    ensures { result ≡ share charge closed quantity }
{
    let product = charge as i128 * closed as i128;
    (product / quantity as i128) as i64
}

// That share, and what stays on the lot.
#[tactic(auto, using(crate::proofs::Shares::rest_fits))]
pub fn split_charge(charge: i64, closed: u32, quantity: u32) -> (i64, i64)
    requires some { 1 ≤ quantity }
    requires part { closed ≤ quantity }
    ensures share { result.0 ≡ share charge closed quantity }
    ensures rest { result.1 ≡ charge -ℤ share charge closed quantity }
    ensures sum { result.0 +ℤ result.1 ≡ charge }
    ensures near { (unsigned_abs result.0 ≤ unsigned_abs charge) × (unsigned_abs result.1 ≤ unsigned_abs charge) }
    ensures bounded { (limit : ℕ) → unsigned_abs charge ≤ limit * quantity → (unsigned_abs result.0 ≤ limit * closed) × (unsigned_abs result.1 ≤ limit * (quantity - closed)) }
    ensures all { closed ≡ quantity → (result.0 ≡ charge) × (result.1 ≡ pos 0) }
{
    let share = share_of(charge, closed, quantity);
    let rest = charge - share;
    (share, rest)
}

// What so many units rise in sen from one price to another.
fn rise(units: u32, opening: Price, closing: Price) -> i64
    requires { units ≤ 50000 }
    ensures value { result ≡ pos units *ℤ (pos closing.yen -ℤ pos opening.yen) }
    ensures bound { unsigned_abs result ≤ 5000000000000 }
{
    units as i64 * (closing.yen as i64 - opening.yen as i64)
}

// A rise is a long lot's gain and a short lot's loss.
fn gain(side: Side, rise: i64) -> i64
    requires { unsigned_abs rise ≤ 5000000000000 }
    ensures value { result ≡ sided side rise }
    ensures bound { unsigned_abs result ≤ 5000000000000 }
{
    match side {
        Side::Buy => rise,
        Side::Sell => -rise,
    }
}

// What the account gets in sen for units that are closed; below nought it pays.
// The bounds are of plain numbers that callers add up, and a struct round each would be opened at every sum.
pub fn settlement(side: Side, opening: Price, closing: Price, closed: u32, share: i64) -> i64
    requires closed { closed ≤ 50000 }
    requires share { unsigned_abs share ≤ 712400000000 }
    ensures value { result ≡ settlement side opening.yen closing.yen closed share }
    ensures bound { unsigned_abs result ≤ 76240000000000 }
{
    gain(side, rise(closed, opening, closing)) - 100 * share
}
