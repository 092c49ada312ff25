// What a `work` gives. No value of these types holds a number outside its range.
ghost use Rattle.std.specs.Prelude.{◌≤◌, unsigned_abs};

use crate::ranged::{Cap, Divisor, Percent, Price, Quantity, Rate};

#[derive(Clone, Copy)]
pub enum Working {
    Points(PointsWork),
    Funding(FundingWork),
    Margin(MarginWork),
    Split(SplitWork),
}

// The points of a rollover.
#[derive(Clone, Copy)]
pub struct PointsWork {
    pub spot: Price,
    pub quantity: Quantity,
    pub rate: Rate,
}

// The funding of a lot.
#[derive(Clone, Copy)]
pub struct FundingWork {
    pub last: Price,
    pub spot: Price,
    pub divisor: Divisor,
    pub cap: Cap,
    pub quantity: Quantity,
}

// The margin of a position or an order.
#[derive(Clone, Copy)]
pub struct MarginWork {
    pub price: Price,
    pub quantity: Quantity,
    pub percent: Percent,
}

// The share of a lot's charge that closing some of its units takes.
#[derive(Clone, Copy)]
pub struct SplitWork {
    pub charge: i64,
    pub closed: u32,
    // what the lot holds
    pub held: Quantity,
    ghost charged: { unsigned_abs charge ≤ 712400000000 },
    ghost part: { closed ≤ held.value },
}
