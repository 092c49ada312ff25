// Numbers of a range that a type fixes.
ghost use Rattle.std.specs.Prelude.{◌≤◌};

mod methods;

use crate::money::Grouped;
use std::fmt;

// A whole number from MIN to MAX.
#[derive(Clone, Copy)]
pub struct Ranged<const MIN: u32, const MAX: u32> {
    pub value: u32,
    ghost least: { MIN ≤ value },
    ghost most: { value ≤ MAX },
}

// Yen for one BTC; not nought, as one of `terms` may be.
pub type Price = Ranged<1, 100_000_000>;

pub type Quantity = Ranged<1, 50_000>;

// `Settings` has the next four ranges too: its fields are private, and it lies below.
pub type Rate = Ranged<0, 1_000>;

pub type Divisor = Ranged<1, 100>;

// Millionths of spot.
pub type Cap = Ranged<0, 4_000>;

pub type Percent = Ranged<50, 100>;

impl<const MIN: u32, const MAX: u32> fmt::Display for Ranged<MIN, MAX> {
    fn fmt<W: fmt::Write>(&self, f: &mut fmt::Formatter<W>) -> fmt::Result {
        write!(f, "{}", Grouped(self.value as u128))
    }
}
