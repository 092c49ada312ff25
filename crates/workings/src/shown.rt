// The arithmetic of one charge in words that a pocket calculator can follow.
ghost use Rattle.std.specs.Prelude.{◌≡◌};
ghost use Rattle.workings.specs.Works.{holders_of, others_of};

use crate::money::{Grouped, Signed};
use crate::working::{FundingWork, MarginWork, PointsWork, SplitWork, Working};
use std::fmt;
use terms::Side;

impl fmt::Display for Working {
    fn fmt<W: fmt::Write>(&self, f: &mut fmt::Formatter<W>) -> fmt::Result {
        match *self {
            Working::Points(work) => show_points(work, f),
            Working::Funding(work) => show_funding(work, f),
            Working::Margin(work) => show_margin(work, f),
            Working::Split(work) => show_split(work, f),
        }
    }
}

// A text for each working: one for a product of any three numbers would take names, factors, divisor and rounding, to print them.
fn show_points<W: fmt::Write>(work: PointsWork, f: &mut fmt::Formatter<W>) -> fmt::Result {
    write!(
        f,
        "points: {} x {} x {} = {}; / 100,000,000, rounded down: {} yen",
        work.spot,
        work.quantity,
        work.rate,
        Grouped(work.product()),
        Grouped(work.yen() as u128)
    )
}

fn show_funding<W: fmt::Write>(work: FundingWork, f: &mut fmt::Formatter<W>) -> fmt::Result {
    write!(
        f,
        "funding: ({} - {}) / {}, truncated toward nought: {}; ",
        work.last,
        work.spot,
        work.divisor,
        Signed(work.divided() as i128)
    )?;
    write!(
        f,
        "held within {} ({} x {} / 1,000,000, rounded down): {}; ",
        Grouped(work.bound() as u128),
        work.spot,
        work.cap,
        Signed(work.difference() as i128)
    )?;
    match work.payer() {
        Some(side) => show_payment(work, side, f),
        None => f.write_str("nobody pays"),
    }
}

fn show_payment<W: fmt::Write>(
    work: FundingWork,
    payer: Side,
    f: &mut fmt::Formatter<W>,
) -> fmt::Result {
    let (payers, receivers) = holders_of(payer);
    write!(
        f,
        "{payers} pay {} x {} / 100, rounded up: {} yen; {receivers} receive it rounded down: {} yen",
        Grouped(work.difference().unsigned_abs() as u128),
        work.quantity,
        Grouped(work.paid() as u128),
        Grouped(work.received() as u128)
    )
}

// Those that hold lots of the side that pays, and those that hold lots of the other.
fn holders_of(payer: Side) -> (&'static str, &'static str)
    ensures pay { result.0.now ≡ holders_of payer }
    ensures receive { result.1.now ≡ others_of payer }
{
    match payer {
        Side::Buy => ("longs", "shorts"),
        Side::Sell => ("shorts", "longs"),
    }
}

fn show_margin<W: fmt::Write>(work: MarginWork, f: &mut fmt::Formatter<W>) -> fmt::Result {
    write!(
        f,
        "margin: {} x {} x {} = {}; / 10,000, rounded up: {} yen",
        work.price,
        work.quantity,
        work.percent,
        Grouped(work.product()),
        Grouped(work.yen() as u128)
    )
}

fn show_split<W: fmt::Write>(work: SplitWork, f: &mut fmt::Formatter<W>) -> fmt::Result {
    let (taken, stays) = work.shares();
    write!(
        f,
        "split: {} x {} / {}, truncated toward nought: {} yen are taken, {} yen stay",
        Signed(work.charge as i128),
        Grouped(work.closed as u128),
        work.held,
        Signed(taken as i128),
        Signed(stays as i128)
    )
}
