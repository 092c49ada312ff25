// Reads the words after `work` as a working.
ghost use Rattle.std.specs.Prelude.{◌≡◌, ◌≤◌, IfOk, Ok, MatchResult, unsigned_abs};
ghost use Rattle.workings.specs.declared.figure.Figure.TheVariants.{Charge, Closed};
ghost use Rattle.workings.specs.declared.working.Working.TheVariants.{Points, Funding, Margin, Split};
ghost use Rattle.workings.specs.Between.{between_read};
ghost use Rattle.workings.specs.Lines.{texts};
ghost use Rattle.workings.specs.Workings.{charge_read, Figured, InRange, Makes, Asked};
ghost use Rattle.workings.specs.WorkFaults.{Unfit};

use crate::between::{read_between, read_signed};
use crate::figure::Figure;
use crate::ranged::{Cap, Divisor, Percent, Price, Quantity, Rate};
use crate::topic::Topic;
use crate::work_fault::WorkFault;
use crate::working::{FundingWork, MarginWork, PointsWork, SplitWork, Working};

pub fn read_working<'a>(words: &[&'a str]) -> Result<Working, WorkFault<'a>>
    ensures { IfOk result (Asked (texts words.now)) }
{
    let Some((word, fields)) = words.split_first() else {
        return Err(WorkFault::NoWord);
    };
    let topic = Topic::try_from(*word)?;
    read_figures(topic, fields)
}

fn read_figures<'a>(topic: Topic, fields: &[&'a str]) -> Result<Working, WorkFault<'a>>
    ensures { IfOk result (Makes topic (texts fields.now)) }
{
    match topic {
        Topic::Points => read_points(fields).map(Working::Points),
        Topic::Funding => read_funding(fields).map(Working::Funding),
        Topic::Margin => read_margin(fields).map(Working::Margin),
        Topic::Split => read_split(fields).map(Working::Split),
    }
}

// A topic is read by its own list of figures; what the lists share is `Ranged::read` and `wrong_count`.
fn read_points<'a>(fields: &[&'a str]) -> Result<PointsWork, WorkFault<'a>>
    ensures figures { IfOk result (λ w. Figured (texts fields.now) (Points w)) }
    ensures ranges { IfOk result (λ w. InRange (Points w)) }
{
    let [spot, quantity, rate] = fields else {
        return Err(wrong_count(Topic::Points, fields));
    };
    Ok(PointsWork {
        spot: Price::read(Figure::Spot, spot)?,
        quantity: Quantity::read(Figure::Quantity, quantity)?,
        rate: Rate::read(Figure::Rate, rate)?,
    })
}

fn read_funding<'a>(fields: &[&'a str]) -> Result<FundingWork, WorkFault<'a>>
    ensures figures { IfOk result (λ w. Figured (texts fields.now) (Funding w)) }
    ensures ranges { IfOk result (λ w. InRange (Funding w)) }
{
    let [last, spot, divisor, cap, quantity] = fields else {
        return Err(wrong_count(Topic::Funding, fields));
    };
    Ok(FundingWork {
        last: Price::read(Figure::Last, last)?,
        spot: Price::read(Figure::Spot, spot)?,
        divisor: Divisor::read(Figure::Divisor, divisor)?,
        cap: Cap::read(Figure::Cap, cap)?,
        quantity: Quantity::read(Figure::Quantity, quantity)?,
    })
}

fn read_margin<'a>(fields: &[&'a str]) -> Result<MarginWork, WorkFault<'a>>
    ensures figures { IfOk result (λ w. Figured (texts fields.now) (Margin w)) }
    ensures ranges { IfOk result (λ w. InRange (Margin w)) }
{
    let [price, quantity, percent] = fields else {
        return Err(wrong_count(Topic::Margin, fields));
    };
    Ok(MarginWork {
        price: Price::read(Figure::Price, price)?,
        quantity: Quantity::read(Figure::Quantity, quantity)?,
        percent: Percent::read(Figure::Percent, percent)?,
    })
}

// Q is read before C, which goes up to it.
fn read_split<'a>(fields: &[&'a str]) -> Result<SplitWork, WorkFault<'a>>
    ensures figures { IfOk result (λ w. Figured (texts fields.now) (Split w)) }
    ensures ranges { IfOk result (λ w. InRange (Split w)) }
{
    let [charge, closed, held] = fields else {
        return Err(wrong_count(Topic::Split, fields));
    };
    let charge = read_charge(charge)?;
    let held = Quantity::read(Figure::Held, held)?;
    let closed = read_closed(closed, held)?;
    Ok(SplitWork {
        charge,
        closed,
        held,
    })
}

fn wrong_count<'a>(topic: Topic, fields: &[&'a str]) -> WorkFault<'a> {
    WorkFault::WrongCount {
        topic,
        given: fields.len(),
    }
}

// CHARGE has a sign and C goes up to Q, so neither is a `Ranged::read`; a function for the fault would take the same three.
fn read_charge(text: &str) -> Result<i64, WorkFault<'_>>
    ensures reads { MatchResult result (λ z. charge_read text.now ≡ Ok z) (Unfit Charge text.now (charge_read text.now)) }
    ensures within { IfOk result (λ z. unsigned_abs z ≤ 712400000000) }
{
    let figure = Figure::Charge;
    read_signed(text, figure.max()).map_err(|why| WorkFault::NoFigure { figure, text, why })
}

fn read_closed(text: &str, held: Quantity) -> Result<u32, WorkFault<'_>>
    ensures reads { MatchResult result (λ n. between_read 0 held.value text.now ≡ Ok n) (Unfit Closed text.now (between_read 0 held.value text.now)) }
    ensures within { IfOk result (λ n. n ≤ held.value) }
{
    let figure = Figure::Closed;
    let closed = read_between(text, figure.min(), held.value as u64).map_err(
        |why| WorkFault::NoFigure { figure, text, why },
    )?;
    Ok(closed as u32)
}
