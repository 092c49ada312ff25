// Reads the words of a line as a command.
ghost use Rattle.std.specs.Prelude.{◌≡◌, IfOk, MatchResult};
ghost use Rattle.commands.specs.declared.command.Command.TheVariants as command;
ghost use Rattle.commands.specs.Commands.{verb_of, Writes, Filled, Written};
ghost use Rattle.commands.specs.Faults.{NoField};
ghost use Rattle.workings.specs.Lines.{texts};

use crate::field::Field;
use crate::opening::{Kind, Layout, Request};
use crate::unreadable::Unreadable;
use crate::verb::Verb;
use workings::asking::read_working;
use workings::number::{NumberFault, read_number};
use workings::working::Working;

#[derive(Clone, Copy)]
pub enum Command {
    Open(Request),
    Deposit { account: u8, yen: u64 },
    State,
    Statement,
    Work(Working),
}

// The command that the words of a line write. `read_working` begins alike; one function for both would take the two types, the fault of no word and what reads the fields.
pub fn parse<'a>(words: &[&'a str]) -> Result<Command, Unreadable<'a>>
    ensures { IfOk result (Written (texts words.now)) }
{
    let Some((word, fields)) = words.split_first() else {
        return Err(Unreadable::NoCommand(""));
    };
    let verb = Verb::try_from(*word)?;
    read_fields(verb, fields)
}

fn read_fields<'a>(verb: Verb, fields: &[&'a str]) -> Result<Command, Unreadable<'a>>
    ensures verb { IfOk result (λ c. verb_of c ≡ verb) }
    ensures fields { IfOk result (Filled (texts fields.now)) }
{
    match (verb, fields) {
        (Verb::Open, _) => read_request(fields).map(Command::Open),
        (Verb::Deposit, [account, yen]) => Ok(Command::Deposit {
            account: read_field(Field::Account, account)? as u8,
            yen: read_field(Field::Yen, yen)?,
        }),
        (Verb::State, []) => Ok(Command::State),
        (Verb::Statement, []) => Ok(Command::Statement),
        (Verb::Work, _) => read_working(fields)
            .map(Command::Work)
            .map_err(Unreadable::Work),
        _ => Err(wrong_count(verb, fields)),
    }
}

fn read_request<'a>(fields: &[&'a str]) -> Result<Request, Unreadable<'a>>
    ensures { IfOk result (λ q. Filled (texts fields.now) (command.Open q)) }
{
    let [r, g, k, p, lots, orders, kind, entries] = fields else {
        return Err(wrong_count(Verb::Open, fields));
    };
    Ok(Request {
        points_rate: read_field(Field::PointsRate, r)? as u32,
        funding_divisor: read_field(Field::FundingDivisor, g)? as u32,
        funding_cap: read_field(Field::FundingCap, k)? as u32,
        margin_percent: read_field(Field::MarginPercent, p)? as u32,
        layout: Layout {
            lots: read_field(Field::Lots, lots)? as usize,
            orders: read_field(Field::Orders, orders)? as usize,
            kind: Kind::try_from(*kind)?,
            entries: read_field(Field::Entries, entries)? as usize,
        },
    })
}

fn wrong_count<'a>(verb: Verb, fields: &[&'a str]) -> Unreadable<'a> {
    Unreadable::WrongCount {
        verb,
        given: fields.len(),
    }
}

// As a figure is read, but with a fault of this crate's own for each reason.
fn read_field(field: Field, text: &str) -> Result<u64, Unreadable<'_>>
    ensures { MatchResult result (Writes field text.now) (NoField field text.now) }
{
    read_number(text, field.max()).map_err(|fault| match fault {
        NumberFault::NoNumber => Unreadable::NoNumber { field, text },
        NumberFault::TooLarge => Unreadable::TooLarge { field, text },
    })
}
