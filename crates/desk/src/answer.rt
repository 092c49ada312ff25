// What the desk does with a call, and the line that answers it.
ghost use Rattle.std.specs.Prelude.{◌≡◌, is_ok, MatchResult};
ghost use Rattle.terms.specs.declared.refusal.Refusal.TheVariants.{SettingOutOfRange};
ghost use Rattle.terms.specs.Refusals.{answer};
ghost use Rattle.book.specs.Deposits.{deposit_refusal, deposited};
ghost use Rattle.desk.specs.Answers.{counted, open_counted};
ghost use Rattle.commands.specs.Openings.{request_lawful, Admitted};

use crate::counts::Counts;
use book::Book;
use book::deposits::move_deposit;
use commands::opening::{Opening, Request};
use std::fmt;
use terms::Refusal;

// The line that answers a command.
#[derive(Clone, Copy)]
pub enum Answer {
    Opened,
    Called(Result<(), Refusal>),
    // no `open` was taken yet
    NoLedger,
}

pub(crate) fn deposit<B: Book>(
    book: &mut B,
    account: u8,
    yen: u64,
    counts: &mut Counts,
) -> Result<(), Refusal>
    ensures answers { result ≡ answer (deposit_refusal (B.meaning book.old) account yen) }
    ensures leaves { B.meaning book.new ≡ deposited (B.meaning book.old) account yen }
    ensures counts { counts.new ≡ counted (deposit_refusal (B.meaning book.old) account yen) counts.old }
{
    let call = move_deposit(book, account, yen);
    match call {
        Ok(()) => counts.add_taken(),
        Err(why) => counts.add_refused(why),
    }
    call
}

// A taken `open` is no call of the book that it ends or makes; a refused one counts as a refused call.
pub(crate) fn admit_counted(request: Request, counts: &mut Counts) -> Result<Opening, Refusal>
    ensures test { is_ok result ≡ request_lawful request }
    ensures cases { MatchResult result (Admitted request) (λ e. e ≡ SettingOutOfRange) }
    ensures counts { counts.new ≡ open_counted request counts.old }
{
    // Tried: after `inspect_err`, what its closure leaves in `counts` was not proved.
    let opening = Opening::try_from(request);
    if let Err(refusal) = opening {
        counts.add_refused(refusal);
    }
    opening
}

// An answer is no error, so no `thiserror` writes this.
impl fmt::Display for Answer {
    fn fmt<W: fmt::Write>(&self, f: &mut fmt::Formatter<W>) -> fmt::Result {
        match *self {
            Answer::Opened => f.write_str("opened"),
            Answer::Called(Ok(())) => f.write_str("taken"),
            Answer::Called(Err(why)) => write!(f, "refused {}", u8::from(why)),
            Answer::NoLedger => f.write_str("no ledger"),
        }
    }
}
