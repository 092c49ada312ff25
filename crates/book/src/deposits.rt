ghost use Rattle.std.specs.Prelude.{◌≡◌, true, is_err};
ghost use Rattle.terms.specs.Refusals.{first, answer};
ghost use Rattle.book.specs.Deposits.{payment_sentences, deposit_refusal, deposited};

use crate::book::Book;
use terms::Refusal;
use terms::ranges::{BANK, PAYMENT_MAX, PROPRIETARY, SEN_PER_YEN};

// A payment, of a deposit or a withdrawal, is by an account and of an amount that can be paid.
pub fn admit_payment(account: u8, yen: u64) -> Result<(), Refusal>
    ensures { result ≡ answer (first (payment_sentences account yen)) }
{
    if account < PROPRIETARY {
        return Err(Refusal::AccountOutOfRange);
    }
    if yen < 1 || yen > PAYMENT_MAX {
        return Err(Refusal::PaymentOutOfRange);
    }
    Ok(())
}

// A deposit, over any book: 100 sen a yen from the bank to the account.
pub fn move_deposit<B: Book>(book: &mut B, account: u8, yen: u64) -> Result<(), Refusal>
    ensures answers { result ≡ answer (deposit_refusal (B.meaning book.old) account yen) }
    ensures leaves { B.meaning book.new ≡ deposited (B.meaning book.old) account yen }
    ensures same { is_err result ≡ true → book.new ≡ book.old }
{
    admit_payment(account, yen)?;
    book.transfer(BANK, account, SEN_PER_YEN * yen)
}
