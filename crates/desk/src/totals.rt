ghost use Rattle.std.specs.Prelude.{◌≡◌, neg_ℤ, codes, ◌≢◌};
ghost use Rattle.book.specs.Meaning.{clients};

use book::Book;
use book::clients::client_money;
use terms::ranges::BANK;

// In sen: what the company and its customers hold together, and what the bank owes.
#[derive(Clone, Copy)]
pub struct Totals {
    pub held: i128,
    pub owed: i128,
}

pub(crate) fn sums<B: Book>(book: &B) -> Totals
    ensures held { result.held ≡ clients (B.meaning book.now) }
    ensures owed { result.owed ≡ neg_ℤ ((B.meaning book.now).balance 0) }
    ensures agree { result.held ≡ result.owed }
{
    Totals {
        held: client_money(book),
        owed: -(book.balance(BANK) as i128),
    }
}

impl Totals {
    pub(crate) fn verdict(self) -> &'static str
        ensures agree { self.held ≡ self.owed → result.now ≡ codes "they agree" }
        ensures differ { (self.held ≢ self.owed) → result.now ≡ codes "they DO NOT agree" }
    {
        if self.held == self.owed {
            "they agree"
        } else {
            "they DO NOT agree"
        }
    }
}
