ghost use Rattle.std.specs.Prelude.{◌≡◌, ◌<◌, ◌≤◌, length, pos, MatchOption, slice_index_or};
ghost use Rattle.terms.specs.Refusals.{told};
ghost use Rattle.rules.specs.State.{Kept};
ghost use Rattle.rules.specs.Valuation.{closed_out};
ghost use Rattle.rules.specs.Calls.{price_refusal};
ghost use Rattle.ledger.specs.View.{view, status_of};

use crate::ledger::Ledger;
use crate::ledger::admission::admit_price;
use crate::status::Status;
use accounts::AccountState;
use book::Book;
use orders::Order;
use terms::ranges::COMPANY;
use terms::{Lot, Refusal};

// Nothing here alters the ledger or the book.
impl Ledger<'_> {
    // The ledger's numbers at a glance. What is true of every ledger is told here too.
    pub fn status(&self) -> Status
        ensures value { result ≡ status_of (view self.now) }
        ensures kept { Kept (view self.now) }
    {
        Status {
            time: self.lots.time,
            spot: self.spot,
            last: self.last,
            halt: self.halt,
            issued: self.issued,
            lots: self.lots.list.len(),
            orders: self.orders.list.len(),
        }
    }

    pub fn state(&self, account: u8) -> AccountState
        ensures { result ≡ (view self.now).states account }
    {
        self.accounts.state(account)
    }

    // The lot at a place, if there is one.
    pub fn lot(&self, i: usize) -> Option<Lot>
        ensures { MatchOption result (length (view self.now).lots ≤ i) (λ l. (i < length (view self.now).lots) × (l ≡ slice_index_or (view self.now).lots i l)) }
    {
        self.lots.list.as_slice().get(i).copied()
    }

    // The order at a place, if there is one.
    pub fn order_at(&self, i: usize) -> Option<Order>
        ensures { MatchOption result (length (view self.now).orders ≤ i) (λ o. (i < length (view self.now).orders) × (o ≡ slice_index_or (view self.now).orders i o)) }
    {
        self.orders.list.as_slice().get(i).copied()
    }

    // What an account holds in sen where all lots are closed out at a price; the company stands against every lot. Refused where the price is out of range.
    pub fn closed_out<B: Book>(&self, book: &B, account: u8, price: u32) -> Result<i64, Refusal>
        ensures { result ≡ told (price_refusal price) (closed_out (view self.now) (B.meaning book.now) (pos price) account) }
    {
        let price = admit_price(price)?;
        let balance = book.balance(account);
        if account == COMPANY {
            return Ok(balance - self.lots.worth_of_all(price));
        }
        Ok(balance + self.lots.holdings(price)[account as usize].worth)
    }
}
