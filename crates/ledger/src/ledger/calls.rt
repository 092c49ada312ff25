ghost use Rattle.rules.specs.Calls.{spot_call, deposit_call, withdraw_call, order_call, cancel_call};
ghost use Rattle.ledger.specs.View.{view};
ghost use Rattle.ledger.specs.Done.{Done};

use crate::ledger::Ledger;
use crate::ledger::admission::{admit_form, admit_price};
use book::Book;
use book::deposits::move_deposit;
use orders::Order;
use orders::search::find;
use terms::Refusal;
use terms::ranges::{BANK, SEN_PER_YEN};

impl Ledger<'_> {
    // A spot price comes.
    pub fn spot<B: Book>(&mut self, book: &B, price: u32) -> Result<(), Refusal>
        ensures { Done 0 (spot_call price (view self.old) (B.meaning book.now)) result self.old self.new book.now book.now (B.meaning book.now) (B.meaning book.now) }
    {
        let price = admit_price(price)?;
        self.spot = Some(price.yen);
        self.review(book);
        Ok(())
    }

    // Yen are paid in. Book, account and yen come one by one, here and below, as the host's call names them; `admit_payment` asks the numbers at one place.
    pub fn deposit<B: Book>(&mut self, book: &mut B, account: u8, yen: u64) -> Result<(), Refusal>
        ensures { Done 0 (deposit_call account yen (view self.old) (B.meaning book.old)) result self.old self.new book.old book.new (B.meaning book.old) (B.meaning book.new) }
    {
        move_deposit(book, account, yen)?;
        self.clear_call(book, account);
        self.review(book);
        Ok(())
    }

    // Yen are paid out.
    pub fn withdraw<B: Book>(&mut self, book: &mut B, account: u8, yen: u64) -> Result<(), Refusal>
        ensures { Done 0 (withdraw_call account yen (view self.old) (B.meaning book.old)) result self.old self.new book.old book.new (B.meaning book.old) (B.meaning book.new) }
    {
        self.admit_withdrawal(book, account, yen)?;
        book.transfer(account, BANK, SEN_PER_YEN * yen)?;
        self.review(book);
        Ok(())
    }

    // An order is entered, and its number comes back. Side 0 buys and 1 sells; price 0 is for a market order. These are the host's numbers, each of which may be refused, so they come one by one.
    pub fn order<B: Book>(
        &mut self,
        book: &B,
        account: u8,
        side: u8,
        price: u32,
        quantity: u32,
    ) -> Result<u32, Refusal>
        ensures { Done 1 (order_call account side price quantity (view self.old) (B.meaning book.now)) result self.old self.new book.now book.now (B.meaning book.now) (B.meaning book.now) }
    {
        let order = admit_form(account, side, price, quantity)?;
        self.admit_order(book, order)?;
        let number = self.issued + 1;
        // admitted, so there is room
        let orders = &mut self.orders;
        let _ = orders.list.append(Order { number, ..order });
        self.issued = number;
        self.review(book);
        Ok(number)
    }

    // An order is taken back. The orders lie in lent slots, so it is found by its place and taken out there.
    pub fn cancel<B: Book>(&mut self, book: &B, number: u32) -> Result<(), Refusal>
        ensures { Done 0 (cancel_call number (view self.old) (B.meaning book.now)) result self.old self.new book.now book.now (B.meaning book.now) (B.meaning book.now) }
    {
        let place = find(self.orders.list.as_slice(), number).ok_or(Refusal::OrderNotHeld)?;
        if self.orders.list.get(place).cut {
            return Err(Refusal::OrderNotHeld);
        }
        let orders = &mut self.orders;
        orders.list.take_out(place);
        self.review(book);
        Ok(())
    }
}
