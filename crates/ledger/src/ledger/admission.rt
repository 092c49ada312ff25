// Why a call is refused, before anything is written.
ghost use Rattle.std.specs.Prelude.{◌≡◌, ℕ, ◌≤◌, true, false, Some, None, MatchResult};
ghost use Rattle.terms.specs.Codes.{side_of};
ghost use Rattle.terms.specs.Refusals.{first, told, answer};
ghost use Rattle.orders.specs.Orders.{lawful_order};
ghost use Rattle.rules.specs.Calls.{withdraw_sentences, order_forms, order_sentences, plain_order, price_refusal, oversized, uncovered, exhausted};
ghost use Rattle.ledger.specs.View.{view};

use crate::ledger::Ledger;
use accounts::review::{is_open, is_sound};
use accounts::withdrawals::exceeds;
use book::Book;
use book::deposits::admit_payment;
use orders::Order;
use orders::margins::margin;
use terms::margins::is_short_of;
use terms::ranges::{
    ORDER_NUMBER_MAX, ORDER_QUANTITY_MAX, POSITION_MAX, PRICE_MAX, PROPRIETARY, SEN_PER_YEN,
};
use terms::{Price, Refusal, Side};

// A price is one that can come.
pub(crate) fn admit_price(price: u32) -> Result<Price, Refusal>
    ensures { MatchResult result (λ p. (price_refusal price ≡ None) × (p.yen ≡ price)) (λ e. price_refusal price ≡ Some e) }
{
    if price < 1 || price > PRICE_MAX {
        return Err(Refusal::PriceOutOfRange);
    }
    Ok(Price { yen: price })
}

// The order that is asked for, before it has a number: its account, side, price and quantity are ones that an order can have.
pub(crate) fn admit_form(account: u8, side: u8, price: u32, quantity: u32) -> Result<Order, Refusal>
    ensures { result ≡ told (first (order_forms account side price quantity)) (plain_order 0 account (side_of side) price quantity) }
{
    // as in `admit_payment`: a function for one test would be longer than it
    if account < PROPRIETARY {
        return Err(Refusal::AccountOutOfRange);
    }
    let side = Side::try_from(side)?;
    if price > PRICE_MAX {
        return Err(Refusal::PriceOutOfRange);
    }
    if quantity < 1 || quantity > ORDER_QUANTITY_MAX {
        return Err(Refusal::QuantityOutOfRange);
    }
    Ok(Order {
        number: 0,
        account,
        side,
        price,
        quantity,
        cut: false,
    })
}

impl Ledger<'_> {
    // A withdrawal, but for whether the book has an entry left.
    pub(crate) fn admit_withdrawal<B: Book>(
        &self,
        book: &B,
        account: u8,
        yen: u64,
    ) -> Result<(), Refusal>
        ensures { result ≡ answer (first (withdraw_sentences account yen (view self.now) (B.meaning book.now))) }
    {
        admit_payment(account, yen)?;
        if !is_sound(self.accounts.state(account)) {
            return Err(Refusal::WrongAccountState);
        }
        let balance = book.balance(account);
        let standing = self.standing(book, account);
        if exceeds(SEN_PER_YEN * yen, balance, standing) {
            return Err(Refusal::MarginTooSmall);
        }
        Ok(())
    }

    // The order, the account's other orders of its side and its position in that direction exceed 50,000 units.
    fn is_oversized(&self, order: Order) -> bool
        requires { order.quantity ≤ 10000 }
        ensures { result ≡ oversized order (view self.now) }
    {
        let ordered = self.orders.ordered(order.account, order.side);
        let held = self.lots.position(order.account, order.side);
        order.quantity + ordered + held > POSITION_MAX
    }

    // Equity does not cover the margin with the order. The proprietary account is not asked.
    fn is_uncovered<B: Book>(&self, book: &B, order: Order) -> bool
        requires { lawful_order order ≡ true }
        ensures { result ≡ uncovered order (view self.now) (B.meaning book.now) }
    {
        if order.account == PROPRIETARY {
            return false;
        }
        let standing = self.standing(book, order.account);
        let more = margin(order, &self.settings, self.mark());
        is_short_of(standing.equity, standing.margin + more)
    }

    // Every slot holds an order, or the last number has been given.
    fn is_exhausted(&self) -> bool
        ensures { result ≡ exhausted (view self.now) }
    {
        self.orders.list.room() == 0 || self.issued == ORDER_NUMBER_MAX
    }

    // An order of a lawful form, whatever its number will be. That is asked and no fact of `Order`: slots that a host lends may hold any.
    #[tactic(auto, using(rules::proofs::Entering::margin_any))]
    pub(crate) fn admit_order<B: Book>(&self, book: &B, order: Order) -> Result<(), Refusal>
        requires lawful { lawful_order order ≡ true }
        requires few { order.quantity ≤ 10000 }
        requires plain { order.cut ≡ false }
        ensures { (n : ℕ) → result ≡ answer (first (order_sentences (plain_order n order.account order.side order.price order.quantity) (view self.now) (B.meaning book.now))) }
    {
        if self.spot.is_none() {
            return Err(Refusal::NoSpotPrice);
        }
        if !is_open(self.accounts.state(order.account)) {
            return Err(Refusal::WrongAccountState);
        }
        if self.is_oversized(order) {
            return Err(Refusal::PositionTooLarge);
        }
        if self.is_uncovered(book, order) {
            return Err(Refusal::MarginTooSmall);
        }
        if self.is_exhausted() {
            return Err(Refusal::NoSlotLeft);
        }
        Ok(())
    }
}
