ghost use Rattle.std.specs.Prelude.{◌≡◌, ℕ, ◌-◌, ◌<◌, ◌≤◌, true, false, length, drop, slice_index_or};
ghost use Rattle.slots.specs.Items.{items, free, capacity};
ghost use Rattle.lots.specs.Lots.{lawful_lots};
ghost use Rattle.orders.specs.Orders.{lawful_orders};
ghost use Rattle.accounts.specs.Review.{reviewed};
ghost use Rattle.accounts.specs.States.{state_of};
ghost use Rattle.reviews.specs.Standings.{standing_by};
ghost use Rattle.reviews.specs.Reviews.{decided, orders_left, ReviewingAllTwiceIsOnce, JudgingAllTwiceIsOnce};

use crate::exposure::Exposure;
use crate::standing::standing;
use accounts::review::review as review_one;
use accounts::{Accounts, Decision};
use book::Book;
use lots::valuation::holdings;
use orders::Order;
use orders::margins::margins;
use orders::voids::void;
use slots::List;
use terms::{Lot, Price, Settings, Valuation};

// What a review decides of one account. The book is asked only where there is something to judge.
fn decide<B: Book>(
    book: &B,
    account: u8,
    accounts: &Accounts,
    exposure: Exposure,
    valuation: &Valuation,
) -> Decision
    ensures { result ≡ reviewed account (state_of accounts.now account) (standing_by ((B.meaning book.now).balance account) valuation.now.settings.margin_percent valuation.now.spot account exposure.holding exposure.ordered) }
{
    let state = accounts.state(account);
    if exposure.holding.units == 0 && exposure.ordered == 0 {
        return Decision { state, void: false };
    }
    let standing = standing(book, account, exposure, &valuation.settings, valuation.spot);
    review_one(account, state, standing)
}

// Decides of every account, puts it into its state from then on, and answers whose orders are void: one pass over the lots, one over the orders, one over the accounts.
// Decisions as an array of their own, made by `from_fn` and put by `Accounts::put`, were tried: a review over few lots and orders took 1.7 to 1.9 times as long.
fn decide_all<B: Book>(
    book: &B,
    accounts: &mut Accounts,
    lots: &List<Lot>,
    orders: &List<Order>,
    time: u32,
    valuation: &Valuation,
) -> [bool; 256]
    requires time { time ≤ 94694399 }
    requires few_lots { capacity lots.now ≤ 4096 }
    requires lots { lawful_lots time (items lots.now) ≡ true }
    requires few_orders { capacity orders.now ≤ 4096 }
    requires orders { lawful_orders (items orders.now) ≡ true }
    ensures states { (a : ℕ) → a < 256 → state_of accounts.new a ≡ (decided (B.meaning book.now) valuation.now.settings.margin_percent valuation.now.spot valuation.now.mark.yen (items lots.now) (items orders.now) accounts.old a).state }
    ensures rest { (a : ℕ) → 256 ≤ a → state_of accounts.new a ≡ state_of accounts.old a }
    ensures voids { (a : ℕ) → a < 256 → slice_index_or result a false ≡ (decided (B.meaning book.now) valuation.now.settings.margin_percent valuation.now.spot valuation.now.mark.yen (items lots.now) (items orders.now) accounts.old a).void }
{
    let held = holdings(lots, time, valuation.mark.yen);
    let ordered = margins(orders, &valuation.settings, valuation.mark.yen);
    let mut void = [false; 256];
    for a in 0..256usize {
        let exposure = Exposure {
            holding: held[a],
            ordered: ordered[a],
        };
        let d = decide(book, a as u8, accounts, exposure, valuation);
        accounts.set(a as u8, d.state);
        void[a] = d.void;
    }
    void
}

// Reviews every account, after a call that was taken, over a book, lots and orders as they stand at a time. The mark is the last price, or spot where there is none.
// Its last two clauses are about the list before and after, which no type says of one value.
pub fn review<B: Book>(
    book: &B,
    accounts: &mut Accounts,
    lots: &List<Lot>,
    orders: &mut List<Order>,
    settings: &Settings,
    time: u32,
    spot: u32,
    mark: u32,
)
    requires time { time ≤ 94694399 }
    requires mark { mark ≤ 100000000 }
    requires few_lots { capacity lots.now ≤ 4096 }
    requires lots { lawful_lots time (items lots.now) ≡ true }
    requires few_orders { capacity orders.old ≤ 4096 }
    requires orders { lawful_orders (items orders.old) ≡ true }
    ensures states { (a : ℕ) → a < 256 → state_of accounts.new a ≡ (decided (B.meaning book.now) settings.now.margin_percent spot mark (items lots.now) (items orders.old) accounts.old a).state }
    ensures past { (a : ℕ) → 256 ≤ a → state_of accounts.new a ≡ (decided (B.meaning book.now) settings.now.margin_percent spot mark (items lots.now) (items orders.old) accounts.old a).state }
    ensures orders { items orders.new ≡ orders_left (B.meaning book.now) settings.now.margin_percent spot mark (items lots.now) (items orders.old) accounts.old }
    ensures free { drop (length (items orders.old) - length (items orders.new)) (free orders.new) ≡ free orders.old }
    ensures capacity { capacity orders.new ≡ capacity orders.old }
{
    let valuation = Valuation {
        settings: *settings,
        spot,
        mark: Price { yen: mark },
    };
    let marked = decide_all(book, accounts, lots, orders, time, &valuation);
    void(orders, &marked);
}

// A law: reviewed again over the states and orders that a review left, every account keeps its state and every order stays.
pub fn reviews_all_settle()
    ensures { ReviewingAllTwiceIsOnce }
{}

// The same by a state for each account, whatever keeps the states.
pub fn judgements_all_settle()
    ensures { JudgingAllTwiceIsOnce }
{}
