// Standing and review over all that a ledger holds, whose types carry what the functions over lists ask.
ghost use Rattle.std.specs.Prelude.{◌≡◌, ℕ, ◌-◌, ◌*◌, ◌<◌, ◌≤◌, length, drop};
ghost use Rattle.slots.specs.Items.{items, free, capacity};
ghost use Rattle.accounts.specs.States.{state_of};
ghost use Rattle.reviews.specs.Standings.{standing_of};
ghost use Rattle.reviews.specs.Reviews.{decided, orders_left};

use crate::{review as reviewing, standing as standings};
use accounts::{Accounts, Standing};
use book::Book;
use lots::Lots;
use orders::Orders;
use terms::Valuation;

// How one account stands over a book, lots and orders.
// Lots and orders come apart, here and below: a review reads the ones and writes the others.
pub fn standing_of<B: Book>(
    book: &B,
    account: u8,
    lots: &Lots,
    orders: &Orders,
    valuation: &Valuation,
) -> Standing
    ensures value { result ≡ standing_of (B.meaning book.now) valuation.now.settings.margin_percent valuation.now.spot valuation.now.mark.yen (items lots.now.list) (items orders.now.list) account }
    ensures few { result.units ≤ 50000 * 4096 }
    ensures small { result.margin ≤ 200000000000000000 }
{
    standings::standing_of(
        book,
        account,
        &lots.list,
        &orders.list,
        &valuation.settings,
        lots.time,
        valuation.spot,
        valuation.mark.yen,
    )
}

// Reviews every account, after a call that was taken.
// Its last two clauses are about the list before and after, which no type says of one value.
pub fn review<B: Book>(
    book: &B,
    accounts: &mut Accounts,
    lots: &Lots,
    orders: &mut Orders,
    valuation: &Valuation,
)
    ensures states { (a : ℕ) → a < 256 → state_of accounts.new a ≡ (decided (B.meaning book.now) valuation.now.settings.margin_percent valuation.now.spot valuation.now.mark.yen (items lots.now.list) (items orders.old.list) accounts.old a).state }
    ensures past { (a : ℕ) → 256 ≤ a → state_of accounts.new a ≡ (decided (B.meaning book.now) valuation.now.settings.margin_percent valuation.now.spot valuation.now.mark.yen (items lots.now.list) (items orders.old.list) accounts.old a).state }
    ensures orders { items orders.new.list ≡ orders_left (B.meaning book.now) valuation.now.settings.margin_percent valuation.now.spot valuation.now.mark.yen (items lots.now.list) (items orders.old.list) accounts.old }
    ensures free { drop (length (items orders.old.list) - length (items orders.new.list)) (free orders.new.list) ≡ free orders.old.list }
    ensures capacity { capacity orders.new.list ≡ capacity orders.old.list }
{
    reviewing::review(
        book,
        accounts,
        &lots.list,
        &mut orders.list,
        &valuation.settings,
        lots.time,
        valuation.spot,
        valuation.mark.yen,
    );
}
