ghost use Rattle.std.specs.Prelude.{◌≡◌, ◌*◌, ◌≤◌, true};
ghost use Rattle.slots.specs.Items.{items, capacity};
ghost use Rattle.lots.specs.Lots.{lawful_lots};
ghost use Rattle.orders.specs.Orders.{lawful_orders};
ghost use Rattle.reviews.specs.Standings.{standing_by, standing_of};

use crate::exposure::Exposure;
use accounts::Standing;
use book::Book;
use lots::valuation::holdings;
use orders::Order;
use orders::margins::margins;
use slots::List;
use terms::margins::requirement;
use terms::ranges::PROPRIETARY;
use terms::{Lot, Settings};

// How an account stands, by its balance and what it has at stake. The proprietary account needs no margin.
// That margin and units are small is promised here and below, and is no fact of the type: what reviews decide is said of any figures.
#[tactic(auto, using(crate::proofs::Required::small))]
pub fn standing<B: Book>(
    book: &B,
    account: u8,
    exposure: Exposure,
    settings: &Settings,
    spot: u32,
) -> Standing
    ensures value { result ≡ standing_by ((B.meaning book.now).balance account) settings.now.margin_percent spot account exposure.holding exposure.ordered }
    ensures small { result.margin ≤ 200000000000000000 }
{
    let Exposure { holding, ordered } = exposure;
    let equity = book.balance(account) + holding.worth;
    if account == PROPRIETARY {
        return Standing {
            equity,
            requirement: 0,
            margin: 0,
            units: holding.units,
        };
    }
    let requirement = requirement(settings, spot, holding.units);
    Standing {
        equity,
        requirement,
        margin: requirement + ordered,
        units: holding.units,
    }
}

// How one account stands over a book, lots and orders as they stand at a time. The mark is the last price, or spot where there is none.
pub fn standing_of<B: Book>(
    book: &B,
    account: u8,
    lots: &List<Lot>,
    orders: &List<Order>,
    settings: &Settings,
    time: u32,
    spot: u32,
    mark: u32,
) -> Standing
    requires time { time ≤ 94694399 }
    requires mark { mark ≤ 100000000 }
    requires few_lots { capacity lots.now ≤ 4096 }
    requires lots { lawful_lots time (items lots.now) ≡ true }
    requires few_orders { capacity orders.now ≤ 4096 }
    requires orders { lawful_orders (items orders.now) ≡ true }
    ensures value { result ≡ standing_of (B.meaning book.now) settings.now.margin_percent spot mark (items lots.now) (items orders.now) account }
    ensures few { result.units ≤ 50000 * 4096 }
    ensures small { result.margin ≤ 200000000000000000 }
{
    let held = holdings(lots, time, mark);
    let ordered = margins(orders, settings, mark);
    let exposure = Exposure {
        holding: held[account as usize],
        ordered: ordered[account as usize],
    };
    standing(book, account, exposure, settings, spot)
}
