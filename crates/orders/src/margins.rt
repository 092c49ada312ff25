ghost use Rattle.std.specs.Prelude.{◌≡◌, ℕ, ◌*◌, ◌<◌, ◌≤◌, true, slice_index};
ghost use Rattle.slots.specs.Items.{items, capacity};
ghost use Rattle.orders.specs.Margins.{order_margin, margin_of, ordered_of};
ghost use Rattle.orders.specs.Orders.{lawful_order, lawful_orders};

use crate::order::Order;
use crate::orders::Orders;
use slots::List;
use sums::{by_account, units_on};
use terms::margins::requirement;
use terms::{Price, Settings, Side};

// The margin of an order in yen: at its limit, or at the mark for a market order; none for a cut order.
#[tactic(auto, using(crate::proofs::Lawful::lawful, crate::proofs::Lawful::requirement_small), unfolding(crate::specs::Margins::order_margin))]
pub fn margin(order: Order, settings: &Settings, mark: Price) -> u64
    requires { lawful_order order ≡ true }
    ensures value { result ≡ order_margin settings.now.margin_percent mark.yen order }
    ensures bound { result ≤ 50000000000 }
{
    if order.cut {
        return 0;
    }
    let market = order.price == 0;
    let price = if market { mark.yen } else { order.price };
    requirement(settings, price, order.quantity)
}

// The margins of every account's orders: one pass over the orders.
// An array by account number, as in `by_account`. Bounds, here and below, are of plain numbers that callers add up.
// Settings and mark come apart: a valuation would have a caller name a spot too, which this does not read.
// Over a list that a caller has, here and below: `Orders` owns its list, so whoever has been lent one can make none.
pub fn margins(orders: &List<Order>, settings: &Settings, mark: u32) -> [u64; 256]
    requires mark { mark ≤ 100000000 }
    requires few { capacity orders.now ≤ 4096 }
    requires orders { lawful_orders (items orders.now) ≡ true }
    ensures value { (a : ℕ) → a < 256 → slice_index result a ≡ margin_of a settings.now.margin_percent mark (items orders.now) }
    ensures bound { (a : ℕ) → a < 256 → slice_index result a ≤ 50000000000 * 4096 }
{
    let mark = Price { yen: mark };
    by_account(orders.as_slice(), 0u64, |sum, o| {
        sum + margin(o, settings, mark)
    })
}

// What remains of an account's orders of one side.
pub fn ordered(orders: &List<Order>, account: u8, side: Side) -> u32
    requires few { capacity orders.now ≤ 4096 }
    requires orders { lawful_orders (items orders.now) ≡ true }
    ensures value { result ≡ ordered_of account side (items orders.now) }
    ensures bound { result ≤ 50000 * 4096 }
{
    units_on(orders.as_slice(), account, side)
}

// The same of all that a value has.
impl Orders<'_> {
    pub fn margins(&self, settings: &Settings, mark: Price) -> [u64; 256]
        ensures value { (a : ℕ) → a < 256 → slice_index result a ≡ margin_of a settings.now.margin_percent mark.yen (items self.now.list) }
        ensures bound { (a : ℕ) → a < 256 → slice_index result a ≤ 50000000000 * 4096 }
    {
        margins(&self.list, settings, mark.yen)
    }

    pub fn ordered(&self, account: u8, side: Side) -> u32
        ensures value { result ≡ ordered_of account side (items self.now.list) }
        ensures bound { result ≤ 50000 * 4096 }
    {
        ordered(&self.list, account, side)
    }
}
