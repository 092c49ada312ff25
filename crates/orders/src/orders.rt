ghost use Rattle.std.specs.Prelude.{◌≡◌, ◌≤◌, true};
ghost use Rattle.slots.specs.Items.{items, capacity};
ghost use Rattle.orders.specs.Orders.{lawful_orders};

use crate::order::Order;
use slots::List;

// The orders that a ledger holds: no more than it uses, and each of them as every order is.
#[derive(Drop)]
pub struct Orders<'a> {
    pub list: List<'a, Order>,
    ghost few: { capacity list ≤ 4096 },
    ghost lawful: { lawful_orders (items list) ≡ true },
}
