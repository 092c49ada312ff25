ghost use Rattle.std.specs.Prelude.{◌≡◌, ◌-◌, length, drop, filter};
ghost use Rattle.slots.specs.Items.{items, free, capacity};
ghost use Rattle.orders.specs.Orders.{spared};

use crate::order::Order;
use slots::List;

// Takes out every order of the accounts that are marked; the others keep their order.
// The marks are an array by account number, as every number is an account's and there is no heap for a set.
// That the capacity stays, and what lies past the list, is said of a list before and after, which no type says of one value.
pub fn void(orders: &mut List<Order>, marked: &[bool; 256])
    ensures items { items orders.new ≡ filter (spared marked.now) (items orders.old) }
    ensures free { drop (length (items orders.old) - length (items orders.new)) (free orders.new) ≡ free orders.old }
    ensures capacity { capacity orders.new ≡ capacity orders.old }
{
    orders.retain(|o| !marked[o.account as usize]);
}
