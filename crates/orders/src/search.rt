ghost use Rattle.std.specs.Prelude.{◌≡◌};
ghost use Rattle.orders.specs.Orders.{place_of};

use crate::order::Order;

// The place of the order with a number, if it is held.
// From the first on, as this asks nothing of the list: a search by halves would ask that the numbers rise, as they do in a ledger.
pub fn find(orders: &[Order], number: u32) -> Option<usize>
    ensures { result ≡ place_of number orders.now }
{
    orders.iter().position(|o| o.number == number)
}
