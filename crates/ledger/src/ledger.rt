ghost use Rattle.std.specs.Prelude.{◌≡◌, true};
ghost use Rattle.slots.specs.Items.{items};
ghost use Rattle.orders.specs.Numbers.{rising};
ghost use Rattle.rules.specs.State.{lawful_price, valued};

use accounts::Accounts;
use lots::Lots;
use orders::Orders;
use terms::Settings;

mod admission;
mod calls;
mod opening;
mod queries;
mod reviewing;

// What a dealer's ledger holds, its lots as they stand at its time; its money lies in a book. `last` is the CFD price of the last fill, `halt` the earliest time at which trading can be reopened, `issued` the last order number given.
#[derive(Drop)]
pub struct Ledger<'a> {
    settings: Settings,
    spot: Option<u32>,
    last: Option<u32>,
    halt: Option<u32>,
    issued: u32,
    accounts: Accounts,
    lots: Lots<'a>,
    orders: Orders<'a>,
    ghost spotted: { lawful_price spot ≡ true },
    ghost marked: { lawful_price last ≡ true },
    ghost numbered: { rising 0 issued (items orders.list) ≡ true },
    ghost priced: { valued spot last (items lots.list) (items orders.list) ≡ true },
}
