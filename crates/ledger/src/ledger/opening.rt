ghost use Rattle.std.specs.Prelude.{◌≡◌, length};
ghost use Rattle.slots.specs.Items.{free};
ghost use Rattle.rules.specs.State.{opened};
ghost use Rattle.ledger.specs.View.{view};

use crate::ledger::Ledger;
use accounts::Accounts;
use lots::Lots;
use orders::{Order, Orders};
use slots::List;
use terms::ranges::SLOTS_MAX;
use terms::{Lot, Settings};

impl<'a> Ledger<'a> {
    // A new ledger over slots that the host lends, of which it uses at most 4,096 for lots and as many for orders.
    #[tactic(auto, unfolding(slots::specs::Every::every, orders::specs::Numbers::rising))]
    pub fn open(settings: Settings, lots: &'a mut [Lot], orders: &'a mut [Order]) -> Ledger<'a>
        ensures view { view result ≡ opened settings (length lots.old) (length orders.old) }
        ensures lots { free result.lots.list ≡ lots.old }
        ensures orders { free result.orders.list ≡ orders.old }
    {
        let accounts = Accounts::new();
        let lots = Lots {
            time: 0,
            list: List::new(lots, SLOTS_MAX),
        };
        let orders = Orders {
            list: List::new(orders, SLOTS_MAX),
        };
        Ledger {
            settings,
            spot: None,
            last: None,
            halt: None,
            issued: 0,
            accounts,
            lots,
            orders,
        }
    }
}
