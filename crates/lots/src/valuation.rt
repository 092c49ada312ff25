ghost use Rattle.std.specs.Prelude.{◌≡◌, ℕ, ◌+◌, ◌*◌, ◌<◌, ◌≤◌, true, get_or, pos, slice_index_or, unsigned_abs};
ghost use Rattle.slots.specs.Items.{items, capacity};
ghost use Rattle.lots.specs.Worth.{worth, worth_of_all, Plus, no_holding, holding_of};
ghost use Rattle.lots.specs.Lots.{lawful_lot, lawful_lots};

use crate::holding::Holding;
use crate::lots::Lots;
use slots::List;
use sums::by_account;
use terms::closing::settlement;
use terms::{Lot, Price};

// What a lot gives its account where it is closed out at a price. The bound is of a plain number that callers add up, as `settlement`'s.
#[tactic(auto, using(crate::proofs::Lawful::lawful, crate::proofs::Lawful::charge_small), unfolding(crate::specs::Worth::worth, terms::specs::Closing::settlement))]
pub fn worth(lot: Lot, time: u32, price: Price) -> i64
    requires time { time ≤ 94694399 }
    requires lot { lawful_lot time lot ≡ true }
    ensures value { result ≡ worth (pos price.yen) lot }
    ensures bound { unsigned_abs result ≤ 76240000000000 }
{
    let opening = Price { yen: lot.price };
    settlement(lot.side, opening, price, lot.quantity, lot.charge)
}

// A holding with one lot more.
// Time and lot come one by one, as to `worth`, which is asked of a single lot too.
fn with(h: Holding, lot: Lot, time: u32, price: Price) -> Holding
    requires time { time ≤ 94694399 }
    requires lot { lawful_lot time lot ≡ true }
    requires worth { unsigned_abs h.worth ≤ 76240000000000 * 4095 }
    requires units { h.units ≤ 50000 * 4095 }
    ensures { Plus h (worth (pos price.yen) lot) lot.quantity result }
{
    Holding {
        worth: h.worth + worth(lot, time, price),
        units: h.units + lot.quantity,
    }
}

// What every account holds, closed out at a price: one pass over the lots. An array by account number, as in `by_account`.
// Over a list that a caller has, here and below, of lots as they stand at a time: `Lots` owns its list, so whoever has been lent one can make none.
pub fn holdings(lots: &List<Lot>, time: u32, price: u32) -> [Holding; 256]
    requires time { time ≤ 94694399 }
    requires price { price ≤ 100000000 }
    requires few { capacity lots.now ≤ 4096 }
    requires lots { lawful_lots time (items lots.now) ≡ true }
    ensures value { (a : ℕ) → a < 256 → slice_index_or result a no_holding ≡ holding_of a (pos price) (items lots.now) }
    ensures bound { (a : ℕ) → a < 256 → unsigned_abs (get_or result a no_holding).worth ≤ 76240000000000 * 4096 }
    ensures few { (a : ℕ) → a < 256 → (get_or result a no_holding).units ≤ 50000 * 4096 }
{
    let none = Holding { worth: 0, units: 0 };
    let price = Price { yen: price };
    by_account(lots.as_slice(), none, |h, l| { with(h, l, time, price) })
}

// What all lots give, closed out at a price: one pass over them.
// A `for`, as the library's `sum` of signed numbers asks a bound that a chain does not give; the invariant does.
pub fn worth_of_all(lots: &List<Lot>, time: u32, price: u32) -> i64
    requires time { time ≤ 94694399 }
    requires price { price ≤ 100000000 }
    requires few { capacity lots.now ≤ 4096 }
    requires lots { lawful_lots time (items lots.now) ≡ true }
    ensures value { result ≡ worth_of_all (pos price) (items lots.now) }
    ensures bound { unsigned_abs result ≤ 76240000000000 * 4096 }
{
    let mut sum = 0;
    for l in lots.as_slice() {
        sum = sum + worth(*l, time, Price { yen: price });
    }
    sum
}

// The same of all that a value has.
impl Lots<'_> {
    pub fn holdings(&self, price: Price) -> [Holding; 256]
        ensures value { (a : ℕ) → a < 256 → slice_index_or result a no_holding ≡ holding_of a (pos price.yen) (items self.now.list) }
        ensures bound { (a : ℕ) → a < 256 → unsigned_abs (get_or result a no_holding).worth ≤ 76240000000000 * 4096 }
        ensures few { (a : ℕ) → a < 256 → (get_or result a no_holding).units ≤ 50000 * 4096 }
    {
        holdings(&self.list, self.time, price.yen)
    }

    pub fn worth_of_all(&self, price: Price) -> i64
        ensures value { result ≡ worth_of_all (pos price.yen) (items self.now.list) }
        ensures bound { unsigned_abs result ≤ 76240000000000 * 4096 }
    {
        worth_of_all(&self.list, self.time, price.yen)
    }
}
