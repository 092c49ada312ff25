ghost use Rattle.std.specs.Prelude.{◌≡◌, ℕ, ◌*◌, ◌≤◌, true};
ghost use Rattle.slots.specs.Items.{items, capacity};
ghost use Rattle.lots.specs.Lots.{lawful_lots};
ghost use Rattle.lots.specs.Positions.{position_of};

use crate::lots::Lots;
use slots::List;
use sums::units_on;
use terms::{Lot, Side};

// The units that an account holds on one side.
// The bound is of a plain number that callers add up; a struct round it would be opened at each sum.
pub fn position(lots: &List<Lot>, account: u8, side: Side) -> u32
    requires few { capacity lots.now ≤ 4096 }
    requires lots { (time : ℕ) × lawful_lots time (items lots.now) ≡ true }
    ensures value { result ≡ position_of account side (items lots.now) }
    ensures bound { result ≤ 50000 * 4096 }
{
    units_on(lots.as_slice(), account, side)
}

impl Lots<'_> {
    // The same of all that a value has.
    pub fn position(&self, account: u8, side: Side) -> u32
        ensures value { result ≡ position_of account side (items self.now.list) }
        ensures bound { result ≤ 50000 * 4096 }
    {
        position(&self.list, account, side)
    }
}
