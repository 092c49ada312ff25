ghost use Rattle.std.specs.Prelude.{◌≡◌, ◌≤◌, true};
ghost use Rattle.slots.specs.Items.{items, capacity};
ghost use Rattle.lots.specs.Lots.{lawful_lots};

use slots::List;
use terms::Lot;

// The lots of a ledger as they stand at a time: no more than a ledger uses, and each of them as every lot is at that time.
#[derive(Drop)]
pub struct Lots<'a> {
    pub time: u32,
    pub list: List<'a, Lot>,
    ghost timely: { time ≤ 94694399 },
    ghost few: { capacity list ≤ 4096 },
    ghost lawful: { lawful_lots time (items list) ≡ true },
}
