ghost use Rattle.std.specs.Prelude.{◌*◌, ◌≤◌, unsigned_abs};

use lots::Holding;

// What an account has at stake: what its lots come to, and the margins of its orders in yen; never more than a ledger's slots can hold.
#[derive(Clone, Copy)]
pub struct Exposure {
    pub holding: Holding,
    pub ordered: u64,
    ghost near: { unsigned_abs holding.worth ≤ 76240000000000 * 4096 },
    ghost small: { ordered ≤ 50000000000 * 4096 },
}
