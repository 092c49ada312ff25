ghost use Rattle.std.specs.Prelude.{◌≡◌, ℕ, ◌*◌, ◌^◌, ◌<◌, ◌≤◌, length};
ghost use Rattle.sums.specs.Sums.{units, AtMost};

use crate::sided::Sided;
use terms::Side;

// The chain alone: the bound below is shown from its clause.
fn summed<T: Sided>(records: &[T], account: u8, side: Side) -> u32
    requires { units T.account T.side T.quantity account side records.now < 2 ^ 32 }
    ensures { result ≡ units T.account T.side T.quantity account side records.now }
{
    records
        .iter()
        .filter(|r| r.account() == account && r.side() == side)
        .map(|r| r.quantity())
        .sum()
}

// The units of an account's records on one side.
// Account and side come one by one: callers have them apart, and a struct of both would be made at each call, to be taken apart at once.
pub fn units_on<T: Sided>(records: &[T], account: u8, side: Side) -> u32
    requires { units T.account T.side T.quantity account side records.now < 2 ^ 32 }
    ensures value { result ≡ units T.account T.side T.quantity account side records.now }
    ensures bound { (most : ℕ) → AtMost T.quantity most records.now → result ≤ most * length records.now }
{
    summed(records, account, side)
}
