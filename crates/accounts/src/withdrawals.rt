ghost use Rattle.std.specs.Prelude.{◌≡◌, ◌*◌, pos, ◌-ℤ◌};
ghost use Rattle.accounts.specs.Withdrawals.{exceeds};

use crate::standing::Standing;

// The sen that equity leaves above 100 % of the margin; below nought they are missing. `terms` subtracts the other way round: either is shorter than the other negated.
fn spare(equity: i64, margin: u64) -> i128
    ensures { result ≡ equity -ℤ pos (100 * margin) }
{
    equity as i128 - 100 * margin as i128
}

// A withdrawal of so many sen exceeds what the account may be paid: the lesser of its balance and of what its equity leaves.
pub fn exceeds(sen: u64, balance: i64, standing: Standing) -> bool
    ensures { result ≡ exceeds sen balance standing }
{
    (balance as i128) < sen as i128 || spare(standing.equity, standing.margin) < sen as i128
}
