ghost use Rattle.std.specs.Prelude.{ℕ, ◌<◌, slice_index_or};
ghost use Rattle.sums.specs.Sums.{ComesTo, MayAdd};

use crate::sided::Sided;

// What the records of every account come to, from `nought` on: one pass over the records.
// An array by account number, as every number is an account's and there is no heap for a map.
pub fn by_account<T: Sided + Copy, V: Copy, F: Fn(V, T) -> V>(
    records: &[T],
    nought: V,
    add: F,
) -> [V; 256]
    requires { MayAdd T.account (F.pre add) (F.post add) nought records.now }
    ensures { (a : ℕ) → a < 256 → ComesTo T.account (F.post add) nought a records.now (slice_index_or result a nought) }
{
    let mut sums = [nought; 256];
    for r in records {
        let a = r.account() as usize;
        sums[a] = add(sums[a], *r);
    }
    sums
}
