ghost use Rattle.std.specs.Prelude.{◌≡◌, ℕ, ◌+◌, ◌*◌, ◌<◌, ◌≤◌, get_or, pos, slice_index_or, unsigned_abs};
ghost use Rattle.book.specs.Meaning.{together};

mod methods;

// Keeps a balance for each account, and how many entries were made and are left.
// The balances stand in an array, one at each account's number: the project has no heap, and its memory is fixed.
#[derive(Drop)]
pub struct RunningBook {
    balances: [i64; 256],
    made: u32,
    left: u32,
    ghost few: { made + left ≤ 65536 },
    ghost even: { together 256 (λ k. get_or balances k (pos 0)) ≡ pos 0 },
    ghost near: { (k : ℕ) → k < 256 → unsigned_abs (slice_index_or balances k (pos 0)) ≤ 80000000000000 * made },
}
