ghost use Rattle.std.specs.Prelude.{◌≡◌};

use crate::state::AccountState;

// What the margin of an account is judged by: equity in sen, the requirement of its position and its whole margin in yen, and the units that it holds.
#[derive(Clone, Copy, PartialEq, Eq, Debug)]
pub struct Standing {
    pub equity: i64,
    pub requirement: u64,
    pub margin: u64,
    pub units: u32,
}

// What a review decides of an account: its state from then on, and whether its orders are void. No Option: each says something whatever the other is.
#[derive(Clone, Copy, PartialEq, Eq, Debug)]
pub struct Decision {
    pub state: AccountState,
    pub void: bool,
}
