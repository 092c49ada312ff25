ghost use Rattle.std.specs.Prelude.{◌≡◌};

// Where an account stands with its margin.
#[derive(Clone, Copy, PartialEq, Eq, Debug)]
pub enum AccountState {
    Sound,
    // called for a shortfall in yen at the rollover of a day
    Called { day: u32, shortfall: u64 },
    // its position is to be cut
    CutDue,
    // a cut order is in somebody's hand, under this number
    CutInHand { order: u32 },
    // the cut order was sent
    CutOut,
}
