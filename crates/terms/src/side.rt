ghost use Rattle.std.specs.Prelude.{◌≡◌};
ghost use Rattle.terms.specs.Codes.{same_side, side_byte, side_read};

use crate::codes::coded;
use crate::refusal::Refusal;

// Of an order, to buy or to sell; of a lot, long where it was bought and short where it was sold.
#[derive(Clone, Copy, PartialEq, Eq, Debug)]
pub enum Side {
    Buy = 0,
    Sell = 1,
}

impl Side {
    // Whether both are the same side, as `==` tells it.
    pub fn is(self, other: Side) -> bool
        ensures { result ≡ same_side self other }
    {
        self == other
    }
}

impl TryFrom<u8> for Side {
    type Error = Refusal;

    fn try_from(b: u8) -> Result<Side, Refusal>
        ensures { result ≡ side_read b }
    {
        coded(Side::Buy, Side::Sell, b)
    }
}

impl From<Side> for u8 {
    fn from(side: Side) -> u8
        ensures { result ≡ side_byte side }
    {
        side as u8
    }
}
