ghost use Rattle.std.specs.Prelude.{◌≡◌};

use sums::Sided;
use terms::Side;

// An order that is held; `quantity` is what remains of it.
#[derive(Clone, Copy)]
pub struct Order {
    pub number: u32,
    pub account: u8,
    pub side: Side,
    // its limit, or 0 for a market order: the host's calls and the definitions say it so, and an Option, with Some(0) for a second nought, would be turned to and fro at each
    pub price: u32,
    pub quantity: u32,
    // it closes out an account's whole position, and needs no margin; a flag, as an enum of limit, market and cut would not take the cut order with a price that this type takes
    pub cut: bool,
}

// As for a lot: each type names its own fields, and no macro or derive of the project's own may write an impl.
impl Sided for Order {
    ghost account = { λ o. o.account };

    ghost side = { λ o. o.side };

    ghost quantity = { λ o. o.quantity };

    fn account(&self) -> u8 {
        self.account
    }

    fn side(&self) -> Side {
        self.side
    }

    fn quantity(&self) -> u32 {
        self.quantity
    }
}
