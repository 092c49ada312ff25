ghost use Rattle.std.specs.Prelude.{◌≡◌, ℕ};
ghost use Rattle.terms.specs.declared.side.Side.{Side};

use terms::{Lot, Side};

// A record of an account's units on a side.
pub trait Sided {
    ghost account: { Self → ℕ };

    ghost side: { Self → Side };

    ghost quantity: { Self → ℕ };

    fn account(&self) -> u8
        ensures { result ≡ account self.now };

    fn side(&self) -> Side
        ensures { result ≡ side self.now };

    fn quantity(&self) -> u32
        ensures { result ≡ quantity self.now };
}

impl Sided for Lot {
    ghost account = { λ l. l.account };

    ghost side = { λ l. l.side };

    ghost quantity = { λ l. l.quantity };

    fn account(&self) -> u8 {
        self.account
    }

    fn side(&self) -> Side {
        self.side
    }

    fn quantity(&self) -> u32 {
        self.quantity
    }
}
