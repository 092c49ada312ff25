// The arithmetic of one charge: each number that is shown is one of these.
ghost use Rattle.std.specs.Prelude.{◌≡◌, ◌*◌, ◌/◌, pos, ◌-ℤ◌, int_div};
ghost use Rattle.terms.specs.Charges.{points, payer, paid, received};
ghost use Rattle.terms.specs.Closing.{share};
ghost use Rattle.terms.specs.Margins.{requirement};
ghost use Rattle.workings.specs.Works.{difference_of};

use crate::working::{FundingWork, MarginWork, PointsWork, SplitWork};
use terms::closing::split_charge;
use terms::{Settings, Side, charges, margins};

impl PointsWork {
    // Before the division.
    pub(crate) fn product(&self) -> u128
        ensures { result ≡ self.now.spot.value * self.now.quantity.value * self.now.rate.value }
    {
        charges::product(self.spot.value, self.quantity.value, self.rate.value)
    }

    // Charges are reckoned with settings, of which one counts here, as in the others below: a maker for all would take the same four numbers.
    pub(crate) fn yen(&self) -> u64
        ensures { result ≡ points self.now.rate.value self.now.spot.value self.now.quantity.value }
    {
        let settings = Settings::new(self.rate.value, 1, 0, 50).unwrap();
        charges::points(&settings, self.spot.value, self.quantity.value)
    }
}

impl FundingWork {
    // The difference of the prices, divided, before it is held within the bound.
    pub(crate) fn divided(&self) -> i64
        ensures { result ≡ int_div (pos self.now.last.value -ℤ pos self.now.spot.value) (pos self.now.divisor.value) }
    {
        charges::premium(self.last.value, self.spot.value, self.divisor.value)
    }

    pub(crate) fn bound(&self) -> u64
        ensures { result ≡ self.now.spot.value * self.now.cap.value / 1000000 }
    {
        charges::bound(self.spot.value, self.cap.value)
    }

    pub(crate) fn difference(&self) -> i32
        ensures { result ≡ difference_of self.now }
    {
        let settings = Settings::new(0, self.divisor.value, self.cap.value, 50).unwrap();
        charges::funding_difference(&settings, self.last.value, self.spot.value)
    }

    pub(crate) fn payer(&self) -> Option<Side>
        ensures { result ≡ payer (difference_of self.now) }
    {
        charges::payer(self.difference())
    }

    // In yen, as the next.
    pub(crate) fn paid(&self) -> u64
        ensures { result ≡ paid (difference_of self.now) self.now.quantity.value }
    {
        charges::paid(self.difference(), self.quantity.value)
    }

    pub(crate) fn received(&self) -> u64
        ensures { result ≡ received (difference_of self.now) self.now.quantity.value }
    {
        charges::received(self.difference(), self.quantity.value)
    }
}

impl MarginWork {
    // Before the division.
    pub(crate) fn product(&self) -> u128
        ensures { result ≡ self.now.price.value * self.now.quantity.value * self.now.percent.value }
    {
        charges::product(self.price.value, self.quantity.value, self.percent.value)
    }

    pub(crate) fn yen(&self) -> u64
        ensures { result ≡ requirement self.now.percent.value self.now.price.value self.now.quantity.value }
    {
        let settings = Settings::new(0, 1, 0, self.percent.value).unwrap();
        margins::requirement(&settings, self.price.value, self.quantity.value)
    }
}

impl SplitWork {
    // The yen that are taken, and those that stay.
    pub(crate) fn shares(&self) -> (i64, i64)
        ensures taken { result.0 ≡ share self.now.charge self.now.closed self.now.held.value }
        ensures stays { result.1 ≡ self.now.charge -ℤ share self.now.charge self.now.closed self.now.held.value }
    {
        split_charge(self.charge, self.closed, self.held.value)
    }
}
