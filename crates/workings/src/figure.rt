// The numbers that `work` takes, as scripts and messages name them.
ghost use Rattle.std.specs.Prelude.{◌≡◌};
ghost use Rattle.workings.specs.Figures.{figure_name, figure_min, figure_max};

use std::fmt;

#[derive(Clone, Copy, Debug)]
pub enum Figure {
    Spot,
    Last,
    Price,
    Quantity,
    Rate,
    Divisor,
    Cap,
    Percent,
    Charge,
    // of the units that a lot holds, those that are closed
    Closed,
    Held,
}

impl Figure {
    // No text is searched for among these names, so a figure is no `Keyword`; what is over fields and figures alike, `listed::Fields`, asks only for `Display`, which writes the name that the contract is over.
    pub(crate) fn name(self) -> &'static str
        ensures { result.now ≡ figure_name self }
    {
        match self {
            Figure::Spot => "SPOT",
            Figure::Last => "LAST",
            Figure::Price => "PRICE",
            Figure::Quantity => "QTY",
            Figure::Rate => "R",
            Figure::Divisor => "G",
            Figure::Cap => "K",
            Figure::Percent => "P",
            Figure::Charge => "CHARGE",
            Figure::Closed => "C",
            Figure::Held => "Q",
        }
    }

    // The smallest number of the figure. CHARGE goes as far below nought as above.
    pub(crate) fn min(self) -> u64
        ensures { result ≡ figure_min self }
    {
        match self {
            Figure::Spot
            | Figure::Last
            | Figure::Price
            | Figure::Quantity
            | Figure::Divisor
            | Figure::Held => 1,
            Figure::Rate | Figure::Cap | Figure::Charge | Figure::Closed => 0,
            Figure::Percent => 50,
        }
    }

    // The largest number of the figure. C goes up to Q, however large that is.
    pub(crate) fn max(self) -> u64
        ensures { result ≡ figure_max self }
    {
        match self {
            Figure::Spot | Figure::Last | Figure::Price => 100_000_000,
            Figure::Quantity | Figure::Closed | Figure::Held => 50_000,
            Figure::Rate => 1_000,
            Figure::Divisor | Figure::Percent => 100,
            Figure::Cap => 4_000,
            Figure::Charge => 712_400_000_000,
        }
    }
}

impl fmt::Display for Figure {
    fn fmt<W: fmt::Write>(&self, f: &mut fmt::Formatter<W>) -> fmt::Result {
        f.write_str(self.name())
    }
}
