// The fields of commands, as scripts and messages name them.
ghost use Rattle.std.specs.Prelude.{◌≡◌};
ghost use Rattle.commands.specs.Fields.{field_name, field_max};

use std::fmt;

#[derive(Clone, Copy, Debug)]
pub enum Field {
    PointsRate,
    FundingDivisor,
    FundingCap,
    MarginPercent,
    Lots,
    Orders,
    Kind,
    Entries,
    Account,
    Yen,
    Topic,
}

// The most slots, or entries of a book, that a script may ask for.
const ASKED_MAX: u64 = 1_000_000;

impl Field {
    // No text is searched for among these names, so a field is no `Keyword`; what is over fields and figures alike, `listed::Fields`, asks only for `Display`, which writes the name that the contract is over.
    pub(crate) fn name(self) -> &'static str
        ensures { result.now ≡ field_name self }
    {
        match self {
            Field::PointsRate => "R",
            Field::FundingDivisor => "G",
            Field::FundingCap => "K",
            Field::MarginPercent => "P",
            Field::Lots => "LOTS",
            Field::Orders => "ORDERS",
            Field::Kind => "KIND",
            Field::Entries => "ENTRIES",
            Field::Account => "ACCOUNT",
            Field::Yen => "YEN",
            Field::Topic => "TOPIC",
        }
    }

    // The largest number that the field takes. KIND and TOPIC are words, and take none; an `Option` would have to be opened at each of the others.
    pub(crate) fn max(self) -> u64
        ensures { result ≡ field_max self }
    {
        match self {
            Field::PointsRate | Field::FundingDivisor | Field::FundingCap | Field::MarginPercent =>
                4_294_967_295,
            Field::Lots | Field::Orders | Field::Entries => ASKED_MAX,
            Field::Account => 255,
            Field::Yen => 18_446_744_073_709_551_615,
            Field::Kind | Field::Topic => 0,
        }
    }
}

impl fmt::Display for Field {
    fn fmt<W: fmt::Write>(&self, f: &mut fmt::Formatter<W>) -> fmt::Result {
        f.write_str(self.name())
    }
}
