// The table of commands: the words that begin a line, and the fields that follow each.
ghost use Rattle.std.specs.Prelude.{◌≡◌, Some, MatchResult};
ghost use Rattle.commands.specs.Faults.{NoVerb};
ghost use Rattle.commands.specs.Verbs.{names, verbs, word_of, verbs_apart, fields_of};

use crate::field::Field;
use crate::unreadable::Unreadable;
use std::fmt;
use workings::keyword::{Keyword, named};

// A command that is offered. A new one takes a variant, its place in `OFFERED`, its word and its fields.
#[derive(Clone, Copy, Debug)]
pub enum Verb {
    Open,
    Deposit,
    State,
    Statement,
    Work,
}

// An enum doesn't list its variants.
pub static OFFERED: [Verb; 5] = [
    Verb::Open,
    Verb::Deposit,
    Verb::State,
    Verb::Statement,
    Verb::Work,
];

impl Keyword for Verb {
    ghost all = { verbs };

    ghost word = { word_of };

    ghost apart = { verbs_apart };

    fn all() -> &'static [Verb] {
        &OFFERED
    }

    fn word(self) -> &'static str {
        match self {
            Verb::Open => "open",
            Verb::Deposit => "deposit",
            Verb::State => "state",
            Verb::Statement => "statement",
            Verb::Work => "work",
        }
    }
}

// Commands of the whole format that this desk does not take yet are told from words that name none.
impl<'a> TryFrom<&'a str> for Verb {
    type Error = Unreadable<'a>;

    fn try_from(word: &'a str) -> Result<Verb, Unreadable<'a>>
        ensures { MatchResult result (λ v. names word.now ≡ Some (Some v)) (NoVerb word.now) }
    {
        if let Some(verb) = named(word) {
            return Ok(verb);
        }
        match word {
            "clock"
            | "spot"
            | "withdraw"
            | "order"
            | "cancel"
            | "fill"
            | "reopen"
            | "cut"
            | "answer" => Err(Unreadable::NotOffered(word)),
            _ => Err(Unreadable::NoCommand(word)),
        }
    }
}

impl fmt::Display for Verb {
    fn fmt<W: fmt::Write>(&self, f: &mut fmt::Formatter<W>) -> fmt::Result {
        f.write_str(self.word())
    }
}

impl Verb {
    // After the topic of a `work` come the topic's own fields.
    pub(crate) fn fields(self) -> &'static [Field]
        ensures { result.now ≡ fields_of self }
    {
        match self {
            Verb::Open => &[
                Field::PointsRate,
                Field::FundingDivisor,
                Field::FundingCap,
                Field::MarginPercent,
                Field::Lots,
                Field::Orders,
                Field::Kind,
                Field::Entries,
            ],
            Verb::Deposit => &[Field::Account, Field::Yen],
            Verb::State | Verb::Statement => &[],
            Verb::Work => &[Field::Topic],
        }
    }
}
