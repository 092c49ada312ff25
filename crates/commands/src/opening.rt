ghost use Rattle.std.specs.Prelude.{◌≡◌, Some, is_ok, MatchResult};
ghost use Rattle.terms.specs.declared.refusal.Refusal.TheVariants.{SettingOutOfRange};
ghost use Rattle.commands.specs.Commands.{kind_read};
ghost use Rattle.commands.specs.Faults.{NoKindWord};
ghost use Rattle.commands.specs.Kinds.{kinds, kind_word, kinds_apart};
ghost use Rattle.commands.specs.Openings.{request_lawful, Admitted};

use crate::unreadable::Unreadable;
use std::fmt;
use terms::{Refusal, Settings};
use workings::keyword::{Keyword, named};

// Both kinds of book mean the same.
#[derive(Clone, Copy)]
pub enum Kind {
    Running,
    Journal,
}

// An enum doesn't list its variants.
static KINDS: [Kind; 2] = [Kind::Running, Kind::Journal];

// The slots of a ledger, and the book that it runs on.
#[derive(Clone, Copy)]
pub struct Layout {
    pub lots: usize,
    pub orders: usize,
    pub kind: Kind,
    pub entries: usize,
}

// What an `open` asks for, as it was read.
#[derive(Clone, Copy)]
pub struct Request {
    pub points_rate: u32,
    pub funding_divisor: u32,
    pub funding_cap: u32,
    pub margin_percent: u32,
    pub layout: Layout,
}

// What a taken `open` fixes.
#[derive(Clone, Copy)]
pub struct Opening {
    pub settings: Settings,
    pub layout: Layout,
}

impl TryFrom<Request> for Opening {
    type Error = Refusal;

    fn try_from(request: Request) -> Result<Opening, Refusal>
        ensures test { is_ok result ≡ request_lawful request }
        ensures cases { MatchResult result (Admitted request) (λ e. e ≡ SettingOutOfRange) }
    {
        let settings = Settings::new(
            request.points_rate,
            request.funding_divisor,
            request.funding_cap,
            request.margin_percent,
        )?;
        Ok(Opening {
            settings,
            layout: request.layout,
        })
    }
}

impl Keyword for Kind {
    ghost all = { kinds };

    ghost word = { kind_word };

    ghost apart = { kinds_apart };

    fn all() -> &'static [Kind] {
        &KINDS
    }

    fn word(self) -> &'static str {
        match self {
            Kind::Running => "running",
            Kind::Journal => "journal",
        }
    }
}

impl<'a> TryFrom<&'a str> for Kind {
    type Error = Unreadable<'a>;

    fn try_from(text: &'a str) -> Result<Kind, Unreadable<'a>>
        ensures { MatchResult result (λ k. kind_read text.now ≡ Some k) (NoKindWord text.now) }
    {
        named(text).ok_or(Unreadable::NoKind(text))
    }
}

impl fmt::Display for Kind {
    fn fmt<W: fmt::Write>(&self, f: &mut fmt::Formatter<W>) -> fmt::Result {
        f.write_str(self.word())
    }
}
