ghost use Rattle.std.specs.Prelude.{◌≡◌};
ghost use Rattle.desk.specs.Nouns.{noun_for};

use std::fmt;
use workings::money::Grouped;

// Things that are counted.
#[derive(Clone, Copy)]
pub enum Noun {
    Call,
    Command,
    Entry,
    Line,
}

// A number of things, shown as `1 call` or `2 calls`.
#[derive(Clone, Copy)]
pub struct Several(pub u64, pub Noun);

// Two words for each noun: the plurals follow no one rule.
impl Noun {
    fn word(self, is_one: bool) -> &'static str
        ensures { result.now ≡ noun_for self is_one }
    {
        match (self, is_one) {
            (Noun::Call, true) => "call",
            (Noun::Call, false) => "calls",
            (Noun::Command, true) => "command",
            (Noun::Command, false) => "commands",
            (Noun::Entry, true) => "entry",
            (Noun::Entry, false) => "entries",
            (Noun::Line, true) => "line",
            (Noun::Line, false) => "lines",
        }
    }
}

impl fmt::Display for Several {
    fn fmt<W: fmt::Write>(&self, f: &mut fmt::Formatter<W>) -> fmt::Result {
        let count = self.0;
        write!(f, "{} {}", Grouped(count as u128), self.1.word(count == 1))
    }
}
