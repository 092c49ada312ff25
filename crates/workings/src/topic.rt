// What `work` can show, and the numbers that each topic takes.
ghost use Rattle.std.specs.Prelude.{◌≡◌, Some, MatchResult};
ghost use Rattle.workings.specs.Topics.{topics, topic_named, topic_word, topics_apart, figures_of};
ghost use Rattle.workings.specs.WorkFaults.{NoTopicWord};

use crate::figure::Figure;
use crate::keyword::{Keyword, named};
use crate::work_fault::WorkFault;
use std::fmt;

#[derive(Clone, Copy, Debug)]
pub enum Topic {
    Points,
    Funding,
    Margin,
    Split,
}

// An enum doesn't list its variants.
pub static TOPICS: [Topic; 4] = [Topic::Points, Topic::Funding, Topic::Margin, Topic::Split];

impl Keyword for Topic {
    ghost all = { topics };

    ghost word = { topic_word };

    ghost apart = { topics_apart };

    fn all() -> &'static [Topic] {
        &TOPICS
    }

    fn word(self) -> &'static str {
        match self {
            Topic::Points => "points",
            Topic::Funding => "funding",
            Topic::Margin => "margin",
            Topic::Split => "split",
        }
    }
}

impl<'a> TryFrom<&'a str> for Topic {
    type Error = WorkFault<'a>;

    fn try_from(word: &'a str) -> Result<Topic, WorkFault<'a>>
        ensures { MatchResult result (λ t. topic_named word.now ≡ Some t) (NoTopicWord word.now) }
    {
        named(word).ok_or(WorkFault::NoTopic(word))
    }
}

impl fmt::Display for Topic {
    fn fmt<W: fmt::Write>(&self, f: &mut fmt::Formatter<W>) -> fmt::Result {
        f.write_str(self.word())
    }
}

impl Topic {
    pub(crate) fn figures(self) -> &'static [Figure]
        ensures { result.now ≡ figures_of self }
    {
        match self {
            Topic::Points => &[Figure::Spot, Figure::Quantity, Figure::Rate],
            Topic::Funding => &[
                Figure::Last,
                Figure::Spot,
                Figure::Divisor,
                Figure::Cap,
                Figure::Quantity,
            ],
            Topic::Margin => &[Figure::Price, Figure::Quantity, Figure::Percent],
            Topic::Split => &[Figure::Charge, Figure::Closed, Figure::Held],
        }
    }
}
