use crate::between::RangeFault;
use crate::figure::Figure;
use crate::listed::{Fields, Joined};
use crate::topic::{TOPICS, Topic};
use std::fmt;
use thiserror::Error;

// Why the words after `work` cannot be read.
#[derive(Clone, Copy, Debug, Drop, Error)]
pub enum WorkFault<'a> {
    #[error("work takes a topic ({})", Joined(&TOPICS, ", "))]
    NoWord,
    #[error("'{0}' is nothing to work ({topics})", topics = Joined(&TOPICS, ", "))]
    NoTopic(&'a str),
    #[error("work {topic} takes {figures}, {given} given", figures = Fields(.topic.figures()))]
    WrongCount {
        topic: Topic,
        given: usize,
    },
    #[error("{figure} '{text}' is {misfit}", misfit = Misfit(*.figure, *.why))]
    NoFigure {
        figure: Figure,
        text: &'a str,
        why: RangeFault,
    },
}

// Why a text is no number of a figure.
#[derive(Clone, Copy)]
struct Misfit(Figure, RangeFault);

// A charge may be as far below nought as above it, and no more units are closed than the lot holds. By hand: the words go by figure and fault together.
impl fmt::Display for Misfit {
    fn fmt<W: fmt::Write>(&self, f: &mut fmt::Formatter<W>) -> fmt::Result {
        let figure = self.0;
        match (self.1, figure) {
            (RangeFault::NoNumber, _) => f.write_str("no whole number"),
            (RangeFault::TooSmall, Figure::Charge) => {
                write!(f, "too small (at least -{})", figure.max())
            }
            (RangeFault::TooSmall, _) => write!(f, "too small (at least {})", figure.min()),
            (RangeFault::TooLarge, Figure::Closed) => {
                write!(f, "too large (at most {})", Figure::Held)
            }
            (RangeFault::TooLarge, _) => write!(f, "too large (at most {})", figure.max()),
        }
    }
}
