use crate::field::Field;
use crate::verb::{OFFERED, Verb};
use thiserror::Error;
use workings::listed::{Fields, Joined};
use workings::work_fault::WorkFault;

// Why a line cannot be read.
#[derive(Clone, Copy, Debug, Drop, Error)]
pub enum Unreadable<'a> {
    #[error("the line is not UTF-8 text")]
    NotText,
    #[error("'{0}' is no command (the commands are: {verbs})", verbs = Joined(&OFFERED, ", "))]
    NoCommand(&'a str),
    #[error("'{0}' is not offered yet")]
    NotOffered(&'a str),
    #[error("{verb} takes {fields}, {given} given", fields = Fields(.verb.fields()))]
    WrongCount { verb: Verb, given: usize },
    #[error("{field} '{text}' is no whole number")]
    NoNumber { field: Field, text: &'a str },
    #[error("{field} '{text}' is too large (at most {})", .field.max())]
    TooLarge { field: Field, text: &'a str },
    #[error("KIND '{0}' is neither running nor journal")]
    NoKind(&'a str),
    #[error(transparent)]
    Work(WorkFault<'a>),
}
