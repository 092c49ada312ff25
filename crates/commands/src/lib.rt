// The commands of a script: reads the words of a line, and says why one cannot be read.
#![tactic(auto)]

pub mod command;
pub mod field;
pub mod line;
pub mod opening;
pub mod unreadable;
pub mod verb;
