// Lists within messages.
use std::fmt;

// The items of a list, with a text between each two.
#[derive(Clone, Copy)]
pub struct Joined<'a, T>(pub &'a [T], pub &'a str);

impl<T: fmt::Display + Copy> fmt::Display for Joined<'_, T> {
    fn fmt<W: fmt::Write>(&self, f: &mut fmt::Formatter<W>) -> fmt::Result {
        f.write_joined(self.0.iter().copied(), self.1)
    }
}

// How many fields there are, and their names.
#[derive(Clone, Copy)]
pub struct Fields<'a, T>(pub &'a [T]);

impl<T: fmt::Display + Copy> fmt::Display for Fields<'_, T> {
    fn fmt<W: fmt::Write>(&self, f: &mut fmt::Formatter<W>) -> fmt::Result {
        match self.0 {
            [] => f.write_str("no fields"),
            fields => write!(f, "{} fields ({})", fields.len(), Joined(fields, " ")),
        }
    }
}
