// Numbers for people.
use std::fmt;

// An amount in sen, shown in yen with two decimals, as 1,234,567.89.
#[derive(Clone, Copy)]
pub struct Yen(pub i128);

// A whole number with a comma before each three digits.
#[derive(Clone, Copy)]
pub struct Grouped(pub u128);

// The same, after a minus sign where it is below nought.
#[derive(Clone, Copy)]
pub struct Signed(pub i128);

impl fmt::Display for Yen {
    fn fmt<W: fmt::Write>(&self, f: &mut fmt::Formatter<W>) -> fmt::Result {
        let sen = self.0.unsigned_abs();
        write!(
            f,
            "{}{}.{:02}",
            sign_of(self.0),
            Grouped(sen / 100),
            sen % 100
        )
    }
}

impl fmt::Display for Grouped {
    fn fmt<W: fmt::Write>(&self, f: &mut fmt::Formatter<W>) -> fmt::Result {
        write_groups(self.0, f)
    }
}

impl fmt::Display for Signed {
    fn fmt<W: fmt::Write>(&self, f: &mut fmt::Formatter<W>) -> fmt::Result {
        write!(f, "{}{}", sign_of(self.0), Grouped(self.0.unsigned_abs()))
    }
}

fn sign_of(n: i128) -> &'static str {
    if n.is_negative() { "-" } else { "" }
}

// A recursion: the groups are shown from the largest on.
fn write_groups<W: fmt::Write>(n: u128, f: &mut fmt::Formatter<W>) -> fmt::Result {
    if n < 1000 {
        return write!(f, "{n}");
    }
    write_groups(n / 1000, f)?;
    write!(f, ",{:03}", n % 1000)
}
