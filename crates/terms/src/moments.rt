ghost use Rattle.std.specs.Prelude.{◌≡◌};

// What is due at a moment of the day.
#[derive(Clone, Copy, PartialEq, Eq, Debug)]
pub enum Moment {
    Funding,
    Deadline,
    Rollover,
}

// A due moment: its time, and what is due.
#[derive(Clone, Copy, PartialEq, Eq, Debug)]
pub struct Due {
    pub at: u32,
    pub moment: Moment,
}
