ghost use Rattle.std.specs.Prelude.{◌≡◌};
ghost use Rattle.terms.specs.Codes.{outcome_byte, outcome_read};

use crate::codes::coded;
use crate::refusal::Refusal;

// How the ticket of a cut order is answered.
#[derive(Clone, Copy, PartialEq, Eq, Debug)]
pub enum Outcome {
    HandedBack = 0,
    Sent = 1,
}

impl TryFrom<u8> for Outcome {
    type Error = Refusal;

    fn try_from(b: u8) -> Result<Outcome, Refusal>
        ensures { result ≡ outcome_read b }
    {
        coded(Outcome::HandedBack, Outcome::Sent, b)
    }
}

impl From<Outcome> for u8 {
    fn from(outcome: Outcome) -> u8
        ensures { result ≡ outcome_byte outcome }
    {
        outcome as u8
    }
}
