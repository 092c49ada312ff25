ghost use Rattle.std.specs.Prelude.{◌≡◌};
ghost use Rattle.terms.specs.Codes.{coded};

use crate::refusal::Refusal;

// Which of two values a byte stands for.
pub(crate) fn coded<X: Copy>(x: X, y: X, b: u8) -> Result<X, Refusal>
    ensures { result ≡ coded x y b }
{
    match b {
        0 => Ok(x),
        1 => Ok(y),
        _ => Err(Refusal::CodeOutOfRange),
    }
}
