ghost use Rattle.std.specs.Prelude.{◌≡◌};
ghost use Rattle.workings.specs.Numbers.{numeral, number_read};

// Why a text is not a number that is wanted. No `RangeFault`: callers would tell of a number too small, which never comes.
#[derive(Clone, Copy)]
pub enum NumberFault {
    NoNumber,
    TooLarge,
}

// The number that one or more decimal digits write, at most `max`.
pub fn read_number(text: &str, max: u64) -> Result<u64, NumberFault>
    ensures { result ≡ number_read max text.now }
{
    if !is_numeral(text) {
        return Err(NumberFault::NoNumber);
    }
    let number = text.parse::<u64>().ok();
    number.filter(|n| *n <= max).ok_or(NumberFault::TooLarge)
}

// Whether the text is one or more decimal digits: `parse` would also take a sign.
fn is_numeral(text: &str) -> bool
    ensures { result ≡ numeral text.now }
{
    !text.is_empty() && text.bytes().all(|b| b.is_ascii_digit())
}
