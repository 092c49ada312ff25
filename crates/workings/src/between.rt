// Numbers that have to lie within a range.
ghost use Rattle.std.specs.Prelude.{◌≡◌, ◌^◌, ◌<◌, ◌≤◌, IfOk, unsigned_abs};
ghost use Rattle.workings.specs.Between.{range_fault, between_read, turned, kept, signed_read};
ghost use Rattle.workings.specs.Numbers.{number_read};

use crate::number::{NumberFault, read_number};

// Why a text is not a number of a range.
#[derive(Clone, Copy, Debug)]
pub enum RangeFault {
    NoNumber,
    TooSmall,
    TooLarge,
}

impl From<NumberFault> for RangeFault {
    ghost from_gives = { λ fault r. r ≡ range_fault fault };

    fn from(fault: NumberFault) -> RangeFault {
        match fault {
            NumberFault::NoNumber => RangeFault::NoNumber,
            NumberFault::TooLarge => RangeFault::TooLarge,
        }
    }
}

// The number that one or more decimal digits write, from `min` to `max`. Text and bound come apart: a struct of both would be made at each call, to be taken apart here.
pub(crate) fn read_between(text: &str, min: u64, max: u64) -> Result<u64, RangeFault>
    ensures value { result ≡ between_read min max text.now }
    ensures within { IfOk result (λ n. (min ≤ n) × (n ≤ max)) }
{
    let n = read_number(text, max)?;
    if n < min {
        return Err(RangeFault::TooSmall);
    }
    Ok(n)
}

// The number that digits write, turned by a `-` before them, up to `max` on either side of nought.
pub(crate) fn read_signed(text: &str, max: u64) -> Result<i64, RangeFault>
    requires { max < 2 ^ 63 }
    ensures value { result ≡ signed_read max text.now }
    ensures within { IfOk result (λ z. unsigned_abs z ≤ max) }
{
    let Some(digits) = text.strip_prefix('-') else {
        return Ok(read_number(text, max)? as i64);
    };
    let below = read_number(digits, max).map_err(|fault| match fault {
        NumberFault::NoNumber => RangeFault::NoNumber,
        NumberFault::TooLarge => RangeFault::TooSmall,
    })?;
    Ok(-(below as i64))
}
